// Spans of a delivery point whose texts lie within their slices.
ghost use Rattle.std.specs.Prelude.{◌≡◌, List, [], ℕ, ◌+◌, ◌≤◌, length};
ghost use Rattle.field.specs.Text.{text_in};
ghost use Rattle.label.specs.Spans.{text_in2};
ghost use Rattle.shelf.specs.Shelf.{Fit};
ghost use Rattle.source.specs.Delivery.{Within};
ghost use Rattle.source_spans.specs.Spans.{field_of, OwnSays, RowSays, text_if, SpansSay};

use file_record::inner::whole_record;
use label::{Span, Spans};
use shelf::Shelf;
use source::{DeliveryPoint, Found};

fn no_span(first: bool) -> Span
    ensures { (a b : List ℕ) → text_in2 a b result ≡ [] }
{
    Span {
        first,
        at: 0,
        len: 0,
    }
}

// A padded field of so many bytes at a place of the slice that holds the delivery point.
fn own_span(own: &[u8], at: usize, width: usize) -> Span
    requires { (width ≤ 255) × (at + width ≤ length own.now) }
    ensures { OwnSays own.now result (text_in own.now at (at + width)) }
{
    let field = file_record::part_of(own, at, at + width);
    let text = field_read::read_text(field, 0, width);
    Span {
        first: false,
        at,
        len: text.len() as u8,
    }
}

// The same where it is asked for, no bytes otherwise.
fn own_span_if(there: bool, own: &[u8], at: usize, width: usize) -> Span
    requires { (width ≤ 255) × (at + width ≤ length own.now) }
    ensures { OwnSays own.now result (text_if there own.now at width) }
{
    if there {
        own_span(own, at, width)
    } else {
        no_span(false)
    }
}

// The text of so many bytes at a place of a row; no bytes where the row is 0.
fn row_span(file: &[u8], s: Shelf, row: usize, from: usize, width: usize) -> Span
    requires { Fit s × ((from ≤ 2000) × (width ≤ 255)) }
    ensures { RowSays file.now result (field_of s file.now row from width) }
{
    if row == 0 {
        return no_span(true);
    }
    let w = s.width;
    if file.len() / w <= row {
        return no_span(true);
    }
    let rec = whole_record(file, w, row);
    let text = field_read::read_text(rec, from, from + width);
    Span {
        first: true,
        at: row * w + from,
        len: text.len() as u8,
    }
}

// Where the elements of a delivery point stand.
pub fn spans_of(file: &[u8], s: Shelf, own: &[u8], p: DeliveryPoint, found: Found) -> Spans
    requires { Fit s × Within own.now p }
    ensures { SpansSay s file.now own.now p found.rows result }
{
    let rows = found.rows;
    let text = s.text;
    let town = s.locality;
    let name = p.organisation;
    let postcode = p.postcode;
    Spans {
        organisation: own_span_if(p.organised, own, name, 60),
        department: own_span_if(p.organised, own, name + 60, 60),
        po_box: own_span(own, p.po_box, 6),
        sub_building: row_span(file, s, rows[6], text, 30),
        building: row_span(file, s, rows[5], text, 50),
        number: p.number,
        concatenation: p.concatenation,
        dependent: row_span(file, s, rows[3], text, 60),
        dependent_descriptor: row_span(file, s, rows[4], text, 20),
        thoroughfare: row_span(file, s, rows[1], text, 60),
        descriptor: row_span(file, s, rows[2], text, 20),
        double_locality: row_span(file, s, rows[0], town + 65, 35),
        dependent_locality: row_span(file, s, rows[0], town + 30, 35),
        town: row_span(file, s, rows[0], town, 30),
        outward: own_span(own, postcode, 4),
        inward: Span {
            first: false,
            at: postcode + 4,
            len: 3,
        },
    }
}
