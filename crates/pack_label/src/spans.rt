// Where the elements of a point stand in its pack: the texts of rows in the row area, the rest in the pack.
ghost use Rattle.std.specs.Prelude.{◌≡◌, List, ℕ, ◌+◌, ◌≤◌};
ghost use Rattle.field.specs.Text.{text_in};
ghost use Rattle.label.specs.Spans.{text_in2, elements_in};
ghost use Rattle.pack.specs.Opening.{row_area};
ghost use Rattle.pack.specs.Points.{offset_text, elements_from};
ghost use Rattle.pack_read.specs.Laid.{PostcodeIn, RestIn};

use label::{Span, Spans};
use pack_read::PackPoint;
use pack_read::inner::{number_at, offset_of, text_place};

// The n-th text of the row that the i-th offset of a rest gives; no bytes where it is absent.
fn offset_span(pack: &[u8], rows: &[u8], rest: usize, i: usize, n: usize) -> Span
    requires { RestIn pack.now rest × ((i ≤ 7) × ((n ≤ 2) × (rows.now ≡ row_area pack.now))) }
    ensures { text_in2 rows.now pack.now result ≡ offset_text pack.now rest i n }
{
    let o = offset_of(pack, rest, i);
    if o == PackPoint::ABSENT {
        return Span {
            first: true,
            at: 0,
            len: 0,
        };
    }
    let place = text_place(rows, o + 1, n);
    Span {
        first: true,
        at: place + 1,
        len: file_record::byte_of(rows, place),
    }
}

// A padded field of the pack.
fn field_span(pack: &[u8], from: usize, to: usize) -> Span
    requires { to ≤ from + 255 }
    ensures { (rows : List ℕ) → text_in2 rows pack.now result ≡ text_in pack.now from to }
{
    let text = field_read::read_text(pack, from, to);
    Span {
        first: false,
        at: from,
        len: text.len() as u8,
    }
}

// Where the elements of the point at a place stand, its rest starting at another.
pub fn spans_at(pack: &[u8], rows: &[u8], at: usize, rest: usize) -> Spans
    requires { PostcodeIn pack.now at × (RestIn pack.now rest × (rows.now ≡ row_area pack.now)) }
    ensures { elements_in rows.now pack.now result ≡ elements_from pack.now at rest }
{
    Spans {
        organisation: offset_span(pack, rows, rest, 7, 0),
        department: offset_span(pack, rows, rest, 7, 1),
        po_box: field_span(pack, rest + PackPoint::PO_BOX, rest + PackPoint::OFFSETS),
        sub_building: offset_span(pack, rows, rest, 6, 0),
        building: offset_span(pack, rows, rest, 5, 0),
        number: number_at(pack, rest + PackPoint::NUMBER, 2) as u16,
        concatenation: file_record::byte_of(pack, rest + PackPoint::CONCATENATION) == b'Y',
        dependent: offset_span(pack, rows, rest, 3, 0),
        dependent_descriptor: offset_span(pack, rows, rest, 4, 0),
        thoroughfare: offset_span(pack, rows, rest, 1, 0),
        descriptor: offset_span(pack, rows, rest, 2, 0),
        double_locality: offset_span(pack, rows, rest, 0, 2),
        dependent_locality: offset_span(pack, rows, rest, 0, 1),
        town: offset_span(pack, rows, rest, 0, 0),
        outward: field_span(pack, at, at + PackPoint::INWARD),
        inward: Span {
            first: false,
            at: at + PackPoint::INWARD,
            len: 3,
        },
    }
}
