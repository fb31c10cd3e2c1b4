// How many bytes a row has.
ghost use Rattle.std.specs.Prelude.{◌≡◌, ◌≤◌, length};
ghost use Rattle.label.specs.Lines.{street};
ghost use Rattle.label.specs.Spans.{text_in2};
ghost use Rattle.csv_write.specs.Pieces.{places_in, premises_in, RowSize};

use label::{Span, Spans};
use label_length::inner::{number_len, tail_len, text_len};

// A name with its descriptor.
pub fn street_len<'a>(a: &'a [u8], b: &'a [u8], name: Span, descriptor: Span) -> usize
    ensures { (result ≡ length (street (text_in2 a.now b.now name)
        (text_in2 a.now b.now descriptor))) × (result ≤ 511) }
{
    let n = text_len(a, b, name);
    n + tail_len(a, b, descriptor)
}

// Postcode, localities and thoroughfares, with a comma behind each.
fn places_len<'a>(a: &'a [u8], b: &'a [u8], e: Spans) -> usize
    ensures { (result ≡ length (places_in a.now b.now e)) × (result ≤ 2304) }
{
    let outward = text_len(a, b, e.outward);
    let inward = text_len(a, b, e.inward);
    let town = text_len(a, b, e.town);
    let dependent = text_len(a, b, e.dependent_locality);
    let double = text_len(a, b, e.double_locality);
    let street = street_len(a, b, e.thoroughfare, e.descriptor);
    let beside = street_len(a, b, e.dependent, e.dependent_descriptor);
    outward + inward + town + dependent + double + street + beside + 7
}

// Number, names, PO box and organisation, with a comma behind each.
fn premises_len<'a>(a: &'a [u8], b: &'a [u8], e: Spans) -> usize
    ensures { (result ≡ length (premises_in a.now b.now e)) × (result ≤ 1285) }
{
    let number = number_len(e.number);
    let building = text_len(a, b, e.building);
    let sub_building = text_len(a, b, e.sub_building);
    let po_box = text_len(a, b, e.po_box);
    let department = text_len(a, b, e.department);
    let organisation = text_len(a, b, e.organisation);
    number + building + sub_building + po_box + department + organisation + 6
}

// The whole row, whose ending has nine bytes.
pub fn row_len<'a>(a: &'a [u8], b: &'a [u8], e: Spans) -> usize
    ensures { RowSize a.now b.now e result }
{
    let i = places_len(a, b, e);
    i + premises_len(a, b, e) + 9
}
