// The fields of a row, written at a place of a lent buffer. All else stays as it was.
ghost use Rattle.std.specs.Prelude.{◌≡◌, ◌+◌, ◌≤◌, length};
ghost use Rattle.label.specs.Put.{Wrote, Put};
ghost use Rattle.csv_paf.specs.Row.{indicator_mark};
ghost use Rattle.csv_write.specs.Pieces.{number_field, ending_text, field_in, street_in, postcode_in, places_in, premises_in, row_in};

use crate::Ending;
use label::{Span, Spans};
use label_pieces::inner::{byte_at, bytes_at, number_at, tail_at, text_at};

// A text and a comma.
fn field_at<'a>(a: &'a [u8], b: &'a [u8], s: Span, at: usize, out: &mut [u8]) -> usize
    requires { at + length (field_in a.now b.now s) ≤ length out.old }
    ensures { Put (field_in a.now b.now s) out.old at result out.new }
{
    let i = text_at(a, b, s, at, out);
    byte_at(b',', i, out)
}

// A name with its descriptor and a comma.
fn street_at<'a>(
    a: &'a [u8],
    b: &'a [u8],
    name: Span,
    descriptor: Span,
    at: usize,
    out: &mut [u8],
) -> usize
    requires { at + length (street_in a.now b.now name descriptor) ≤ length out.old }
    ensures { Put (street_in a.now b.now name descriptor) out.old at result
        out.new }
{
    let i = text_at(a, b, name, at, out);
    let j = tail_at(a, b, descriptor, i, out);
    byte_at(b',', j, out)
}

// Outward code, space, inward code and a comma.
fn postcode_at<'a>(
    a: &'a [u8],
    b: &'a [u8],
    outward: Span,
    inward: Span,
    at: usize,
    out: &mut [u8],
) -> usize
    requires { at + length (postcode_in a.now b.now outward inward) ≤ length out.old }
    ensures { Put (postcode_in a.now b.now outward inward) out.old at result
        out.new }
{
    let i = text_at(a, b, outward, at, out);
    let j = byte_at(b' ', i, out);
    field_at(a, b, inward, j, out)
}

// The number and a comma.
fn number_field_at(n: u16, at: usize, out: &mut [u8]) -> usize
    requires { at + length (number_field n) ≤ length out.old }
    ensures { Put (number_field n) out.old at result out.new }
{
    let i = number_at(n, at, out);
    byte_at(b',', i, out)
}

// Postcode, localities and thoroughfares.
fn places_at<'a>(a: &'a [u8], b: &'a [u8], e: Spans, at: usize, out: &mut [u8]) -> usize
    requires { at + length (places_in a.now b.now e) ≤ length out.old }
    ensures { Put (places_in a.now b.now e) out.old at result out.new }
{
    let i = postcode_at(a, b, e.outward, e.inward, at, out);
    let j = field_at(a, b, e.town, i, out);
    let k = field_at(a, b, e.dependent_locality, j, out);
    let l = field_at(a, b, e.double_locality, k, out);
    let m = street_at(a, b, e.thoroughfare, e.descriptor, l, out);
    street_at(a, b, e.dependent, e.dependent_descriptor, m, out)
}

// Number, names, PO box and organisation.
fn premises_at<'a>(a: &'a [u8], b: &'a [u8], e: Spans, at: usize, out: &mut [u8]) -> usize
    requires { at + length (premises_in a.now b.now e) ≤ length out.old }
    ensures { Put (premises_in a.now b.now e) out.old at result out.new }
{
    let i = number_field_at(e.number, at, out);
    let j = field_at(a, b, e.building, i, out);
    let k = field_at(a, b, e.sub_building, j, out);
    let l = field_at(a, b, e.po_box, k, out);
    let m = field_at(a, b, e.department, l, out);
    field_at(a, b, e.organisation, m, out)
}

fn mark_of(indicator: bool) -> u8
    ensures { result ≡ indicator_mark indicator }
{
    if indicator { b'Y' } else { b' ' }
}

// No UDPRN, type, indicator, suffix and the end.
fn ending_at(x: Ending, at: usize, out: &mut [u8]) -> usize
    requires { at + length (ending_text x) ≤ length out.old }
    ensures { Put (ending_text x) out.old at result out.new }
{
    let mark = mark_of(x.indicator);
    let ending = [b',', x.kind, b',', mark, b',', x.digit, x.letter, 13, 10];
    bytes_at(&ending, at, out)
}

// The whole row, where there is room for it.
pub fn write_row<'a>(a: &'a [u8], b: &'a [u8], e: Spans, x: Ending, out: &mut [u8]) -> usize
    requires { length (row_in a.now b.now e x) ≤ length out.old }
    ensures { Wrote (row_in a.now b.now e x) out.old result out.new }
{
    let i = places_at(a, b, e, 0, out);
    let j = premises_at(a, b, e, i, out);
    ending_at(x, j, out)
}
