// The label, line by line: each line writer is lent what is left of the buffer, writes one line and its end byte, or
// none, and leaves the rest as it was.
ghost use Rattle.std.specs.Prelude.{◌≡◌, ◌++◌, ◌+◌, ◌≤◌, length, drop};
ghost use Rattle.label.specs.Label.{label_of};
ghost use Rattle.label.specs.Put.{Wrote, Put, line_in, box_in, pair_in, place_in, head_in, premises_in, localities_in, places_in};
ghost use Rattle.label.specs.Spans.{elements_in};

use label::{Front, Lines, Span, Spans};
use label_length::inner::text_len;
use label_pieces::inner::{byte_at, bytes_at, lead_at, tail_at, text_at};
use label_premises::inner::{front_after, front_of, lines_of, no_front, no_text, shape_of};

// A line of one text.
fn put_line<'a>(a: &'a [u8], b: &'a [u8], s: Span, out: &mut [u8]) -> usize
    requires { length (line_in a.now b.now s) ≤ length out.old }
    ensures { Wrote (line_in a.now b.now s) out.old result out.new }
{
    if text_len(a, b, s) == 0 {
        return 0;
    }
    let i = text_at(a, b, s, 0, out);
    byte_at(10, i, out)
}

// `PO BOX ` and the box.
fn put_box<'a>(a: &'a [u8], b: &'a [u8], s: Span, out: &mut [u8]) -> usize
    requires { length (box_in a.now b.now s) ≤ length out.old }
    ensures { Wrote (box_in a.now b.now s) out.old result out.new }
{
    if text_len(a, b, s) == 0 {
        return 0;
    }
    let i = bytes_at(b"PO BOX ", 0, out);
    let j = text_at(a, b, s, i, out);
    byte_at(10, j, out)
}

// Two texts with a space between.
fn put_pair<'a>(a: &'a [u8], b: &'a [u8], s: Span, t: Span, out: &mut [u8]) -> usize
    requires { length (pair_in a.now b.now s t) ≤ length out.old }
    ensures { Wrote (pair_in a.now b.now s t) out.old result out.new }
{
    let i = text_at(a, b, s, 0, out);
    let j = byte_at(32, i, out);
    let k = text_at(a, b, t, j, out);
    byte_at(10, k, out)
}

// A place behind what is before it.
fn put_place<'a>(
    a: &'a [u8],
    b: &'a [u8],
    f: Front,
    name: Span,
    tail: Span,
    out: &mut [u8],
) -> usize
    requires { length (place_in a.now b.now f name tail) ≤ length out.old }
    ensures { Wrote (place_in a.now b.now f name tail) out.old result
        out.new }
{
    if text_len(a, b, name) == 0 {
        return 0;
    }
    let i = lead_at(a, b, f, 0, out);
    let j = text_at(a, b, name, i, out);
    let k = tail_at(a, b, tail, j, out);
    byte_at(10, k, out)
}

// The line writers at a place: each is lent what is left of the buffer from there.
fn line_at<'a>(a: &'a [u8], b: &'a [u8], s: Span, at: usize, out: &mut [u8]) -> usize
    requires { at + length (line_in a.now b.now s) ≤ length out.old }
    ensures { Put (line_in a.now b.now s) out.old at result out.new }
{
    at + put_line(a, b, s, &mut out[at..])
}

fn box_at<'a>(a: &'a [u8], b: &'a [u8], s: Span, at: usize, out: &mut [u8]) -> usize
    requires { at + length (box_in a.now b.now s) ≤ length out.old }
    ensures { Put (box_in a.now b.now s) out.old at result out.new }
{
    at + put_box(a, b, s, &mut out[at..])
}

fn pair_at<'a>(a: &'a [u8], b: &'a [u8], s: Span, t: Span, at: usize, out: &mut [u8]) -> usize
    requires { at + length (pair_in a.now b.now s t) ≤ length out.old }
    ensures { Put (pair_in a.now b.now s t) out.old at result out.new }
{
    at + put_pair(a, b, s, t, &mut out[at..])
}

fn place_at<'a>(
    a: &'a [u8],
    b: &'a [u8],
    f: Front,
    name: Span,
    tail: Span,
    at: usize,
    out: &mut [u8],
) -> usize
    requires { at + length (place_in a.now b.now f name tail) ≤ length out.old }
    ensures { Put (place_in a.now b.now f name tail) out.old at result
        out.new }
{
    at + put_place(a, b, f, name, tail, &mut out[at..])
}

// Organisation, department and PO box.
fn head_at<'a>(a: &'a [u8], b: &'a [u8], e: Spans, at: usize, out: &mut [u8]) -> usize
    requires { at + length (head_in a.now b.now e) ≤ length out.old }
    ensures { Put (head_in a.now b.now e) out.old at result out.new }
{
    let organisation = e.organisation;
    let department = e.department;
    let po_box = e.po_box;
    let i = line_at(a, b, organisation, at, out);
    let j = line_at(a, b, department, i, out);
    box_at(a, b, po_box, j, out)
}

// The premises lines.
fn premises_at<'a>(a: &'a [u8], b: &'a [u8], l: Lines, at: usize, out: &mut [u8]) -> usize
    requires { at + length (premises_in a.now b.now l) ≤ length out.old }
    ensures { Put (premises_in a.now b.now l) out.old at result out.new }
{
    let upper = l.upper;
    let beside = l.beside;
    let lower = l.lower;
    let none = no_front();
    let i = place_at(a, b, none, upper, beside, at, out);
    line_at(a, b, lower, i, out)
}

// Double dependent locality, dependent locality and post town.
fn localities_at<'a>(
    a: &'a [u8],
    b: &'a [u8],
    f: Front,
    e: Spans,
    at: usize,
    out: &mut [u8],
) -> usize
    requires { at + length (localities_in a.now b.now f e) ≤ length out.old }
    ensures { Put (localities_in a.now b.now f e) out.old at result
        out.new }
{
    let double = e.double_locality;
    let dependent = e.dependent_locality;
    let town = e.town;
    let none = no_text();
    let g = front_after(a, b, f, double);
    let h = front_after(a, b, g, dependent);
    let i = place_at(a, b, f, double, none, at, out);
    let j = place_at(a, b, g, dependent, none, i, out);
    place_at(a, b, h, town, none, j, out)
}

// The lines from dependent thoroughfare to post town.
fn places_at<'a>(a: &'a [u8], b: &'a [u8], f: Front, e: Spans, at: usize, out: &mut [u8]) -> usize
    requires { at + length (places_in a.now b.now f e) ≤ length out.old }
    ensures { Put (places_in a.now b.now f e) out.old at result out.new }
{
    let dependent = e.dependent;
    let beside = e.dependent_descriptor;
    let name = e.thoroughfare;
    let descriptor = e.descriptor;
    let g = front_after(a, b, f, dependent);
    let h = front_after(a, b, g, name);
    let i = place_at(a, b, f, dependent, beside, at, out);
    let j = place_at(a, b, g, name, descriptor, i, out);
    localities_at(a, b, h, e, j, out)
}

// The whole label, where there is room for it.
pub fn write_label<'a>(a: &'a [u8], b: &'a [u8], e: Spans, out: &mut [u8]) -> usize
    requires { length (label_of (elements_in a.now b.now e)) ≤ length out.old }
    ensures { (result ≡ length (label_of (elements_in a.now b.now e)))
        × (out.new ≡ label_of (elements_in a.now b.now e) ++ drop
        (length (label_of (elements_in a.now b.now e))) out.old) }
{
    let shape = shape_of(a, b, e);
    let lines = lines_of(shape, e);
    let front = front_of(shape, e);
    let outward = e.outward;
    let inward = e.inward;
    let i = head_at(a, b, e, 0, out);
    let j = premises_at(a, b, lines, i, out);
    let k = places_at(a, b, front, e, j, out);
    pair_at(a, b, outward, inward, k, out)
}
