// How many bytes the pieces and the lines of a label have.
ghost use Rattle.std.specs.Prelude.{◌≡◌, ◌≤◌, length};
ghost use Rattle.label.specs.Lines.{number_text};
ghost use Rattle.label.specs.Put.{tail_in, front_text, lead_in, line_in, box_in, pair_in, place_in, head_in, premises_in, localities_in, places_in};
ghost use Rattle.label.specs.Spans.{text_in2};

use label::{Front, Lines, Span, Spans, text_of};
use label_premises::inner::{front_after, no_front, no_text};

pub fn text_len<'a>(a: &'a [u8], b: &'a [u8], s: Span) -> usize
    ensures { (result ≡ length (text_in2 a.now b.now s)) × (result ≤ 255) }
{
    let t = text_of(a, b, s);
    t.len()
}

// A space and the text, where there is one.
pub fn tail_len<'a>(a: &'a [u8], b: &'a [u8], s: Span) -> usize
    ensures { (result ≡ length (tail_in a.now b.now s)) × (result ≤ 256) }
{
    let n = text_len(a, b, s);
    if n == 0 { 0 } else { n + 1 }
}

pub fn number_len(n: u16) -> usize
    ensures { (result ≡ length (number_text n)) × (result ≤ 4) }
{
    if n == 0 {
        return 0;
    }
    if n < 10 {
        return 1;
    }
    if n < 100 {
        return 2;
    }
    if n < 1000 { 3 } else { 4 }
}

pub fn front_len<'a>(a: &'a [u8], b: &'a [u8], f: Front) -> usize
    ensures { (result ≡ length (front_text a.now b.now f)) × (result ≤ 515) }
{
    let text = f.text;
    let beside = f.beside;
    let n = number_len(f.number);
    let m = text_len(a, b, text);
    n + m + tail_len(a, b, beside)
}

// A front and a space after it, where it is pending and there is one.
fn lead_len<'a>(a: &'a [u8], b: &'a [u8], f: Front) -> usize
    ensures { (result ≡ length (lead_in a.now b.now f)) × (result ≤ 516) }
{
    if f.pending {
        let n = front_len(a, b, f);
        if n == 0 {
            return 0;
        }
        return n + 1;
    }
    0
}

// A line of one text, or none.
fn line_len<'a>(a: &'a [u8], b: &'a [u8], s: Span) -> usize
    ensures { (result ≡ length (line_in a.now b.now s)) × (result ≤ 256) }
{
    let n = text_len(a, b, s);
    if n == 0 { 0 } else { n + 1 }
}

fn box_len<'a>(a: &'a [u8], b: &'a [u8], s: Span) -> usize
    ensures { (result ≡ length (box_in a.now b.now s)) × (result ≤ 263) }
{
    let n = text_len(a, b, s);
    if n == 0 { 0 } else { n + 8 }
}

// A line of two texts with a space between.
pub fn pair_len<'a>(a: &'a [u8], b: &'a [u8], s: Span, t: Span) -> usize
    ensures { (result ≡ length (pair_in a.now b.now s t)) × (result ≤ 512) }
{
    let n = text_len(a, b, s);
    n + text_len(a, b, t) + 2
}

// A place behind what is before it, or no line.
fn place_len<'a>(a: &'a [u8], b: &'a [u8], f: Front, name: Span, tail: Span) -> usize
    ensures { (result ≡ length (place_in a.now b.now f name tail)) × (result ≤ 1028) }
{
    let n = text_len(a, b, name);
    if n == 0 {
        return 0;
    }
    let m = lead_len(a, b, f);
    n + m + tail_len(a, b, tail) + 1
}

// Organisation, department and PO box.
pub fn head_len<'a>(a: &'a [u8], b: &'a [u8], e: Spans) -> usize
    ensures { (result ≡ length (head_in a.now b.now e)) × (result ≤ 775) }
{
    let organisation = e.organisation;
    let department = e.department;
    let po_box = e.po_box;
    let i = line_len(a, b, organisation);
    let j = line_len(a, b, department);
    i + j + box_len(a, b, po_box)
}

// The premises lines.
pub fn premises_len<'a>(a: &'a [u8], b: &'a [u8], l: Lines) -> usize
    ensures { (result ≡ length (premises_in a.now b.now l)) × (result ≤ 1284) }
{
    let upper = l.upper;
    let beside = l.beside;
    let lower = l.lower;
    let none = no_front();
    let i = place_len(a, b, none, upper, beside);
    i + line_len(a, b, lower)
}

// Double dependent locality, dependent locality and post town.
fn localities_len<'a>(a: &'a [u8], b: &'a [u8], f: Front, e: Spans) -> usize
    ensures { (result ≡ length (localities_in a.now b.now f e)) × (result ≤ 3084) }
{
    let double = e.double_locality;
    let dependent = e.dependent_locality;
    let town = e.town;
    let none = no_text();
    let g = front_after(a, b, f, double);
    let h = front_after(a, b, g, dependent);
    let i = place_len(a, b, f, double, none);
    let j = place_len(a, b, g, dependent, none);
    i + j + place_len(a, b, h, town, none)
}

// The lines from dependent thoroughfare to post town.
pub fn places_len<'a>(a: &'a [u8], b: &'a [u8], f: Front, e: Spans) -> usize
    ensures { (result ≡ length (places_in a.now b.now f e)) × (result ≤ 5140) }
{
    let dependent = e.dependent;
    let beside = e.dependent_descriptor;
    let name = e.thoroughfare;
    let descriptor = e.descriptor;
    let g = front_after(a, b, f, dependent);
    let h = front_after(a, b, g, name);
    let i = place_len(a, b, f, dependent, beside);
    let j = place_len(a, b, g, name, descriptor);
    i + j + localities_len(a, b, h, e)
}
