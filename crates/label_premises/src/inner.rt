// Which row of the table of premises applies, and where its texts stand.
ghost use Rattle.std.specs.Prelude.{◌≡◌};
ghost use Rattle.label.specs.Lines.{is_empty};
ghost use Rattle.label.specs.Put.{front_after};
ghost use Rattle.label.specs.Rows.{shape_of, shape_in, no_text, no_front, lines_at, front_at, lines_for, front_for};
ghost use Rattle.label.specs.Spans.{text_in2};

use field_read::is_numeric_like;
use label::{Front, Lines, Shape, Span, Spans, text_of};

// The row, of the sub building, the building name, whether there is no number, and the concatenation.
fn shape_by(s: &[u8], b: &[u8], z: bool, y: bool) -> Shape
    ensures { result ≡ shape_of s.now b.now z y }
{
    let name = is_numeric_like(b) & z;
    if s.len() == 0 {
        if b.len() == 0 {
            return Shape::Bare;
        }
        if name {
            return Shape::NameFront;
        }
        return Shape::NameLine;
    }
    if b.len() == 0 {
        if y {
            return Shape::SubFront;
        }
        return Shape::SubLine;
    }
    if is_numeric_like(s) {
        if name {
            return Shape::BothFront;
        }
        return Shape::BothLine;
    }
    if name {
        Shape::SubLineNameFront
    } else {
        Shape::TwoLines
    }
}

// The row that applies to elements.
pub fn shape_of<'a>(a: &'a [u8], b: &'a [u8], e: Spans) -> Shape
    ensures { result ≡ shape_in a.now b.now e }
{
    let sub = e.sub_building;
    let building = e.building;
    let s = text_of(a, b, sub);
    let n = text_of(a, b, building);
    shape_by(s, n, e.number == 0, e.concatenation)
}

// The span of no text.
pub fn no_text() -> Span
    ensures { result ≡ no_text }
{
    Span {
        first: true,
        at: 0,
        len: 0,
    }
}

// Nothing to be written before a line.
pub fn no_front() -> Front
    ensures { result ≡ no_front }
{
    let none = no_text();
    Front {
        pending: false,
        number: 0,
        text: none,
        beside: none,
    }
}

fn lines_at(upper: Span, beside: Span, lower: Span) -> Lines
    ensures { result ≡ lines_at upper beside lower }
{
    Lines {
        upper,
        beside,
        lower,
    }
}

fn front_at(number: u16, text: Span, beside: Span) -> Front
    ensures { result ≡ front_at number text beside }
{
    Front {
        pending: true,
        number,
        text,
        beside,
    }
}

// The premises lines of a row.
pub fn lines_of(shape: Shape, e: Spans) -> Lines
    ensures { result ≡ lines_for shape e }
{
    let none = no_text();
    let sub = e.sub_building;
    let name = e.building;
    match shape {
        Shape::Bare => lines_at(none, none, none),
        Shape::NameLine => lines_at(name, none, none),
        Shape::NameFront => lines_at(none, none, none),
        Shape::SubLine => lines_at(sub, none, none),
        Shape::SubFront => lines_at(none, none, none),
        Shape::BothLine => lines_at(sub, name, none),
        Shape::BothFront => lines_at(none, none, none),
        Shape::SubLineNameFront => lines_at(sub, none, none),
        Shape::TwoLines => lines_at(sub, none, name),
    }
}

// The front of a row.
pub fn front_of(shape: Shape, e: Spans) -> Front
    ensures { result ≡ front_for shape e }
{
    let none = no_text();
    let sub = e.sub_building;
    let name = e.building;
    let n = e.number;
    match shape {
        Shape::Bare => front_at(n, none, none),
        Shape::NameLine => front_at(n, none, none),
        Shape::NameFront => front_at(0, name, none),
        Shape::SubLine => front_at(n, none, none),
        Shape::SubFront => front_at(n, sub, none),
        Shape::BothLine => front_at(n, none, none),
        Shape::BothFront => front_at(0, sub, name),
        Shape::SubLineNameFront => front_at(0, name, none),
        Shape::TwoLines => front_at(n, none, none),
    }
}

fn is_absent<'a>(a: &'a [u8], b: &'a [u8], s: Span) -> bool
    ensures { result ≡ is_empty (text_in2 a.now b.now s) }
{
    let t = text_of(a, b, s);
    t.len() == 0
}

// The front after a line of that name: it is pending no more where there was a line.
pub fn front_after<'a>(a: &'a [u8], b: &'a [u8], f: Front, name: Span) -> Front
    ensures { result ≡ front_after f (text_in2 a.now b.now name) }
{
    let mut g = f;
    g.pending = f.pending & is_absent(a, b, name);
    g
}
