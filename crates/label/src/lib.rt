// The label of elements whose texts stand in two lent slices: its definition and laws, and where the texts stand.
#![tactic(auto)]

mod shape;

ghost use Rattle.std.specs.Prelude.{◌≡◌, ◌+◌};
ghost use Rattle.field.specs.Text.{part};
ghost use Rattle.label.specs.Spans.{text_in2};

use field::lesser;
pub use shape::{Front, Lines, Shape};

// Where a text stands: so many bytes at a place of the first slice or of the second.
#[derive(Clone, Copy)]
pub struct Span {
    pub first: bool,
    pub at: usize,
    pub len: u8,
}

// Where the elements of a label stand. A text of no bytes is absent, and so is the number 0.
#[derive(Clone, Copy)]
pub struct Spans {
    pub organisation: Span,
    pub department: Span,
    pub po_box: Span,
    pub sub_building: Span,
    pub building: Span,
    pub number: u16,
    pub concatenation: bool,
    pub dependent: Span,
    pub dependent_descriptor: Span,
    pub thoroughfare: Span,
    pub descriptor: Span,
    pub double_locality: Span,
    pub dependent_locality: Span,
    pub town: Span,
    pub outward: Span,
    pub inward: Span,
}

// So many bytes at a place, as far as there are bytes.
fn bytes_at(x: &[u8], at: usize, len: u8) -> &[u8]
    ensures { result.now ≡ part x.now at (at + len) }
{
    if at < x.len() {
        let n = lesser(len as usize, x.len() - at);
        let end = at + n;
        &x[at..end]
    } else {
        &x[..0]
    }
}

// The text that stands at a span, as a part of its slice.
pub fn text_of<'a>(a: &'a [u8], b: &'a [u8], s: Span) -> &'a [u8]
    ensures { result.now ≡ text_in2 a.now b.now s }
{
    let at = s.at;
    let len = s.len;
    if s.first {
        bytes_at(a, at, len)
    } else {
        bytes_at(b, at, len)
    }
}
