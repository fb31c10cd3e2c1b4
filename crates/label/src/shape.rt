// The rows of the table of premises, and what each puts where.
use crate::Span;

// How sub building, building name and number stand on a label.
#[derive(Clone, Copy)]
pub enum Shape {
    Bare,
    NameLine,
    NameFront,
    SubLine,
    SubFront,
    BothLine,
    BothFront,
    SubLineNameFront,
    TwoLines,
}

// The premises lines: one of a text with another beside it, and one below.
#[derive(Clone, Copy)]
pub struct Lines {
    pub upper: Span,
    pub beside: Span,
    pub lower: Span,
}

// The front: the number, a text at once after it, another after a space; and whether it is still to be written.
#[derive(Clone, Copy)]
pub struct Front {
    pub pending: bool,
    pub number: u16,
    pub text: Span,
    pub beside: Span,
}
