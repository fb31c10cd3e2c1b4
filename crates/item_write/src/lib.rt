// The lines that stand between the labels of a listing, each in a buffer of its own, and an item put together.
#![tactic(auto)]

pub mod inner;
mod pieces;

ghost use Rattle.item.specs.Lines.{spaced_number, view_line, point_line, refused_line};
ghost use Rattle.item_write.specs.Line.{Holds};

use pieces::{point_at, refused_at, spaced_at, view_at};
use refusal::Reason;

// A line, in the front of its buffer: none is longer than that.
#[derive(Clone, Copy)]
pub struct Line {
    pub bytes: [u8; 80],
    pub len: usize,
}

// A space and a number.
pub fn number_line(n: usize) -> Line
    ensures { Holds result (spaced_number n) }
{
    let mut bytes = [0u8; 80];
    let len = spaced_at(n, 0, &mut bytes);
    Line { bytes, len }
}

// `view`, number, letter.
pub fn view_line(view: usize, letter: u8) -> Line
    ensures { Holds result (view_line view letter) }
{
    let mut bytes = [0u8; 80];
    let len = view_at(view, letter, 0, &mut bytes);
    Line { bytes, len }
}

// `point`, number.
pub fn point_line(k: usize) -> Line
    ensures { Holds result (point_line k) }
{
    let mut bytes = [0u8; 80];
    let len = point_at(k, 0, &mut bytes);
    Line { bytes, len }
}

// `refused`, number, detail, and the byte where a record is malformed.
pub fn refused_line(reason: Reason) -> Line
    ensures { Holds result (refused_line reason) }
{
    let number = refusal::number_of(reason);
    let detail = refusal::detail_of(reason);
    let second = refusal::second_of(reason);
    let mut bytes = [0u8; 80];
    let len = refused_at(number, detail, second, 0, &mut bytes);
    Line { bytes, len }
}
