// How many bytes a label has.
#![tactic(auto)]

pub mod inner;

ghost use Rattle.std.specs.Prelude.{◌≡◌, length};
ghost use Rattle.label.specs.Label.{label_of};
ghost use Rattle.label.specs.Spans.{elements_in};

use inner::{head_len, pair_len, places_len, premises_len};
use label::Spans;
use label_premises::inner::{front_of, lines_of, shape_of};

// How many bytes the label has.
pub fn label_len<'a>(a: &'a [u8], b: &'a [u8], e: Spans) -> usize
    ensures { result ≡ length (label_of (elements_in a.now b.now e)) }
{
    let shape = shape_of(a, b, e);
    let lines = lines_of(shape, e);
    let front = front_of(shape, e);
    let outward = e.outward;
    let inward = e.inward;
    let i = head_len(a, b, e);
    let j = premises_len(a, b, lines);
    let k = places_len(a, b, front, e);
    i + j + k + pair_len(a, b, outward, inward)
}
