// The printing of a label into a lent buffer.
#![tactic(auto)]

ghost use Rattle.std.specs.Prelude.{◌≡◌, ◌≤◌, ◌<◌, length};
ghost use Rattle.refusal.specs.Outcome.{said};
ghost use Rattle.label.specs.Label.{label_of, room_outcome};
ghost use Rattle.label.specs.Spans.{elements_in};

use label::Spans;
use label_length::label_len;
use label_lines::inner::write_label;
use refusal::{Answer, Reason};

// So many bytes hold any label: none of its 14 spans says more than 255.
const AMPLE: usize = 4096;

// How many bytes the label needs of a buffer of so many. Where that holds any label it is not measured: 0.
fn needed_of<'a>(a: &'a [u8], b: &'a [u8], e: Spans, room: usize) -> usize
    ensures { (result ≤ room → length (label_of (elements_in a.now b.now e)) ≤ room)
        × (room < result → result ≡ length (label_of (elements_in a.now b.now e))) }
{
    if room < AMPLE {
        return label_len(a, b, e);
    }
    0
}

// Prints the label, or refuses and writes nothing: that there is room is known before the first byte is written.
pub fn print_label<'a>(a: &'a [u8], b: &'a [u8], e: Spans, out: &mut [u8]) -> Answer
    ensures { said result out.new
        ≡ room_outcome (label_of (elements_in a.now b.now e)) out.old }
{
    let needed = needed_of(a, b, e, out.len());
    if out.len() < needed {
        return Err(Reason::Room { needed }.into());
    }
    Ok(write_label(a, b, e, out))
}
