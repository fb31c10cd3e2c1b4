// A row of CSV PAF, written into a lent buffer.
#![tactic(auto)]

mod carried;
mod fields;
pub mod inner;
mod length;

ghost use Rattle.std.specs.Prelude.{◌≡◌};
ghost use Rattle.refusal.specs.Outcome.{said};
ghost use Rattle.label.specs.Spans.{elements_in};
ghost use Rattle.csv_write.specs.Pieces.{RowNeeds};
ghost use Rattle.csv_write.specs.Ending.{written_by};

use carried::is_carried;
use fields::write_row;
use label::Spans;
use length::row_len;
use refusal::{Answer, Reason};

// What a row says beside the texts and the number: the postcode type, the small user organisation indicator and the two
// bytes of the delivery point suffix.
#[derive(Clone, Copy)]
pub struct Ending {
    pub kind: u8,
    pub indicator: bool,
    pub digit: u8,
    pub letter: u8,
}

// So many bytes hold any row: none of its 14 spans says more than 255.
const AMPLE: usize = 4096;

// How many bytes the row needs of a buffer of so many. Where that holds any row it is not measured: 0.
fn needed_of<'a>(a: &'a [u8], b: &'a [u8], e: Spans, room: usize) -> usize
    ensures { RowNeeds a.now b.now e room result }
{
    if room < AMPLE {
        return row_len(a, b, e);
    }
    0
}

// Writes the row, or refuses and writes nothing: 15 first, and that there is room is known before the first byte is
// written.
pub fn print_row<'a>(a: &'a [u8], b: &'a [u8], e: Spans, x: Ending, out: &mut [u8]) -> Answer
    ensures { said result out.new
        ≡ written_by x (elements_in a.now b.now e) out.old }
{
    if is_carried(a, b, e) {
        let needed = needed_of(a, b, e, out.len());
        if out.len() < needed {
            return Err(Reason::Room { needed }.into());
        }
        return Ok(write_row(a, b, e, x, out));
    }
    Err(Reason::Uncarried.into())
}
