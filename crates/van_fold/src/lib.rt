// Bytes folded for the van printer into a lent buffer. All rows are counted first, so that a refused call writes nothing.
#![tactic(auto)]

pub mod inner;

ghost use Rattle.std.specs.Prelude.{◌≡◌};
ghost use Rattle.refusal.specs.Outcome.{said};
ghost use Rattle.van.specs.Said.{fold_outcome};

use inner::{text_size, write_text};
use refusal::Reason;
use van::{Answer, Refusal};

// "a printer of 6 lines"
const ROWS: usize = 6;

// Folds any bytes.
#[tactic(auto, using(crate::proofs::Folded::refused))]
pub fn fold(text: &[u8], out: &mut [u8]) -> Answer
    ensures { said result out.new ≡ fold_outcome text.now out.old }
{
    let size = text_size(text);
    if ROWS < size.rows {
        return Err(Refusal::TooManyLines);
    }
    let needed = size.bytes;
    if out.len() < needed {
        return Err(Refusal::Lower(Reason::Room { needed }.into()));
    }
    Ok(write_text(text, out))
}
