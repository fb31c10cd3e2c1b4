// What is asked for labels one by one: who asks knows that its next one has a number.
ghost use Rattle.std.specs.Prelude.{◌≡◌, ℕ, ◌≤◌, length, IfOk};
ghost use Rattle.refusal.specs.Outcome.{said};
ghost use Rattle.run.specs.Series.{Asking, run_from};
ghost use Rattle.run_in_turn.specs.Turns.{GoesOn};

use refusal::Answer;
use run::{Run, Series};

// What is asked for labels one by one, and knows by itself which is the next.
pub trait InTurn {
    // What the label of a number comes to.
    ghost asking: { Self → Asking };

    // Whether the label of a number is the next.
    ghost is_next: { Self → ℕ → Type 0 };

    // The next label; where it is written, the one behind it is the next.
    fn ask_next(&mut self, out: &mut [u8]) -> Answer
        requires { (k : ℕ) × is_next self.old k }
        ensures asked { (k : ℕ) → is_next self.old k
            → said result out.new ≡ asking self.old k out.old }
        ensures fits { IfOk result (λ b. b ≤ length out.old) }
        ensures goes_on { IfOk result (λ b. (k : ℕ) → is_next self.old k
            → GoesOn asking is_next self.old self.new k) };
}

// So many labels from the next on, each behind the bytes of those before, up to the first that is refused.
pub fn in_turn<T: InTurn>(turns: &mut T, count: usize, out: &mut [u8]) -> Series
    requires { (k : ℕ) × T.is_next turns.old k }
    ensures { (k : ℕ) → T.is_next turns.old k
        → said result out.new ≡ run_from (T.asking turns.old) k count out.old }
{
    let mut at = 0;
    for done in 0..count {
        match turns.ask_next(&mut out[at..]) {
            Ok(bytes) => {
                at += bytes;
            }
            Err(refused) => {
                return Ok(Run::Stopped {
                    labels: done,
                    bytes: at,
                    reason: refused.reason,
                });
            }
        }
    }
    Ok(Run::Done {
        labels: count,
        bytes: at,
    })
}
