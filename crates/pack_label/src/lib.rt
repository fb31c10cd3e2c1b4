// Labels asked of a pack.
#![tactic(auto)]

pub mod inner;
mod spans;

ghost use Rattle.std.specs.Prelude.{◌≡◌};
ghost use Rattle.refusal.specs.Outcome.{said};
ghost use Rattle.pack.specs.Points.{pack_label};

use refusal::Answer;

// The label of point k, counted from 1, of any bytes: the pack is opened first.
pub fn label_of_point<'a>(pack: &'a [u8], k: usize, out: &mut [u8]) -> Answer
    ensures { said result out.new ≡ pack_label pack.now k out.old }
{
    let count = pack_open::open_pack(pack)?;
    inner::label_at(pack, count, k, out)
}
