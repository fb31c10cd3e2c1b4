// How many points a sector of a pack has.
#![tactic(auto)]

pub mod inner;

ghost use Rattle.std.specs.Prelude.{◌≡◌};
ghost use Rattle.pack.specs.Points.{pack_sector};

use refusal::Answer;

// How many points have this inward digit, of any bytes: the pack is opened first.
pub fn points_in_sector(pack: &[u8], digit: usize) -> Answer
    ensures { result ≡ pack_sector pack.now digit }
{
    let count = pack_open::open_pack(pack)?;
    inner::sector_of(pack, count, digit)
}
