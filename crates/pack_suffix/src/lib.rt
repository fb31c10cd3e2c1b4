// Delivery point suffixes asked of a pack.
#![tactic(auto)]

pub mod inner;

ghost use Rattle.std.specs.Prelude.{◌≡◌};
ghost use Rattle.pack.specs.Points.{pack_suffix};

use refusal::Answer;

// The suffix of point k, counted from 1, of any bytes: the pack is opened first.
pub fn suffix_of_point(pack: &[u8], k: usize) -> Answer
    ensures { result ≡ pack_suffix pack.now k }
{
    let count = pack_open::open_pack(pack)?;
    inner::suffix_at(pack, count, k)
}
