// The suffix of a point of a pack that is opened.
ghost use Rattle.std.specs.Prelude.{◌≡◌, ◌≤◌};
ghost use Rattle.pack.specs.Opening.{point_count, suffix_in};
ghost use Rattle.pack.specs.Points.{point_place, suffix_number, point_suffix};
ghost use Rattle.pack_points.specs.Ready.{Sized};
ghost use Rattle.refusal.specs.Answer.{refusal};

use pack_read::inner::{number_within, trailer_number};
use pack_read::{PackPoint, PackTrailer, has_suffix, layout_in};
use refusal::{Answer, Reason};

// What stands behind the postcode of point k of a pack that has so many, as one number.
fn suffix_number(pack: &[u8], k: usize) -> usize
    requires { Sized pack.now × ((1 ≤ k) × (k ≤ point_count pack.now)) }
    ensures { result ≡ suffix_number (suffix_in pack.now (point_place pack.now k)) }
{
    let layout = layout_in(pack);
    let start = trailer_number(pack, layout, PackTrailer::START);
    let at = start + layout.point * (k - 1);
    number_within(pack, at + PackPoint::SUFFIX, PackPoint::SUFFIX_WIDTH)
}

fn refused(reason: Reason) -> Answer
    ensures { result ≡ refusal 0 reason }
{
    Err(reason.into())
}

// The suffix of point k, counted from 1, of a pack that has so many points.
pub fn suffix_at(pack: &[u8], count: usize, k: usize) -> Answer
    requires { Sized pack.now × (count ≡ point_count pack.now) }
    ensures { result ≡ point_suffix pack.now k }
{
    let there = (1 <= k) & (k <= count);
    if !there {
        return refused(Reason::NoSuchNumber);
    }
    if !has_suffix(layout_in(pack).edition) {
        return refused(Reason::NoSuffix);
    }
    Ok(suffix_number(pack, k))
}
