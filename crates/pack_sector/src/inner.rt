// How many points a sector has, of a pack that is opened.
ghost use Rattle.std.specs.Prelude.{◌≡◌, ◌<◌};
ghost use Rattle.pack.specs.Sectors.{in_sector};
ghost use Rattle.pack.specs.Opening.{point_digits};
ghost use Rattle.pack.specs.Points.{sector_answer};
ghost use Rattle.pack_sector.specs.Opening.{Opening};

use pack_counts::inner::{count_digits, count_said};
use pack_read::inner::trailer_number;
use pack_read::{PackTrailer, has_counts, layout_in};
use refusal::{Answer, Reason};

// From the trailer, where it has counts, else by a walk over the points.
fn sector_count(pack: &[u8], count: usize, digit: usize) -> usize
    requires { Opening pack.now count × (digit < 10) }
    ensures { result ≡ in_sector digit (point_digits pack.now) }
{
    let layout = layout_in(pack);
    if has_counts(layout.edition) {
        return count_said(pack, layout, digit);
    }
    let start = trailer_number(pack, layout, PackTrailer::START);
    let counts = count_digits(pack, start, layout.point, count);
    let of_digits = counts.of_digits;
    of_digits[digit]
}

// How many of so many points have this inward digit, where it is one.
pub fn sector_of(pack: &[u8], count: usize, digit: usize) -> Answer
    requires { Opening pack.now count }
    ensures { result ≡ sector_answer (point_digits pack.now) digit }
{
    if 9 < digit {
        return Err(Reason::BadDigit.into());
    }
    Ok(sector_count(pack, count, digit))
}
