// The label of a point of a pack that is opened.
ghost use Rattle.std.specs.Prelude.{◌≡◌, ◌≤◌};
ghost use Rattle.refusal.specs.Outcome.{said};
ghost use Rattle.label.specs.Label.{label_of, room_outcome};
ghost use Rattle.pack.specs.Opening.{point_count};
ghost use Rattle.pack.specs.Points.{elements_at, point_place, point_label};
ghost use Rattle.pack_points.specs.Ready.{Sized};

use crate::spans::spans_at;
use pack_read::inner::trailer_number;
use pack_read::{PackTrailer, layout_in};
use refusal::{Answer, Reason};

// The label of point k of a pack that has so many.
fn point_label<'a>(pack: &'a [u8], k: usize, out: &mut [u8]) -> Answer
    requires { Sized pack.now × ((1 ≤ k) × (k ≤ point_count pack.now)) }
    ensures { said result out.new ≡ room_outcome
        (label_of (elements_at pack.now (point_place pack.now k))) out.old }
{
    let layout = layout_in(pack);
    let start = trailer_number(pack, layout, PackTrailer::START);
    let at = start + layout.point * (k - 1);
    let rows = &pack[..start];
    label_print::print_label(rows, pack, spans_at(pack, rows, at, at + layout.rest), out)
}

// The label of point k, counted from 1, of a pack that has so many points.
pub fn label_at<'a>(pack: &'a [u8], count: usize, k: usize, out: &mut [u8]) -> Answer
    requires { Sized pack.now × (count ≡ point_count pack.now) }
    ensures { said result out.new ≡ point_label pack.now k out.old }
{
    let there = (1 <= k) & (k <= count);
    if !there {
        return Err(Reason::NoSuchNumber.into());
    }
    point_label(pack, k, out)
}
