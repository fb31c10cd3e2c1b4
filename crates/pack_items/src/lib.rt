// Listings of a pack: each point's line, then its label.
#![tactic(auto)]

mod points;

ghost use Rattle.std.specs.Prelude.{◌≡◌};
ghost use Rattle.refusal.specs.Outcome.{said};
ghost use Rattle.pack_items.specs.Lists.{pack_list};

use points::list_points;
use run::Series;

// So many points from one on, of any bytes: the pack is opened first, once.
pub fn list_of_points<'a>(pack: &'a [u8], first: usize, count: usize, out: &mut [u8]) -> Series
    ensures { said result out.new ≡ pack_list pack.now first count out.old }
{
    let points = pack_open::open_pack(pack)?;
    list_points(pack, points, first, count, out)
}
