// Runs of labels of a pack.
#![tactic(auto)]

mod points;

ghost use Rattle.std.specs.Prelude.{◌≡◌};
ghost use Rattle.refusal.specs.Outcome.{said};
ghost use Rattle.pack_runs.specs.Runs.{pack_run};

use points::run_points;
use run::Series;

// So many labels from point k on, of any bytes: the pack is opened first, once.
pub fn labels_of_points<'a>(pack: &'a [u8], first: usize, count: usize, out: &mut [u8]) -> Series
    ensures { said result out.new ≡ pack_run pack.now first count out.old }
{
    let points = pack_open::open_pack(pack)?;
    run_points(pack, points, first, count, out)
}
