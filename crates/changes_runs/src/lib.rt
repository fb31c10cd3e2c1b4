// Runs of labels of a pair of files, by view and by code.
#![tactic(auto)]

pub mod inner;
mod places;

ghost use Rattle.std.specs.Prelude.{◌≡◌};
ghost use Rattle.refusal.specs.Outcome.{said};
ghost use Rattle.ask.specs.Runs.{views_run, code_run};
ghost use Rattle.changes_pair.specs.Pair.{pair_of};

use places::run_places;
use refusal::Reason;
use run::Series;

// So many labels from a view on.
pub fn labels_of_views<'a>(
    table: &'a [u8],
    points: &'a [u8],
    first: usize,
    count: usize,
    out: &mut [u8],
) -> Series
    ensures { said result out.new
        ≡ views_run (pair_of table.now points.now) first count out.old }
{
    changes_label::check_pair(table, points)?;
    run_places(table, points, &points[..0], first, count, out)
}

// So many labels from the k-th live view of a code on.
pub fn labels_in_code<'a>(
    table: &'a [u8],
    points: &'a [u8],
    code: &[u8],
    first: usize,
    count: usize,
    out: &mut [u8],
) -> Series
    ensures { said result out.new ≡ code_run (pair_of table.now points.now)
        code.now first count out.old }
{
    changes_label::check_pair(table, points)?;
    if field_outward::outward_fault(code) != 0 {
        return Err(Reason::BadCode.into());
    }
    run_places(table, points, code, first, count, out)
}
