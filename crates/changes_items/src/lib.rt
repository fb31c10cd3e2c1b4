// Listings of a pair of files, by view and by code: each view's line, then its label or the line of its refusal.
#![tactic(auto)]

mod places;

ghost use Rattle.std.specs.Prelude.{◌≡◌};
ghost use Rattle.refusal.specs.Outcome.{said};
ghost use Rattle.ask.specs.Lists.{views_list, code_list};
ghost use Rattle.changes_pair.specs.Pair.{pair_of};

use places::list_places;
use refusal::Reason;
use run::Series;

// So many views from one on.
pub fn list_of_views<'a>(
    table: &'a [u8],
    points: &'a [u8],
    first: usize,
    count: usize,
    out: &mut [u8],
) -> Series
    ensures { said result out.new
        ≡ views_list (pair_of table.now points.now) first count out.old }
{
    changes_label::check_pair(table, points)?;
    list_places(table, points, &points[..0], first, count, out)
}

// So many live views of a code from the k-th on.
pub fn list_in_code<'a>(
    table: &'a [u8],
    points: &'a [u8],
    code: &[u8],
    first: usize,
    count: usize,
    out: &mut [u8],
) -> Series
    ensures { said result out.new ≡ code_list (pair_of table.now points.now)
        code.now first count out.old }
{
    changes_label::check_pair(table, points)?;
    if field_outward::outward_fault(code) != 0 {
        return Err(Reason::BadCode.into());
    }
    list_places(table, points, code, first, count, out)
}
