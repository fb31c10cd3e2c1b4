// Rows of CSV PAF of a pair of files, by view.
#![tactic(auto)]

mod places;

ghost use Rattle.std.specs.Prelude.{◌≡◌};
ghost use Rattle.refusal.specs.Outcome.{said};
ghost use Rattle.changes_pair.specs.Pair.{pair_of};
ghost use Rattle.csv_paf.specs.Row.{view_row, view_rows};

use places::{row_at, run_rows};
use refusal::Answer;
use run::Series;

// The row of a view.
pub fn row_of_view<'a>(table: &'a [u8], points: &'a [u8], view: usize, out: &mut [u8]) -> Answer
    ensures { said result out.new
        ≡ view_row (pair_of table.now points.now) view out.old }
{
    changes_label::check_pair(table, points)?;
    let place = changes_views::wanted_at(points, &points[..0], view);
    row_at(table, points, place, out)
}

// So many rows from a view on.
pub fn rows_of_views<'a>(
    table: &'a [u8],
    points: &'a [u8],
    first: usize,
    count: usize,
    out: &mut [u8],
) -> Series
    ensures { said result out.new
        ≡ view_rows (pair_of table.now points.now) first count out.old }
{
    changes_label::check_pair(table, points)?;
    run_rows(table, points, first, count, out)
}
