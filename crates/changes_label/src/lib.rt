// Labels asked of a pair of files, by view and by code: both files are judged first, then the code, then the view.
#![tactic(auto)]

pub mod inner;

ghost use Rattle.std.specs.Prelude.{◌≡◌};
ghost use Rattle.refusal.specs.Outcome.{said};
ghost use Rattle.ask.specs.Labels.{view_label, code_label};
ghost use Rattle.changes_pair.specs.Pair.{pair_of};

use inner::label_at;
use refusal::{Answer, Reason};

// Whether both files are accepted: the number of records of the point file, or the first refusal.
pub fn check_pair(table: &[u8], points: &[u8]) -> Answer
    ensures { result ≡ (pair_of table.now points.now).judged }
{
    file_check::check_table(table)?;
    file_check::check_points(points)
}

// The label of a view.
pub fn label_view<'a>(table: &'a [u8], points: &'a [u8], view: usize, out: &mut [u8]) -> Answer
    ensures { said result out.new
        ≡ view_label (pair_of table.now points.now) view out.old }
{
    check_pair(table, points)?;
    let place = changes_views::wanted_at(points, &points[..0], view);
    label_at(table, points, place, out)
}

// The label of the k-th live view in a code.
pub fn label_in_code<'a>(
    table: &'a [u8],
    points: &'a [u8],
    code: &[u8],
    k: usize,
    out: &mut [u8],
) -> Answer
    ensures { said result out.new
        ≡ code_label (pair_of table.now points.now) code.now k out.old }
{
    check_pair(table, points)?;
    if field_outward::outward_fault(code) != 0 {
        return Err(Reason::BadCode.into());
    }
    let place = changes_views::wanted_at(points, code, k);
    label_at(table, points, place, out)
}
