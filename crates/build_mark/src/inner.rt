// Marking the rows of a source: the caller knows that there are marks for all of them.
ghost use Rattle.std.specs.Prelude.{◌≡◌, length};
ghost use Rattle.source.specs.Delivery.{refusal_in};
ghost use Rattle.build.specs.Plan.{mark_rows};
ghost use Rattle.build_mark.specs.Below.{Below};
ghost use Rattle.refusal.specs.Verdict.{fine};

use refusal::Verdict;
use source::{DeliveryPoint, Found};

// Marks the rows that are found.
fn mark_rows(rows: [usize; 7], marks: &mut [u32])
    requires { Below (length marks.old) rows }
    ensures { marks.new ≡ mark_rows rows marks.old }
{
    for row in rows {
        if row != 0 {
            marks[row] = 1;
        }
    }
}

// Refusal 8 or 9 of a delivery point; where there is none, its rows are marked.
pub fn mark_point(p: DeliveryPoint, found: Found, marks: &mut [u32]) -> Verdict
    requires { Below (length marks.old) found.rows }
    ensures said { result ≡ refusal_in p found.rows }
    ensures marked { result ≡ fine → marks.new ≡ mark_rows found.rows marks.old }
{
    source_keys::refusal_in(p, found)?;
    let rows = found.rows;
    mark_rows(rows, marks);
    Ok(())
}
