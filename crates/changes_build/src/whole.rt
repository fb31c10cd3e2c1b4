// The whole pack. Its caller knows what it holds and that there is room for it.
ghost use Rattle.label.specs.Put.{Wrote};
ghost use Rattle.changes_source.specs.Rows.{table_stock};
ghost use Rattle.build.specs.Bytes.{pack_in};
ghost use Rattle.build.specs.Ready.{Ready};
ghost use Rattle.changes_build.specs.Views.{packed_in, Known};

use crate::walks::{organisations_at, points_at};
use build_rows::inner::rows_at;
use build_trailer::inner::trailer_at;
use changes_source::table_shelf;

// The pack of a code: `starts` has the starts of the rows, there are so many rows in all, and so many views.
pub fn write_pack(
    table: &[u8],
    refs: &[u32],
    points: &[u8],
    starts: &[u32],
    code: &[u8],
    rows: usize,
    count: usize,
    out: &mut [u8],
) -> usize
    requires known { Known table.now refs.now points.now }
    requires ready { Ready (table_stock table.now) points.now points.now starts.now
        (packed_in points.now code.now) code.now rows count out.old }
    ensures { Wrote (pack_in (table_stock table.now) points.now points.now
        starts.now (packed_in points.now code.now) code.now)
        out.old result out.new }
{
    let i = rows_at(table, table_shelf(), starts, 0, out);
    let j = organisations_at(points, code, i, out);
    let k = points_at(table, refs, points, starts, code, i, j, out);
    trailer_at(rows, j, count, code, k, out)
}
