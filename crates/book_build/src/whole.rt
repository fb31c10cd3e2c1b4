// The whole pack. Its caller knows what it holds and that there is room for it.
ghost use Rattle.std.specs.Prelude.{length};
ghost use Rattle.label.specs.Put.{Wrote};
ghost use Rattle.changes_source.specs.Rows.{table_stock};
ghost use Rattle.build.specs.Bytes.{pack_in};
ghost use Rattle.build.specs.Ready.{Ready};
ghost use Rattle.book_build.specs.Chosen.{packed_all, Known};

use crate::walks::{organisations_at, points_at};
use build_rows::inner::rows_at;
use build_trailer::inner::trailer_at;
use changes_source::table_shelf;

// The pack of the chosen: `starts` has the starts of the rows, and there are so many rows in all.
pub fn write_pack(
    table: &[u8],
    refs: &[u32],
    book: &[u8],
    chosen: &[u32],
    starts: &[u32],
    code: &[u8],
    rows: usize,
    out: &mut [u8],
) -> usize
    requires known { Known table.now refs.now book.now chosen.now }
    requires ready { Ready (table_stock table.now) book.now book.now starts.now
        (packed_all book.now chosen.now) code.now rows (length chosen.now) out.old }
    ensures { Wrote (pack_in (table_stock table.now) book.now book.now
        starts.now (packed_all book.now chosen.now) code.now)
        out.old result out.new }
{
    let i = rows_at(table, table_shelf(), starts, 0, out);
    let j = organisations_at(book, chosen, i, out);
    let k = points_at(table, refs, book, chosen, starts, i, j, out);
    trailer_at(rows, j, chosen.len(), code, k, out)
}
