// The walks over the chosen delivery points: each reads of one what it needs and hands it on.
ghost use Rattle.std.specs.Prelude.{◌≡◌, ◌+◌, ◌≤◌, length};
ghost use Rattle.label.specs.Put.{Put};
ghost use Rattle.changes_source.specs.Rows.{table_shelf, table_stock};
ghost use Rattle.shelf.specs.Shelf.{last_of};
ghost use Rattle.build.specs.Plan.{organisation_rows, organisation_count};
ghost use Rattle.build.specs.Bytes.{points_in};
ghost use Rattle.changes_whole.specs.Marked.{MarksAll};
ghost use Rattle.book_build.specs.Chosen.{packed_all, Chosen, Known};

use book_source::inner::{delivery_from, place_before};
use build_mark::inner::mark_point;
use build_place::inner::{Sums, one_if, organisation_len};
use build_points::inner::{key_offsets, point_at};
use changes_source::table_shelf;
use refusal::{Verdict, with_view};
use shelf_find::inner::rows_by;

// The first refusal of the chosen; where there is none, all their rows are marked.
pub fn mark_chosen(
    table: &[u8],
    refs: &[u32],
    book: &[u8],
    chosen: &[u32],
    marks: &mut [u32],
) -> Verdict
    requires known { Known table.now refs.now book.now chosen.now }
    requires table_in_bounds { last_of table_shelf table.now ≤ length marks.old }
    ensures { MarksAll table.now (packed_all book.now chosen.now)
        marks.old result marks.new }
{
    let s = table_shelf();
    for &start in chosen {
        let p = delivery_from(book, start as usize);
        let keys = p.keys;
        let found = rows_by(table, s, refs, keys);
        let place = place_before(book, start as usize);
        mark_point(p, found, marks).map_err(|why| with_view(why, place))?;
    }
    Ok(())
}

// The organisations of the chosen: how many rows, in how many bytes.
pub fn organisations_in(book: &[u8], chosen: &[u32]) -> Sums
    requires { Chosen book.now chosen.now }
    ensures rows { result.rows ≡ organisation_count (packed_all book.now chosen.now) }
    ensures bytes { result.bytes
        ≡ length (organisation_rows book.now (packed_all book.now chosen.now)) }
{
    let mut rows = 0;
    let mut bytes = 0;
    for &start in chosen {
        let p = delivery_from(book, start as usize);
        rows += one_if(p.organised);
        bytes += organisation_len(book, p.organised, p.organisation);
    }
    Sums { rows, bytes }
}

// The organisations' rows of the chosen.
pub fn organisations_at(book: &[u8], chosen: &[u32], at: usize, out: &mut [u8]) -> usize
    requires chosen { Chosen book.now chosen.now }
    requires chosen_in_bounds { at + length (organisation_rows book.now (packed_all book.now chosen.now)) ≤ length out.old }
    ensures { Put (organisation_rows book.now (packed_all book.now chosen.now))
        out.old at result out.new }
{
    let mut end = at;
    for &start in chosen {
        let p = delivery_from(book, start as usize);
        end = build_rows::inner::organisation_at(book, p.organised, p.organisation, end, out);
    }
    end
}

// The points of the chosen, the organisations' rows standing from `start` on.
pub fn points_at(
    table: &[u8],
    refs: &[u32],
    book: &[u8],
    chosen: &[u32],
    starts: &[u32],
    start: usize,
    at: usize,
    out: &mut [u8],
) -> usize
    requires known { Known table.now refs.now book.now chosen.now }
    requires chosen_bound { start + length (organisation_rows book.now (packed_all book.now chosen.now)) ≤ at }
    requires chosen_in_bounds { at + length (points_in (table_stock table.now) book.now book.now starts.now start
        (packed_all book.now chosen.now)) ≤ length out.old }
    ensures { Put (points_in (table_stock table.now) book.now book.now
        starts.now start (packed_all book.now chosen.now)) out.old at result
        out.new }
{
    let s = table_shelf();
    let mut row = start;
    let mut end = at;
    for &from in chosen {
        let p = delivery_from(book, from as usize);
        let keys = p.keys;
        let found = rows_by(table, s, refs, keys);
        let rows = found.rows;
        let offsets = key_offsets(starts, keys, rows);
        end = point_at(book, p, offsets, row, end, out);
        row += organisation_len(book, p.organised, p.organisation);
    }
    end
}
