// The walks over the views of a code: each reads of a view what it needs and hands it on.
ghost use Rattle.std.specs.Prelude.{◌≡◌, ◌+◌, ◌≤◌, length};
ghost use Rattle.label.specs.Put.{Put};
ghost use Rattle.changes_source.specs.Rows.{table_shelf, table_stock};
ghost use Rattle.shelf.specs.Shelf.{last_of};
ghost use Rattle.build.specs.Plan.{organisation_rows, organisation_count};
ghost use Rattle.build.specs.Bytes.{points_in};
ghost use Rattle.changes_build.specs.Views.{packed_in, Known, MarksViews};

use build_mark::inner::mark_point;
use build_place::inner::{Sums, one_if, organisation_len};
use build_points::inner::{key_offsets, point_at};
use changes_source::{delivery_at, organisation_place, organised_at, table_shelf};
use changes_views::{is_wanted, last_of, number_at};
use file_record::point_record;
use refusal::{Verdict, with_view};
use shelf_find::inner::rows_by;

// The first refusal of the packed views; where there is none, all their rows are marked.
pub fn mark_views(
    table: &[u8],
    refs: &[u32],
    points: &[u8],
    code: &[u8],
    marks: &mut [u32],
) -> Verdict
    requires { Known table.now refs.now points.now × (last_of table_shelf table.now ≤ length marks.old) }
    ensures { MarksViews table.now points.now code.now marks.old result
        marks.new }
{
    let s = table_shelf();
    for place in 1..last_of(points) {
        if !is_wanted(point_record(points, place), code) {
            continue;
        }
        let p = delivery_at(points, place);
        let keys = p.keys;
        let found = rows_by(table, s, refs, keys);
        mark_point(p, found, marks).map_err(|why| with_view(why, number_at(points, place)))?;
    }
    Ok(())
}

// The organisations of the packed views: how many rows, in how many bytes.
pub fn organisations_in(points: &[u8], code: &[u8]) -> Sums
    ensures rows { result.rows ≡ organisation_count (packed_in points.now code.now) }
    ensures bytes { result.bytes
        ≡ length (organisation_rows points.now (packed_in points.now code.now)) }
{
    let mut rows = 0;
    let mut bytes = 0;
    for place in 1..last_of(points) {
        if !is_wanted(point_record(points, place), code) {
            continue;
        }
        let there = organised_at(points, place);
        rows += one_if(there);
        bytes += organisation_len(points, there, organisation_place(points, place));
    }
    Sums { rows, bytes }
}

// The organisations' rows of all views of a code.
pub fn organisations_at(points: &[u8], code: &[u8], at: usize, out: &mut [u8]) -> usize
    requires { at + length (organisation_rows points.now (packed_in points.now code.now)) ≤ length out.old }
    ensures { Put (organisation_rows points.now (packed_in points.now code.now))
        out.old at result out.new }
{
    let mut end = at;
    for place in 1..last_of(points) {
        if !is_wanted(point_record(points, place), code) {
            continue;
        }
        let there = organised_at(points, place);
        let texts = organisation_place(points, place);
        end = build_rows::inner::organisation_at(points, there, texts, end, out);
    }
    end
}

// The points of all views of a code, the organisations' rows standing from `start` on.
pub fn points_at(
    table: &[u8],
    refs: &[u32],
    points: &[u8],
    starts: &[u32],
    code: &[u8],
    start: usize,
    at: usize,
    out: &mut [u8],
) -> usize
    requires known { Known table.now refs.now points.now }
    requires code_bound { start + length (organisation_rows points.now (packed_in points.now code.now)) ≤ at }
    requires code_in_bounds { at + length (points_in (table_stock table.now) points.now points.now starts.now start
        (packed_in points.now code.now)) ≤ length out.old }
    ensures { Put (points_in (table_stock table.now) points.now points.now
        starts.now start (packed_in points.now code.now)) out.old at result
        out.new }
{
    let s = table_shelf();
    let mut row = start;
    let mut end = at;
    for place in 1..last_of(points) {
        if !is_wanted(point_record(points, place), code) {
            continue;
        }
        let p = delivery_at(points, place);
        let keys = p.keys;
        let found = rows_by(table, s, refs, keys);
        let rows = found.rows;
        let offsets = key_offsets(starts, keys, rows);
        end = point_at(points, p, offsets, row, end, out);
        row += organisation_len(points, p.organised, p.organisation);
    }
    end
}
