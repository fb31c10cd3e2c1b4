// The rows of a shelf that have a start.
ghost use Rattle.std.specs.Prelude.{◌+◌, ◌≤◌, length};
ghost use Rattle.label.specs.Put.{Put};
ghost use Rattle.pack.specs.Layout.{texts_bytes};
ghost use Rattle.shelf.specs.Shelf.{Fit, texts_in};
ghost use Rattle.shelf.specs.Stock.{stock_of};
ghost use Rattle.build.specs.Rows.{row_bytes_at};
ghost use Rattle.build.specs.Bytes.{used_at, used_rows};

use build_bytes::inner::{start_of, text_at, two_texts_at};
use label_pieces::inner::byte_at;
use shelf::Shelf;

// The texts of a record, by its kind.
fn texts_at(rec: &[u8], s: Shelf, kind: usize, at: usize, out: &mut [u8]) -> usize
    requires { Fit s × (at + length (texts_bytes (texts_in s kind rec.now)) ≤ length out.old) }
    ensures { Put (texts_bytes (texts_in s kind rec.now)) out.old at result out.new }
{
    if kind == 1 {
        let town = s.locality;
        let i = text_at(rec, town, town + 30, at, out);
        return two_texts_at(rec, town + 30, town + 65, town + 100, i, out);
    }
    text_at(
        rec,
        s.text,
        s.text + build_place::inner::text_width(kind),
        at,
        out,
    )
}

// Row `i`.
pub fn row_at(file: &[u8], s: Shelf, i: usize, at: usize, out: &mut [u8]) -> usize
    requires { Fit s × (at + length (row_bytes_at (stock_of s file.now) i) ≤ length out.old) }
    ensures { Put (row_bytes_at (stock_of s file.now) i) out.old at result out.new }
{
    let kind = shelf_read::inner::ref_at(file, s, i) / 100_000_000;
    let j = byte_at(kind as u8, at, out);
    texts_at(shelf_read::inner::record_of(file, s, i), s, kind, j, out)
}

// Row `i`, where it has a start.
fn used_at(file: &[u8], s: Shelf, starts: &[u32], i: usize, at: usize, out: &mut [u8]) -> usize
    requires { Fit s × (at + length (used_at (stock_of s file.now) starts.now i) ≤ length out.old) }
    ensures { Put (used_at (stock_of s file.now) starts.now i)
        out.old at result out.new }
{
    if start_of(starts, i) == 0 {
        return at;
    }
    row_at(file, s, i, at, out)
}

// All rows of a shelf that have a start.
pub fn rows_at(file: &[u8], s: Shelf, starts: &[u32], at: usize, out: &mut [u8]) -> usize
    requires { Fit s × (at + length (used_rows (stock_of s file.now) starts.now) ≤ length out.old) }
    ensures { Put (used_rows (stock_of s file.now) starts.now)
        out.old at result out.new }
{
    let mut end = at;
    for i in 1..shelf_read::inner::last_of(file, s) {
        end = used_at(file, s, starts, i, end, out);
    }
    end
}
