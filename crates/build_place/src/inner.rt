// The places of the rows of a shelf: the caller knows that its fields lie within its records, and how many there are.
ghost use Rattle.std.specs.Prelude.{◌≡◌, cond, suc, ◌+◌, ◌-◌, ◌≤◌, ◌<◌, length};
ghost use Rattle.field.specs.Text.{text_in};
ghost use Rattle.shelf.specs.Shelf.{Fit, last_of, text_width};
ghost use Rattle.shelf.specs.Stock.{stock_of};
ghost use Rattle.build.specs.Plan.{organisation_bytes};
ghost use Rattle.build.specs.Rows.{row_bytes_at, size_at, all_bytes, all_count};
ghost use Rattle.build.specs.Placed.{started, Placed};

use shelf::Shelf;

// So many rows in so many bytes.
#[derive(Clone, Copy)]
pub struct Sums {
    pub rows: usize,
    pub bytes: usize,
}

// How wide the text of a row is that is no locality.
pub fn text_width(kind: usize) -> usize
    ensures { (result ≡ text_width kind) × (result ≤ 60) }
{
    match kind {
        2 => 60,
        3 => 20,
        4 => 50,
        _ => 30,
    }
}

// The bytes of a text in a row, with its length byte.
fn text_len(rec: &[u8], from: usize, to: usize) -> usize
    requires { from ≤ to }
    ensures { (result ≡ suc (length (text_in rec.now from to))) × (result ≤ suc (to - from)) }
{
    field_read::read_text(rec, from, to).len() + 1
}

// The bytes of row `i`.
pub fn row_len(file: &[u8], s: Shelf, i: usize) -> usize
    requires { Fit s }
    ensures { (result ≡ length (row_bytes_at (stock_of s file.now) i)) × (result ≤ 104) }
{
    let rec = shelf_read::inner::record_of(file, s, i);
    let kind = shelf_read::inner::ref_at(file, s, i) / 100_000_000;
    if kind == 1 {
        let town = text_len(rec, s.locality, s.locality + 30);
        let dependent = text_len(rec, s.locality + 30, s.locality + 65);
        let double = text_len(rec, s.locality + 65, s.locality + 100);
        return 1 + town + dependent + double;
    }
    1 + text_len(rec, s.text, s.text + text_width(kind))
}

// 1 where it holds, 0 otherwise.
pub fn one_if(holds: bool) -> usize
    ensures { (result ≡ cond holds 1 0) × (result ≤ 1) }
{
    if holds { 1 } else { 0 }
}

// Gives a marked row its start, plus 1; how many bytes the row has, 0 where it is not marked.
fn place_row(file: &[u8], s: Shelf, i: usize, start: usize, marks: &mut [u32]) -> usize
    requires { Fit s × ((i < length marks.old) × (start < 4294967295)) }
    ensures len { (result ≡ size_at (stock_of s file.now) marks.old i) × (result ≤ 104) }
    ensures start { marks.new ≡ started marks.old i start }
{
    if marks[i] == 0 {
        return 0;
    }
    marks[i] = (start + 1) as u32;
    row_len(file, s, i)
}

// Gives each marked row its start, plus 1, were the rows written one after the other.
pub fn place_rows(file: &[u8], s: Shelf, marks: &mut [u32]) -> Sums
    requires { Fit s × ((last_of s file.now ≤ length marks.old) × (last_of s file.now ≤ 1_000_000)) }
    ensures rows { result.rows ≡ all_count (stock_of s file.now) marks.old }
    ensures bytes { result.bytes ≡ all_bytes (stock_of s file.now) marks.old }
    ensures placed { Placed (stock_of s file.now) marks.old marks.new }
{
    let last = shelf_read::inner::last_of(file, s);
    let mut rows = 0;
    let mut bytes = 0;
    for i in 1..last {
        let len = place_row(file, s, i, bytes, marks);
        rows += one_if(len != 0);
        bytes += len;
    }
    Sums { rows, bytes }
}

// The bytes of an organisation's row: 0 where it is not there, otherwise its name 60 and department 60 stand at a place.
pub fn organisation_len(others: &[u8], there: bool, at: usize) -> usize
    requires { at + 120 ≤ length others.now }
    ensures { (result ≡ length (organisation_bytes others.now there at)) × (result ≤ 123) }
{
    if !there {
        return 0;
    }
    let name = text_len(others, at, at + 60);
    let department = text_len(others, at + 60, at + 120);
    1 + name + department
}
