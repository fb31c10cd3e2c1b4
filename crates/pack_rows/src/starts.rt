// Whether an offset is the start of a row, told by a short walk: the row area is cut in stretches of one width, and the first
// row start at or behind the beginning of each is kept.
ghost use Rattle.std.specs.Prelude.{◌≡◌, true, ℕ, ◌≤◌, ◌<◌, length};
ghost use Rattle.pack.specs.Opening.{rows_good, is_start, offset_good};
ghost use Rattle.pack_rows.specs.Walks.{GoodRows, Tells, Cut, Starts};

use crate::rows::row_end;
use pack_read::PackPoint;

// From a row start to the first one at or behind a place. What it tells of an offset from there on, it tells then.
fn walk_to(rows: &[u8], from: usize, place: usize) -> usize
    requires { place ≤ length rows.now }
    ensures { (place ≤ result) × ((n o : ℕ) → place ≤ o → o < length rows.now
        → Tells rows.now n o from → Tells rows.now n o result) }
{
    let mut at = from;
    while at < place {
        at = row_end(rows, at);
    }
    at
}

// Keeps for each stretch the first row start at or behind its beginning.
pub fn keep_starts(rows: &[u8], width: usize, starts: &mut [u32])
    requires { (length rows.now < 4294967296) × (GoodRows rows.now × Cut rows.now width starts.old) }
    ensures { (n : ℕ) → rows_good rows.now n 1 0 ≡ true
        → Starts rows.now n width starts.new }
{
    let mut at = 0;
    for j in 0..rows.len().div_ceil(width) {
        at = walk_to(rows, at, j * width);
        starts[j] = at as u32;
    }
}

// Whether a row starts at an offset.
fn is_start(rows: &[u8], width: usize, starts: &[u32], o: usize) -> bool
    requires { Cut rows.now width starts.now }
    ensures { (n : ℕ) → Starts rows.now n width starts.now → result
        ≡ is_start rows.now n 0 o }
{
    if rows.len() <= o {
        return false;
    }
    let j = o / width;
    walk_to(rows, starts[j] as usize, o) == o
}

// Whether an offset is absent, or the start of a row of a type.
pub fn offset_good(rows: &[u8], width: usize, starts: &[u32], kind: u8, o: usize) -> bool
    requires { Cut rows.now width starts.now }
    ensures { (n : ℕ) → Starts rows.now n width starts.now → result
        ≡ offset_good rows.now n kind o }
{
    if o == PackPoint::ABSENT {
        return true;
    }
    let found = is_start(rows, width, starts, o);
    let same = file_record::byte_of(rows, o) == kind;
    found & same
}
