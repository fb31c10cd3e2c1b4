// Where the rows of a file begin.
ghost use Rattle.std.specs.Prelude.{◌≡◌, ◌+◌, ◌≤◌, ◌<◌, length, get_or, drop};
ghost use Rattle.csv_paf.specs.File.{row_ends, behind_row, rows_of};
ghost use Rattle.csv_paf.specs.Ask.{kth_of};
ghost use Rattle.csv_label.specs.Shown.{row_from};

use csv_read::inner::has_none;
use file_record::byte_of;

// Whether a row ends at a byte: CR with LF behind it.
fn ends_row(csv: &[u8], i: usize) -> bool
    requires { i < length csv.now }
    ensures { result ≡ row_ends (get_or csv.now i 0) (drop (i + 1) csv.now) }
{
    if csv[i] != 13 {
        return false;
    }
    byte_of(csv, i + 1) == 10
}

// Past bytes at which no row ends, sixteen at a time.
fn past_sixteens(csv: &[u8], at: usize) -> usize
    requires { at ≤ length csv.now }
    ensures { (at ≤ result) × ((result ≤ length csv.now)
        × (behind_row (drop at csv.now) ≡ behind_row (drop result csv.now))) }
{
    let (parts, _) = csv[at..].as_chunks::<16>();
    for (n, part) in parts.iter().enumerate() {
        if !has_none(part, 13) {
            return at + n * 16;
        }
    }
    at + parts.len() * 16
}

// Behind the row that begins at a place.
pub fn row_behind(csv: &[u8], at: usize) -> usize
    requires { at ≤ length csv.now }
    ensures { (result ≤ length csv.now) × ((at < length csv.now → at < result)
        × (drop result csv.now ≡ behind_row (drop at csv.now))) }
{
    for i in past_sixteens(csv, at)..csv.len() {
        if ends_row(csv, i) {
            return i + 2;
        }
    }
    csv.len()
}

// Where the row of a number begins, or the end of the file.
pub fn row_place(csv: &[u8], row: usize) -> usize
    ensures { (result ≤ length csv.now)
        × (row_from (drop result csv.now) ≡ kth_of (rows_of csv.now) row) }
{
    if row == 0 {
        return csv.len();
    }
    let mut at = 0;
    for _ in 1..row {
        if csv.len() <= at {
            return at;
        }
        at = row_behind(csv, at);
    }
    at
}
