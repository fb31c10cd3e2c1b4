// The rows of a file, judged one by one.
ghost use Rattle.std.specs.Prelude.{◌≡◌, ◌+◌, ◌≤◌, ◌<◌, length, get_or};
ghost use Rattle.field.specs.Test.{every};
ghost use Rattle.csv_paf.specs.File.{widths, not_quote, field_fits};
ghost use Rattle.csv_read.specs.Judged.{ended_row, Judges};

use crate::fields::field_end;
use crate::forms::is_formed;
use crate::inner::has_none;
use field_test::all_are;
use file_record::{byte_of, part_of};

// A row without a malformed field: whether none is too long or has a quote, and where the row behind it begins.
#[derive(Clone, Copy)]
pub struct Row {
    pub fits: bool,
    pub end: usize,
}

// A row that ends at a place behind its n-th field: all is well where this is the last and CR LF ends it.
fn ended_row(csv: &[u8], n: usize, end: usize, fits: bool) -> Result<Row, usize>
    requires { (n < 16) × (end ≤ length csv.now) }
    ensures { result ≡ ended_row csv.now n end fits }
{
    if n != 15 || byte_of(csv, end) != 13 {
        return Err(n + 2);
    }
    Ok(Row { fits, end: end + 2 })
}

// Whether no byte is a quote.
fn no_quote(f: &[u8]) -> bool
    ensures { result ≡ every not_quote f.now }
{
    has_none(f, b'"')
}

// How long the n-th field may be.
fn width_of(n: usize) -> usize
    requires { n < 16 }
    ensures { result ≡ get_or widths n 0 }
{
    let all = [8u8, 30, 35, 35, 80, 80, 4, 50, 30, 6, 60, 60, 8, 1, 1, 2];
    all[n] as usize
}

fn field_fits(f: &[u8], n: usize) -> bool
    requires { n < 16 }
    ensures { result ≡ field_fits (get_or widths n 0) f.now }
{
    let plain = no_quote(f);
    (f.len() <= width_of(n)) & plain
}

// The row that begins at a place, field by field, or its first malformed field, counted from 1.
pub fn judge_row(csv: &[u8], at: usize) -> Result<Row, usize>
    requires { at ≤ length csv.now }
    ensures { Judges csv.now at result }
{
    let mut fits = true;
    let mut alone = true;
    let mut start = at;
    for n in 0..16 {
        let end = field_end(csv, start);
        let f = part_of(csv, start, end);
        if !is_formed(csv, start, f, n, alone) {
            return Err(n + 1);
        }
        fits &= field_fits(f, n);
        if byte_of(csv, end) != b',' {
            return ended_row(csv, n, end, fits);
        }
        alone = all_are(f, 32);
        start = end + 1;
    }
    Err(17)
}
