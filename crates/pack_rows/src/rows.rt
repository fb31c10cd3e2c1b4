// The rows of a pack: whether the row area is so many good rows.
ghost use Rattle.std.specs.Prelude.{◌≡◌, ◌+◌, ◌*◌, ◌^◌, ◌≤◌, ◌<◌, length};
ghost use Rattle.label.specs.Lines.{is_empty};
ghost use Rattle.pack.specs.Opening.{slot, slots_of, text_good, text_at, texts_good, row_text, row_end, double_good, row_good, rows_good};

use pack_read::inner::{text_end, text_place};

// Whether a text may stand in a slot of a row. A text that is there begins with no space where it has no fault as a filled
// one.
fn text_good(t: &[u8], width: u8, blank: bool) -> bool
    ensures { result ≡ text_good (slot width blank) t.now }
{
    let Some(&last) = t.last() else {
        return blank;
    };
    let fault = field_test::filled_fault(t);
    (t.len() <= width as usize) & ((fault == 0) & (last != 32))
}

// The same of the text that starts at a place.
fn text_fits(rows: &[u8], at: usize, width: u8, blank: bool) -> bool
    requires { at + 256 < 2 ^ 64 }
    ensures { result ≡ text_good (slot width blank) (text_at rows.now at) }
{
    let end = text_end(rows, at);
    text_good(file_record::part_of(rows, at + 1, end), width, blank)
}

// Whether the texts of a row of a type are good, the first starting at a place.
fn texts_good(rows: &[u8], kind: u8, at: usize) -> bool
    requires { at + 768 < 2 ^ 64 }
    ensures { result ≡ texts_good rows.now (slots_of kind) at }
{
    match kind {
        1 => {
            let second = text_end(rows, at);
            let third = text_end(rows, second);
            text_fits(rows, at, 30, false)
                & (text_fits(rows, second, 35, true) & text_fits(rows, third, 35, true))
        }
        2 => text_fits(rows, at, 60, false),
        3 => text_fits(rows, at, 20, false),
        4 => text_fits(rows, at, 50, false),
        5 => text_fits(rows, at, 30, false),
        6 => {
            let second = text_end(rows, at);
            text_fits(rows, at, 60, true) & text_fits(rows, second, 60, true)
        }
        _ => true,
    }
}

// Behind the row that starts at a place.
pub fn row_end(rows: &[u8], at: usize) -> usize
    requires { at ≤ length rows.now }
    ensures { result ≡ row_end rows.now at }
{
    let first = text_end(rows, at + 1);
    match file_record::byte_of(rows, at) {
        1 => text_end(rows, text_end(rows, first)),
        2..=5 => first,
        6 => text_end(rows, first),
        _ => at + 1,
    }
}

// Whether the n-th text of the row that starts at a place is empty, counted from 0.
pub fn text_empty(rows: &[u8], at: usize, n: usize) -> bool
    requires { at + 256 * n + 257 < 2 ^ 64 }
    ensures { result ≡ is_empty (row_text rows.now at n) }
{
    let place = text_place(rows, at + 1, n);
    let end = text_end(rows, place);
    file_record::part_of(rows, place + 1, end).is_empty()
}

// Whether a row has a double dependent locality only with a dependent one.
fn double_good(rows: &[u8], at: usize) -> bool
    requires { at ≤ length rows.now }
    ensures { result ≡ double_good rows.now at }
{
    if file_record::byte_of(rows, at) != 1 {
        return true;
    }
    let dependent = text_empty(rows, at, 1);
    let double = text_empty(rows, at, 2);
    !dependent | double
}

// Whether a good row starts at a place and ends at another, its type not below the one before.
fn row_good(rows: &[u8], low: u8, at: usize, end: usize) -> bool
    requires { (at ≤ length rows.now) × (end ≡ row_end rows.now at) }
    ensures { result ≡ row_good rows.now low at }
{
    let kind = file_record::byte_of(rows, at);
    let texts = texts_good(rows, kind, at + 1);
    let double = double_good(rows, at);
    (low <= kind) & ((kind <= 6) & ((end <= rows.len()) & (texts & double)))
}

// Whether the rows are exactly so many good ones.
pub fn rows_good(rows: &[u8], count: usize) -> bool
    ensures { result ≡ rows_good rows.now count 1 0 }
{
    let mut low = 1;
    let mut at = 0;
    for _ in 0..count {
        let end = row_end(rows, at);
        if !row_good(rows, low, at, end) {
            return false;
        }
        low = file_record::byte_of(rows, at);
        at = end;
    }
    at == rows.len()
}
