// Rows of lines, counted and written, for callers that know that there is room.
ghost use Rattle.std.specs.Prelude.{◌≡◌, ◌+◌, ◌≤◌, ◌<◌, [], ◌∷◌, length, take, drop, MatchOption};
ghost use Rattle.label.specs.Label.{ended};
ghost use Rattle.label.specs.Put.{Put};
ghost use Rattle.van.specs.Fold.{columns, space_within, first_of, left_of};
ghost use Rattle.van.specs.Walk.{line_length, line_rows, text_rows};
ghost use Rattle.van_fold.specs.Size.{size_of};

use label_pieces::inner::{byte_at, bytes_at};

// "by 36 columns"
const COLUMNS: usize = 36;

// How many rows, and how many bytes with their ends.
#[derive(Clone, Copy)]
pub struct Size {
    pub rows: usize,
    pub bytes: usize,
}

// The last space with 1 to 36 bytes before it: how many these are.
fn space_in(bytes: &[u8]) -> Option<usize>
    requires { columns < length bytes.now }
    ensures { MatchOption result (space_within columns bytes.now ≡ 0)
        (λ k. (0 < k) × (k ≤ columns) × (space_within columns bytes.now ≡ k)) }
{
    (1..=COLUMNS).rev().find(|&k| bytes[k] == b' ')
}

// The first row of a line that is too long for one, and what is left behind its break.
fn first_row(line: &[u8]) -> (&[u8], &[u8])
    requires { columns < length line.now }
    ensures row { result.0.now ≡ (first_of line.now).bytes }
    ensures left { result.1.now ≡ left_of line.now }
{
    match space_in(line) {
        Some(k) => (&line[..k], &line[k + 1..]),
        None => line.split_at(COLUMNS),
    }
}

// The rows of a line.
fn line_size(line: &[u8]) -> Size
    ensures { result ≡ size_of (line_rows line.now) }
{
    let mut rows = 0;
    let mut bytes = 0;
    let mut rest = line;
    while COLUMNS < rest.len() {
        let (row, left) = first_row(rest);
        rows += 1;
        bytes += row.len() + 1;
        rest = left;
    }
    Size {
        rows: rows + 1,
        bytes: bytes + rest.len() + 1,
    }
}

// A row with its end, written at a place.
fn row_at(row: &[u8], at: usize, out: &mut [u8]) -> usize
    requires { at + length (ended (row.now ∷ [])) ≤ length out.old }
    ensures { Put (ended (row.now ∷ [])) out.old at result out.new }
{
    let i = bytes_at(row, at, out);
    byte_at(10, i, out)
}

// The rows of a line, written at a place.
fn line_at(line: &[u8], place: usize, out: &mut [u8]) -> usize
    requires { place + length (ended (line_rows line.now)) ≤ length out.old }
    ensures { Put (ended (line_rows line.now)) out.old place result out.new }
{
    let mut i = place;
    let mut rest = line;
    while COLUMNS < rest.len() {
        let (row, left) = first_row(rest);
        i = row_at(row, i, out);
        rest = left;
    }
    row_at(rest, i, out)
}

// Where the first line of any bytes ends, if it has an end. The library's `position` counts beside the byte that it looks at,
// which took up to twice the time.
#[tactic(auto, using(crate::proofs::Lines::ends_here, crate::proofs::Lines::none_next))]
fn line_end(text: &[u8]) -> Option<usize>
    ensures { MatchOption result (line_length text.now ≡ length text.now)
        (λ i. (i < length text.now) × (line_length text.now ≡ i)) }
{
    for i in 0..text.len() {
        if text[i] == 10 {
            return Some(i);
        }
    }
    None
}

// The first line of any bytes, and what is left behind its end.
fn first_line(text: &[u8]) -> (&[u8], &[u8])
    ensures line { result.0.now ≡ take (line_length text.now) text.now }
    ensures left { result.1.now ≡ drop (line_length text.now + 1) text.now }
{
    match line_end(text) {
        Some(i) => (&text[..i], &text[i + 1..]),
        None => (text, &[]),
    }
}

// The rows of any bytes.
pub fn text_size(text: &[u8]) -> Size
    ensures { result ≡ size_of (text_rows text.now) }
{
    let mut rows = 0;
    let mut bytes = 0;
    let mut rest = text;
    while !rest.is_empty() {
        let (line, left) = first_line(rest);
        let size = line_size(line);
        rows += size.rows;
        bytes += size.bytes;
        rest = left;
    }
    Size { rows, bytes }
}

// The rows of any bytes, written at the front.
pub fn write_text(text: &[u8], out: &mut [u8]) -> usize
    requires { length (ended (text_rows text.now)) ≤ length out.old }
    ensures { Put (ended (text_rows text.now)) out.old 0 result out.new }
{
    let mut i = 0;
    let mut rest = text;
    while !rest.is_empty() {
        let (line, left) = first_line(rest);
        i = line_at(line, i, out);
        rest = left;
    }
    i
}
