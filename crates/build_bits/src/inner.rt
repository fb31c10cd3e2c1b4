// The marked rows of a shelf: the caller knows that its fields lie within its records, and how many there are.
ghost use Rattle.std.specs.Prelude.{◌≡◌, ℕ, ◌+◌, ◌*◌, ◌-◌, ◌≤◌, ◌<◌, length};
ghost use Rattle.label.specs.Put.{Put};
ghost use Rattle.shelf.specs.Shelf.{Fit, last_of};
ghost use Rattle.shelf.specs.Stock.{stock_of};
ghost use Rattle.build.specs.Plan.{mark_row};
ghost use Rattle.build.specs.Rows.{bytes_to, all_bytes, all_count};
ghost use Rattle.build.specs.Bytes.{used_rows};
ghost use Rattle.build_bits.specs.Marks.{bit_marks, shelf_marks, Blocks, SumsIn};

use build_place::inner::{Sums, row_len};
use shelf::Shelf;
use shelf_read::inner::last_of;

// Marks a row; 0 is none.
pub fn mark_row(bits: &mut [u32], row: usize)
    ensures { (n : ℕ) → n ≤ length bits.old * 32
        → bit_marks bits.new n ≡ mark_row row (bit_marks bits.old n) }
{
    if row != 0 {
        bits::inner::mark(bits, row);
    }
}

// The marked rows from one on below another: how many, in how many bytes.
fn sums_in(file: &[u8], s: Shelf, bits: &[u32], from: usize, to: usize) -> Sums
    requires fit { Fit s × ((1 ≤ from) × ((from ≤ to) × (to ≤ last_of s file.now))) }
    requires file_bound { last_of s file.now ≤ 1_000_000 }
    ensures { SumsIn (stock_of s file.now)
        (shelf_marks s file.now bits.now) from to result }
{
    let mut rows = 0;
    let mut bytes = 0;
    let mut i = bits::next_marked(bits, from, to);
    while i < to {
        rows += 1;
        bytes += row_len(file, s, i);
        i = bits::next_marked(bits, i + 1, to);
    }
    Sums { rows, bytes }
}

// Gives each block its start, were the marked rows written one after the other from `start` on.
pub fn place_rows(file: &[u8], s: Shelf, bits: &[u32], blocks: &mut [u32], start: usize) -> Sums
    requires fit { Fit s × ((last_of s file.now ≤ 64 * length blocks.old) × (last_of s file.now ≤ 1_000_000)) }
    requires start_bound { start ≤ 1_000_000_000 }
    ensures rows { result.rows
        ≡ all_count (stock_of s file.now) (shelf_marks s file.now bits.now) }
    ensures bytes { result.bytes
        ≡ all_bytes (stock_of s file.now) (shelf_marks s file.now bits.now) }
    ensures placed { Blocks (stock_of s file.now)
        (shelf_marks s file.now bits.now) start blocks.new }
{
    let last = last_of(file, s);
    let mut rows = 0;
    let mut bytes = 0;
    for k in 0..(last + 62) / 64 {
        blocks[k] = (start + bytes) as u32;
        let from = 64 * k + 1;
        let sums = sums_in(file, s, bits, from, field::lesser(from + 64, last));
        rows += sums.rows;
        bytes += sums.bytes;
    }
    Sums { rows, bytes }
}

// Where a row starts: its block's start, and behind it the marked rows before it in the block.
pub fn start_in(file: &[u8], s: Shelf, bits: &[u32], blocks: &[u32], i: usize) -> usize
    requires fit { Fit s × ((last_of s file.now ≤ 64 * length blocks.now) × (last_of s file.now ≤ 1_000_000)) }
    requires le_i { (1 ≤ i) × (i < last_of s file.now) }
    ensures { (start : ℕ)
        → Blocks (stock_of s file.now) (shelf_marks s file.now bits.now) start
        blocks.now
        → result ≡ start + bytes_to (stock_of s file.now)
        (shelf_marks s file.now bits.now) (i - 1) }
{
    let k = (i - 1) / 64;
    let sums = sums_in(file, s, bits, 64 * k + 1, i);
    blocks[k] as usize + sums.bytes
}

// All marked rows of a shelf.
pub fn rows_at(file: &[u8], s: Shelf, bits: &[u32], at: usize, out: &mut [u8]) -> usize
    requires fit { Fit s }
    requires bits_in_bounds { at + length (used_rows (stock_of s file.now) (shelf_marks s file.now bits.now))
        ≤ length out.old }
    ensures { Put (used_rows (stock_of s file.now)
        (shelf_marks s file.now bits.now)) out.old at result out.new }
{
    let last = last_of(file, s);
    let mut end = at;
    let mut i = bits::next_marked(bits, 1, last);
    while i < last {
        end = build_rows::inner::row_at(file, s, i, end, out);
        i = bits::next_marked(bits, i + 1, last);
    }
    end
}
