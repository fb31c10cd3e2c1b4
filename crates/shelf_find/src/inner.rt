// Searches on a shelf: the caller knows that the shelf's fields lie within its records.
ghost use Rattle.std.specs.Prelude.{◌≡◌, cond, ◌≤◌, length, get_or};
ghost use Rattle.source.specs.Address.{present, key_kinds, asked_by, ref};
ghost use Rattle.source.specs.Delivery.{rows_for};
ghost use Rattle.shelf.specs.Shelf.{Fit, last_of, in_force};
ghost use Rattle.shelf.specs.Search.{upper_of, last_found, found, Filled};

use crate::search::upper_bound;
use shelf::Shelf;
use shelf_read::inner::{last_of, record_of, ref_at};
use source::Found;

// The kinds of the rows that the seven keys of a delivery point refer to.
const KINDS: [u8; 7] = [1, 2, 3, 2, 3, 4, 5];

// What a kind outweighs: all keys of eight digits.
const KIND_UNIT: usize = 100_000_000;

// The last record that stands for r; 0 where there is none.
fn last_row(file: &[u8], s: Shelf, r: usize) -> usize
    requires { Fit s }
    ensures { result ≡ last_found s file.now r }
{
    let end = upper_bound(file, s, r);
    if end <= 1 {
        return 0;
    }
    let row = end - 1;
    if ref_at(file, s, row) == r { row } else { 0 }
}

// The record itself, or 0 where its letter says that it is not in force.
fn in_force(file: &[u8], s: Shelf, row: usize) -> usize
    requires { Fit s }
    ensures { result ≡ in_force s file.now row }
{
    let letter = file_record::byte_of(record_of(file, s, row), s.letter);
    if (letter == b'B') | (letter == b'D') {
        0
    } else {
        row
    }
}

// The row in force for a number; 0 where none is.
fn find_row(file: &[u8], s: Shelf, r: usize) -> usize
    requires { Fit s }
    ensures { result ≡ found s file.now r }
{
    in_force(file, s, last_row(file, s, r))
}

// The row that a key of this kind finds; 0 where the key is zero or finds none.
pub fn row_for(file: &[u8], s: Shelf, kind: u8, key: u32) -> usize
    requires { Fit s }
    ensures { result ≡ cond (present key) (found s file.now (ref kind key)) 0 }
{
    if key == 0 {
        return 0;
    }
    find_row(file, s, kind as usize * KIND_UNIT + key as usize)
}

// The rows that the keys of a delivery point find.
pub fn rows_of(file: &[u8], s: Shelf, keys: [u32; 7]) -> Found
    requires { Fit s }
    ensures { result.rows ≡ rows_for (found s file.now) (asked_by key_kinds keys) }
{
    let rows = std::array::from_fn(|i| row_for(file, s, KINDS[i], keys[i]));
    Found { rows }
}

// Gives each record's place in the array its number.
pub fn fill_refs(file: &[u8], s: Shelf, refs: &mut [u32])
    requires { Fit s × (last_of s file.now ≤ length refs.old) }
    ensures { Filled s file.now refs.new }
{
    for i in 1..last_of(file, s) {
        refs[i] = ref_at(file, s, i) as u32;
    }
}

// Behind the last number that is not above r.
fn upper_ref(refs: &[u32], last: usize, r: usize) -> usize
    requires { last ≤ length refs.now }
    ensures { result ≡ upper_of (λ i. get_or refs.now i 0) last r }
{
    let mut low = 1;
    let mut high = last;
    while low < high {
        let middle = low + (high - low) / 2;
        if r < refs[middle] as usize {
            high = middle;
        } else {
            low = middle + 1;
        }
    }
    low
}

// The last record that stands for r, by the numbers; 0 where there is none.
fn last_ref(file: &[u8], s: Shelf, refs: &[u32], r: usize) -> usize
    requires { Fit s × Filled s file.now refs.now }
    ensures { result ≡ last_found s file.now r }
{
    let end = upper_ref(refs, last_of(file, s), r);
    if end <= 1 {
        return 0;
    }
    let row = end - 1;
    if refs[row] as usize == r { row } else { 0 }
}

// The row in force for a number, by the numbers; 0 where none is.
fn find_ref(file: &[u8], s: Shelf, refs: &[u32], r: usize) -> usize
    requires { Fit s × Filled s file.now refs.now }
    ensures { result ≡ found s file.now r }
{
    in_force(file, s, last_ref(file, s, refs, r))
}

// The row that a key of this kind finds, by the numbers; 0 where the key is zero or finds none.
fn ref_for(file: &[u8], s: Shelf, refs: &[u32], kind: u8, key: u32) -> usize
    requires { Fit s × Filled s file.now refs.now }
    ensures { result ≡ cond (present key) (found s file.now (ref kind key)) 0 }
{
    if key == 0 {
        return 0;
    }
    find_ref(file, s, refs, kind as usize * KIND_UNIT + key as usize)
}

// The same rows, by the numbers: no record is read but those that are found.
pub fn rows_by(file: &[u8], s: Shelf, refs: &[u32], keys: [u32; 7]) -> Found
    requires { Fit s × Filled s file.now refs.now }
    ensures { result.rows ≡ rows_for (found s file.now) (asked_by key_kinds keys) }
{
    let rows = std::array::from_fn(|i| ref_for(file, s, refs, KINDS[i], keys[i]));
    Found { rows }
}
