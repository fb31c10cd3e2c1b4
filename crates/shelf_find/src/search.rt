// The search by halves among the records of a shelf.
ghost use Rattle.std.specs.Prelude.{◌≡◌, true, ℕ, ◌+◌, ◌≤◌, ◌<◌, ltb, length};
ghost use Rattle.field.specs.Test.{every};
ghost use Rattle.field.specs.Digits.{digit, value};
ghost use Rattle.field.specs.Text.{part};
ghost use Rattle.shelf.specs.Shelf.{Fit, last_of, ref_at};
ghost use Rattle.shelf.specs.Search.{upper_of};
ghost use Rattle.shelf.proofs.Search.{Left};
ghost use Rattle.shelf_find.specs.Nine.{Nine};

use field::is_digit;
use field_word::inner::{are_digits, weight_at, weight_of};
use shelf::Shelf;
use shelf_read::inner::{last_of, record_of, ref_at};

// What the first of nine digits outweighs.
const EIGHT: usize = 100_000_000;

// Behind the last record whose number is not above r, looked for from `from` up to `to`.
fn upper_from(file: &[u8], s: Shelf, r: usize, from: usize, to: usize) -> usize
    requires { Fit s × Left (ref_at s file.now) (last_of s file.now) r from to }
    ensures { result ≡ upper_of (ref_at s file.now) (last_of s file.now) r }
{
    let mut low = from;
    let mut high = to;
    while low < high {
        let middle = low + (high - low) / 2;
        if r < ref_at(file, s, middle) {
            high = middle;
        } else {
            low = middle + 1;
        }
    }
    low
}

// Whether the nine bytes from `at` on are known to be digits.
fn are_nine(rec: &[u8], at: usize) -> bool
    requires { at + 9 ≤ length rec.now }
    ensures { result ≡ true → every digit (part rec.now at (at + 9)) ≡ true }
{
    is_digit(rec[at]) & are_digits(rec, at + 1)
}

// Whether nine digits say more than a number: by the first of them, and where that is the number's, by the weight of the
// others.
fn is_past(rec: &[u8], at: usize, first: usize, others: usize) -> bool
    requires { at + 9 ≤ length rec.now }
    ensures { (r : ℕ) → Nine r first others → every digit (part rec.now at (at + 9)) ≡ true
        → result ≡ ltb r (value (part rec.now at (at + 9))) }
{
    let here = rec[at] as usize;
    (first < here) | ((first == here) & (others < weight_at(rec, at + 1)))
}

// The same search on a shelf whose numbers are nine digits: no number is read, its digits are compared as they stand.
fn upper_by_digits(file: &[u8], s: Shelf, r: usize) -> usize
    requires { Fit s × (s.digits ≡ 9) × (s.base ≡ 0) × (r < 1_000_000_000) }
    ensures { result ≡ upper_of (ref_at s file.now) (last_of s file.now) r }
{
    let first = 48 + r / EIGHT;
    let others = weight_of(r % EIGHT);
    let key = s.key;
    let mut low = 1;
    let mut high = last_of(file, s);
    while low < high {
        let middle = low + (high - low) / 2;
        let rec = record_of(file, s, middle);
        if !are_nine(rec, key) {
            return upper_from(file, s, r, low, high);
        }
        if is_past(rec, key, first, others) {
            high = middle;
        } else {
            low = middle + 1;
        }
    }
    low
}

// Behind the last record whose number is not above r.
pub fn upper_bound(file: &[u8], s: Shelf, r: usize) -> usize
    requires { Fit s }
    ensures { result ≡ upper_of (ref_at s file.now) (last_of s file.now) r }
{
    if (s.digits == 9) & ((s.base == 0) & (r < 1_000_000_000)) {
        upper_by_digits(file, s, r)
    } else {
        upper_from(file, s, r, 1, last_of(file, s))
    }
}
