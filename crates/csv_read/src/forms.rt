// Whether the bytes of a field are what it has to be.
ghost use Rattle.std.specs.Prelude.{◌≡◌, List, [], ◌∷◌, ℕ, ◌+◌, ◌≤◌, ◌<◌, length, get_or, drop};
ghost use Rattle.field.specs.Text.{blank, part};
ghost use Rattle.file_compare.specs.Order.{same};
ghost use Rattle.csv_paf.specs.File.{fields_of, is_postcode, is_outward, is_type, is_indicator, double_form, organisation_form, forms_for};
ghost use Rattle.csv_read.specs.Judged.{no_form};

use crate::fields::field_end;
use field_test::{all_are, are_digits, filled_fault, text_fault};
use file_compare::same_bytes;
use file_record::{byte_of, part_of};

// A byte of a code without its padding, or a space.
fn byte_or_space(o: &[u8], i: usize) -> u8
    ensures { result ≡ get_or o.now i 32 }
{
    if i < o.len() { o[i] } else { 32 }
}

fn is_outward(o: &[u8]) -> bool
    requires { 2 ≤ length o.now }
    ensures { result ≡ is_outward o.now }
{
    let code = [o[0], o[1], byte_or_space(o, 2), byte_or_space(o, 3)];
    let last = o[o.len() - 1];
    (last != 32) & (field_outward::outward_fault(&code) == 0)
}

fn is_postcode(f: &[u8]) -> bool
    ensures { result ≡ is_postcode f.now }
{
    let n = f.len();
    if n < 6 {
        return false;
    }
    if 8 < n {
        return false;
    }
    let outward = is_outward(&f[..n - 4]);
    let inward = field_inward::is_inward(&f[n - 3..]);
    (f[n - 4] == 32) & (outward & inward)
}

fn is_type(f: &[u8]) -> bool
    ensures { result ≡ is_type f.now }
{
    let small = same_bytes(f, b"S");
    let large = same_bytes(f, b"L");
    small | large
}

fn is_indicator(f: &[u8]) -> bool
    ensures { result ≡ is_indicator f.now }
{
    let space = same_bytes(f, b" ");
    let yes = same_bytes(f, b"Y");
    (f.len() == 0) | (space | yes)
}

// A double dependent locality, by whether the dependent one is blank.
fn double_formed(f: &[u8], alone: bool) -> bool
    ensures { (dependent : List ℕ) → alone ≡ blank dependent → result ≡ double_form dependent f.now }
{
    if alone {
        all_are(f, 32)
    } else {
        text_fault(f) == 0
    }
}

// Whether the field two behind the one that begins at a place is the type of a small user.
fn small_ahead(csv: &[u8], start: usize) -> bool
    requires { start ≤ length csv.now }
    ensures { result ≡ same (get_or (fields_of (drop start csv.now)) 2 []) (83 ∷ []) }
{
    let first = field_end(csv, start);
    if byte_of(csv, first) != b',' {
        return false;
    }
    let second = field_end(csv, first + 1);
    if byte_of(csv, second) != b',' {
        return false;
    }
    let third = field_end(csv, second + 1);
    same_bytes(part_of(csv, second + 1, third), b"S")
}

// An organisation's name, by whether the department is blank.
fn organisation_formed(csv: &[u8], start: usize, f: &[u8], alone: bool) -> bool
    requires { start ≤ length csv.now }
    ensures { (department type : List ℕ) → alone ≡ blank department
        → same type (83 ∷ []) ≡ same (get_or (fields_of (drop start csv.now)) 2 []) (83 ∷ [])
        → result ≡ organisation_form department type f.now }
{
    if alone {
        return text_fault(f) == 0;
    }
    if small_ahead(csv, start) {
        return filled_fault(f) == 0;
    }
    text_fault(f) == 0
}

// Whether the n-th field of a row, counted from 0, is well formed, by whether the one before it is blank.
pub fn is_formed(csv: &[u8], start: usize, f: &[u8], n: usize, alone: bool) -> bool
    requires { (n < 16) × (start ≤ length csv.now) }
    ensures { (fields : List (List ℕ)) → alone ≡ blank (get_or ([] ∷ fields) n [])
        → drop n fields ≡ fields_of (drop start csv.now)
        → result ≡ get_or (forms_for fields) n no_form f.now }
{
    match n {
        0 => is_postcode(f),
        1 => filled_fault(f) == 0,
        3 => double_formed(f, alone),
        6 => are_digits(f),
        11 => organisation_formed(csv, start, f, alone),
        12 => are_digits(f),
        13 => is_type(f),
        14 => is_indicator(f),
        15 => field_inward::is_suffix(f),
        _ => text_fault(f) == 0,
    }
}
