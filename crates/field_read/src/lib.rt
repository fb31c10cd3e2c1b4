// What a field says: the value of a numeric one; of another its text without padding, and whether that is numeric-like.
#![tactic(auto)]

ghost use Rattle.std.specs.Prelude.{◌≡◌, false, cond, ◌-◌, ◌≤◌, eqb, length};
ghost use Rattle.field.specs.Test.{every};
ghost use Rattle.field.specs.Digits.{digit_value, zero_digit, value_from, value};
ghost use Rattle.field.specs.Text.{blank, part, text_in, numeric_like};
ghost use Rattle.field_read.specs.Padding.{Padded};

use field::{is_digit, is_letter, lesser};
use field_word::inner::{are_digits, eight_blank, four_blank, value_at};

fn digit_value(b: u8) -> usize
    ensures { result ≡ digit_value b }
{
    if is_digit(b) {
        usize::from(b - b'0')
    } else {
        0
    }
}

fn nine_digits(s: &[u8]) -> usize
    requires { length s.now ≤ 9 }
    ensures { result ≡ value_from 0 s.now }
{
    let mut v = 0;
    for &b in s {
        v = v * 10 + digit_value(b);
    }
    v
}

// What a numeric field says, digit by digit.
fn value_by_digits(s: &[u8]) -> usize
    ensures { result ≡ value s.now }
{
    if 9 < s.len() {
        nine_digits(&s[..9])
    } else {
        nine_digits(s)
    }
}

// The same of eight bytes, which are mostly digits.
fn value_of_eight(s: &[u8]) -> usize
    requires { length s.now ≡ 8 }
    ensures { result ≡ value s.now }
{
    if are_digits(s, 0) {
        value_at(s, 0)
    } else {
        value_by_digits(s)
    }
}

// The same of nine bytes.
fn value_of_nine(s: &[u8]) -> usize
    requires { length s.now ≡ 9 }
    ensures { result ≡ value s.now }
{
    if are_digits(s, 1) {
        digit_value(s[0]) * 100_000_000 + value_at(s, 1)
    } else {
        value_by_digits(s)
    }
}

// What a numeric field says: those of eight and of nine bytes are read at once.
pub fn value_of(s: &[u8]) -> usize
    ensures { result ≡ value s.now }
{
    match s.len() {
        8 => value_of_eight(s),
        9 => value_of_nine(s),
        _ => value_by_digits(s),
    }
}

// Whether each byte says 0 as a digit. No byte ends the loop, so that many are taken at once.
fn all_zero(s: &[u8]) -> bool
    ensures { result ≡ every zero_digit s.now }
{
    let mut some = false;
    for &b in s {
        some |= digit_value(b) != 0;
    }
    !some
}

// Whether a numeric field says 0: this takes no product.
pub fn says_zero(s: &[u8]) -> bool
    ensures { result ≡ eqb (value s.now) 0 }
{
    if 9 < s.len() {
        all_zero(&s[..9])
    } else {
        all_zero(s)
    }
}

// The text that a record has from `start` up to `end`, which lies in it, byte by byte.
#[tactic(auto, using(crate::proofs::Padding::from_end))]
fn text_by_bytes(rec: &[u8], start: usize, end: usize) -> &[u8]
    requires { end ≤ length rec.now }
    ensures { result.now ≡ text_in rec.now start end }
{
    for i in (start..end).rev() {
        if rec[i] != b' ' {
            return &rec[start..i + 1];
        }
    }
    &rec[..0]
}

// So many bytes less, where these are spaces.
fn less(end: usize, bytes: usize, blank: bool) -> usize
    requires { bytes ≤ end }
    ensures { result ≡ cond blank (end - bytes) end }
{
    if blank { end - bytes } else { end }
}

// Where the padding of a text begins, of whose last eight bytes some are no spaces: four, two and one of them are asked, so
// that nothing has to be guessed.
fn padded_from(rec: &[u8], end: usize) -> usize
    requires { (8 ≤ end) × (end ≤ length rec.now) × (blank (part rec.now (end - 8) end) ≡ false) }
    ensures { Padded rec.now end 1 result }
{
    let four = less(end, 4, four_blank(rec, end - 4));
    let two = less(four, 2, (rec[four - 2] == b' ') & (rec[four - 1] == b' '));
    less(two, 1, rec[two - 1] == b' ')
}

// The text that a record has from `start` up to `end`, as a part of the record, its end before the padding. Eight bytes of
// padding are passed over at once.
pub fn read_text(rec: &[u8], start: usize, end: usize) -> &[u8]
    ensures { result.now ≡ text_in rec.now start end }
{
    let mut e = lesser(end, rec.len());
    if e < start {
        return &rec[..0];
    }
    let floor = start + 8;
    while floor <= e {
        if !eight_blank(rec, e - 8) {
            let from = padded_from(rec, e);
            return &rec[start..from];
        }
        e -= 8;
    }
    text_by_bytes(rec, start, e)
}

pub fn is_numeric_like(s: &[u8]) -> bool
    ensures { result ≡ numeric_like s.now }
{
    let n = s.len();
    if n < 2 {
        return n == 1;
    }
    let last = s[n - 1];
    is_digit(s[0]) && (is_digit(last) | (is_digit(s[n - 2]) & is_letter(last)))
}
