// Whether a field is well formed: what is tested alike in every record.
// Each test of a field answers the byte at which its first fault stands, counted from 1, and 0 where there is none.
#![tactic(auto)]

ghost use Rattle.std.specs.Prelude.{◌≡◌, not};
ghost use Rattle.field.specs.Test.{member, every, only, first_fault};
ghost use Rattle.field.specs.Digits.{digit, digits_fault};
ghost use Rattle.field.specs.Text.{text_byte, starts_blank, text_fault, filled_fault};
ghost use Rattle.field_test.specs.Pattern.{digits_where};

use field::lesser;

// Whether `b` stands outside low to high, or within from to to.
fn outside(b: u8, low: u8, high: u8, from: u8, to: u8) -> bool
    ensures { result ≡ not (member low high from to b) }
{
    (b < low) | (high < b) | ((from <= b) & (b <= to))
}

// Whether every byte stands in low to high and not in from to to. No byte ends the loop, so that many are taken at once.
fn all_in(s: &[u8], low: u8, high: u8, from: u8, to: u8) -> bool
    ensures { result ≡ every (member low high from to) s.now }
{
    let mut bad = false;
    for &b in s {
        bad |= outside(b, low, high, from, to);
    }
    !bad
}

// The place of the first byte that stands outside low to high, or in from to to.
fn first_out(s: &[u8], low: u8, high: u8, from: u8, to: u8) -> usize
    ensures { result ≡ first_fault (member low high from to) s.now }
{
    for (i, &b) in s.iter().enumerate() {
        if outside(b, low, high, from, to) {
            return i + 1;
        }
    }
    0
}

// The same, all bytes tested first: the place is looked for only where there is a fault.
fn fault_of(s: &[u8], low: u8, high: u8, from: u8, to: u8) -> usize
    ensures { result ≡ first_fault (member low high from to) s.now }
{
    if all_in(s, low, high, from, to) {
        0
    } else {
        first_out(s, low, high, from, to)
    }
}

// Whether every byte is `b`.
pub fn all_are(s: &[u8], b: u8) -> bool
    ensures { result ≡ only b s.now }
{
    all_in(s, b, b, 1, 0)
}

// The first byte of a numeric field that is no digit.
pub fn digits_fault(s: &[u8]) -> usize
    ensures { result ≡ digits_fault s.now }
{
    fault_of(s, b'0', b'9', 1, 0)
}

// Whether a text begins with a space, or has no byte at all.
pub fn starts_blank(s: &[u8]) -> bool
    ensures { result ≡ starts_blank s.now }
{
    s.is_empty() || s[0] == b' '
}

// The first byte that may stand in no text.
fn text_bytes_fault(s: &[u8]) -> usize
    ensures { result ≡ first_fault text_byte s.now }
{
    fault_of(s, b' ', b'~', b'a', b'z')
}

// The first fault of a text that may be blank.
pub fn text_fault(s: &[u8]) -> usize
    ensures { result ≡ text_fault s.now }
{
    if starts_blank(s) {
        if all_are(s, b' ') { 0 } else { 1 }
    } else {
        text_bytes_fault(s)
    }
}

// The first fault of a text that may not be blank.
pub fn filled_fault(s: &[u8]) -> usize
    ensures { result ≡ filled_fault s.now }
{
    if starts_blank(s) {
        1
    } else {
        text_bytes_fault(s)
    }
}

// Whether a digit stands wherever the pattern has a 9. No byte ends the loop, so that many are taken at once.
pub fn digits_where(s: &[u8], pattern: &[u8]) -> bool
    ensures { result ≡ digits_where s.now pattern.now }
{
    let mut bad = false;
    for i in 0..lesser(s.len(), pattern.len()) {
        bad |= (pattern[i] == b'9') & outside(s[i], b'0', b'9', 1, 0);
    }
    !bad
}

// Whether every byte is a digit: this looks for no place.
pub fn are_digits(s: &[u8]) -> bool
    ensures { result ≡ every digit s.now }
{
    all_in(s, b'0', b'9', 1, 0)
}

// Whether every byte may stand in a text: this looks for no place.
pub fn are_text(s: &[u8]) -> bool
    ensures { result ≡ every text_byte s.now }
{
    all_in(s, b' ', b'~', b'a', b'z')
}
