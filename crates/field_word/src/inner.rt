// Bytes at a place as one number: the caller knows that they are there. One load and one comparison then do for all of them.
ghost use Rattle.std.specs.Prelude.{◌≡◌, ℕ, ◌+◌, ◌<◌, ◌≤◌, true, List, length, slice_index};
ghost use Rattle.field.specs.Test.{every, only};
ghost use Rattle.field.specs.Digits.{digit, value_from};
ghost use Rattle.field.specs.Text.{part};
ghost use Rattle.field_word.specs.Word.{weight, digits_of, Word, Weight};

// Spaces.
const FOUR_BLANK: usize = 538_976_288;

const EIGHT_BLANK: usize = 2_314_885_530_818_453_536;

// The digit 0.
const EIGHT_ZERO: usize = 3_472_328_296_227_680_304;

// The highest bit of each byte, and what brings all but digits there.
const EIGHT_HIGH: usize = 9_259_542_123_273_814_144;

const EIGHT_MORE: usize = 8_536_140_394_893_047_414;

fn byte_at(s: &[u8], i: usize) -> usize
    requires { i + 1 ≤ length s.now }
    ensures { (result ≡ slice_index s.now i) × (result < 256) }
{
    s[i] as usize
}

// Four bytes, the first the least.
fn four_at(s: &[u8], i: usize) -> usize
    requires { i + 4 ≤ length s.now }
    ensures { Word (part s.now i (i + 4)) result }
{
    let low = byte_at(s, i) + byte_at(s, i + 1) * 256;
    low + byte_at(s, i + 2) * 65_536 + byte_at(s, i + 3) * 16_777_216
}

// Eight bytes, the first the least.
pub fn eight_at(s: &[u8], i: usize) -> usize
    requires { i + 8 ≤ length s.now }
    ensures { Word (part s.now i (i + 8)) result }
{
    four_at(s, i) + four_at(s, i + 4) * 4_294_967_296
}

// Whether the four bytes from `i` on are spaces.
pub fn four_blank(s: &[u8], i: usize) -> bool
    requires { i + 4 ≤ length s.now }
    ensures { result ≡ only 32 (part s.now i (i + 4)) }
{
    four_at(s, i) == FOUR_BLANK
}

// Whether the eight bytes from `i` on are spaces.
pub fn eight_blank(s: &[u8], i: usize) -> bool
    requires { i + 8 ≤ length s.now }
    ensures { result ≡ only 32 (part s.now i (i + 8)) }
{
    eight_at(s, i) == EIGHT_BLANK
}

// The bytes of a number in the other order.
fn turned(w: usize) -> usize
    ensures { (s : List ℕ) → length s ≡ 8 → Word s w → result ≡ weight s }
{
    let b = w / 256;
    let c = b / 256;
    let d = c / 256;
    let e = d / 256;
    let f = e / 256;
    let g = f / 256;
    let h = g / 256;
    let high = (w % 256) * 16_777_216 + (b % 256) * 65_536 + (c % 256) * 256 + d % 256;
    let low = (e % 256) * 16_777_216 + (f % 256) * 65_536 + (g % 256) * 256 + h % 256;
    high * 4_294_967_296 + low
}

// Eight bytes, the first the weightiest.
pub fn weight_at(s: &[u8], i: usize) -> usize
    requires { i + 8 ≤ length s.now }
    ensures { Weight (part s.now i (i + 8)) result }
{
    turned(eight_at(s, i))
}

// Whether the eight bytes from `i` on are zeros.
pub fn eight_zero(s: &[u8], i: usize) -> bool
    requires { i + 8 ≤ length s.now }
    ensures { result ≡ only 48 (part s.now i (i + 8)) }
{
    eight_at(s, i) == EIGHT_ZERO
}

// Bits that are 0 where the eight bytes of a number are digits: each of these differs from a 0 by 9 at most.
fn others_in(w: usize) -> usize
    ensures { (s : List ℕ) → length s ≡ 8 → Word s w → result ≡ 0 → every digit s ≡ true }
{
    let from_zero = w ^ EIGHT_ZERO;
    let more = std::num::wrapping_add_usize(from_zero, EIGHT_MORE);
    (from_zero & EIGHT_HIGH) | (more & EIGHT_HIGH)
}

// Whether the eight bytes from `i` on are known to be digits.
pub fn are_digits(s: &[u8], i: usize) -> bool
    requires { i + 8 ≤ length s.now }
    ensures { result ≡ true → every digit (part s.now i (i + 8)) ≡ true }
{
    others_in(eight_at(s, i)) == 0
}

// What eight digits say: pairs of them first, and these four together.
pub fn value_at(s: &[u8], i: usize) -> usize
    requires { (i + 8 ≤ length s.now) × (every digit (part s.now i (i + 8)) ≡ true) }
    ensures { result ≡ value_from 0 (part s.now i (i + 8)) }
{
    let digits = eight_at(s, i) - EIGHT_ZERO;
    let first = digits * 10 + digits / 256;
    let second = first / 65_536;
    let third = second / 65_536;
    let fourth = third / 65_536;
    first % 256 * 1_000_000 + second % 256 * 10_000 + (third % 256 * 100 + fourth % 256)
}

// Two digits as the bytes that they are, the first the weightiest.
fn two_digits(v: usize) -> usize
    requires { v < 100 }
    ensures { (result ≡ weight (digits_of 2 v)) × (result < 65_536) }
{
    (48 + v / 10) * 256 + 48 + v % 10
}

fn four_digits(v: usize) -> usize
    requires { v < 10_000 }
    ensures { (result ≡ weight (digits_of 4 v)) × (result < 4_294_967_296) }
{
    two_digits(v / 100) * 65_536 + two_digits(v % 100)
}

// Eight digits as the bytes that they are.
pub fn weight_of(v: usize) -> usize
    requires { v < 100_000_000 }
    ensures { result ≡ weight (digits_of 8 v) }
{
    four_digits(v / 10_000) * 4_294_967_296 + four_digits(v % 10_000)
}
