// Outward codes, of any bytes and any length; the definitions of inward codes and delivery point suffixes too.
// Each test answers the byte at which its first fault stands, counted from 1, and 0 where there is none.
#![tactic(auto)]

pub mod inner;

ghost use Rattle.std.specs.Prelude.{◌≡◌, [], ◌∷◌, length};
ghost use Rattle.field_outward.specs.Outward.{class, allowed, outward_fault};
ghost use Rattle.field_outward.specs.Letters.{marked};
ghost use Rattle.field_outward.specs.Classes.{number_of};

use inner::unless;

// What a byte of an outward code is: padding, a letter, a digit, or none of these.
#[derive(Clone, Copy, PartialEq, Eq)]
enum Class {
    Padding,
    Letter,
    Digit,
    Other,
}

use Class::{Digit, Letter, Other, Padding};

// The class of a byte.
#[tactic(auto, unfolding(crate::specs::Outward::class))]
fn class_of(b: u8) -> Class
    ensures { number_of result ≡ class b }
{
    match b {
        b'A'..=b'Z' => Letter,
        b'0'..=b'9' => Digit,
        b' ' => Padding,
        _ => Other,
    }
}

// Whether a byte is a letter that has a plus in a row of 26 marks, A to Z.
fn is_marked(row: &[u8], b: u8) -> bool
    requires { length row.now ≡ 26 }
    ensures { result ≡ marked row.now b }
{
    field::is_letter(b) && row[usize::from(b - b'A')] == b'+'
}

// Whether a letter may stand behind so many letters of an outward code: a row for the first, the second and the third.
#[tactic(auto, unfolding(crate::specs::Outward::allowed))]
fn is_allowed(before: usize, b: u8) -> bool
    ensures { result ≡ allowed before b }
{
    match before {
        //               ABCDEFGHIJKLMNOPQRSTUVWXYZ
        0 => is_marked(b"++++++++++++++++-++++-+-++", b),
        1 => is_marked(b"++++++++-++++++++++++++++-", b),
        _ => is_marked(b"++++++++-++-++-+-++++++++-", b),
    }
}

// The fault of a code of four bytes. The classes of the bytes decide the pattern, and with it where the letters stand.
#[tactic(auto, using(crate::proofs::Codes::by_class))]
fn pattern_fault(a: u8, b: u8, c: u8, d: u8) -> usize
    ensures { result ≡ outward_fault (a ∷ b ∷ c ∷ d ∷ []) }
{
    let first = is_allowed(0, a);
    match (class_of(a), class_of(b), class_of(c), class_of(d)) {
        // AN and ANN
        (Letter, Digit, Padding | Digit, Padding) => unless(first, 1, 0),
        // AAN and AANN
        (Letter, Letter, Digit, Padding | Digit) => {
            unless(first, 1, unless(is_allowed(1, b), 2, 0))
        }
        // ANA
        (Letter, Digit, Letter, Padding) => unless(first, 1, unless(is_allowed(1, c), 3, 0)),
        // AANA
        (Letter, Letter, Digit, Letter) => unless(
            first,
            1,
            unless(is_allowed(1, b), 2, unless(is_allowed(2, d), 4, 0)),
        ),
        _ => 1,
    }
}

// The first fault of an outward code, padded with spaces to 4 bytes.
pub fn outward_fault(code: &[u8]) -> usize
    ensures { result ≡ outward_fault code.now }
{
    if code.len() != 4 {
        return 1;
    }
    pattern_fault(code[0], code[1], code[2], code[3])
}
