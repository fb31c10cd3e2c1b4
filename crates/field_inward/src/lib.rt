// Inward codes and delivery point suffixes, of any bytes and any length.
// Each test answers the byte at which its first fault stands, counted from 1, and 0 where there is none.
#![tactic(auto)]

ghost use Rattle.std.specs.Prelude.{◌≡◌, eqb};
ghost use Rattle.field_outward.specs.Inward.{inward_letter, inward_fault, suffix_fault};

use field_outward::inner::unless;

// Whether a byte is a letter that may stand in an inward code.
#[tactic(auto, unfolding(field_outward::specs::Inward::inward_letter))]
fn is_inward_letter(b: u8) -> bool
    ensures { result ≡ inward_letter b }
{
    field::is_letter(b) & !matches!(b, b'C' | b'I' | b'K' | b'M' | b'O' | b'V')
}

// The first fault of an inward code.
pub fn inward_fault(code: &[u8]) -> usize
    ensures { result ≡ inward_fault code.now }
{
    if code.len() != 3 {
        return 1;
    }
    let letters = unless(
        is_inward_letter(code[1]),
        2,
        unless(is_inward_letter(code[2]), 3, 0),
    );
    unless(field::is_digit(code[0]), 1, letters)
}

// The first fault of a delivery point suffix.
pub fn suffix_fault(suffix: &[u8]) -> usize
    ensures { result ≡ suffix_fault suffix.now }
{
    if suffix.len() != 2 {
        return 1;
    }
    unless(
        field::is_digit(suffix[0]),
        1,
        unless(field::is_letter(suffix[1]), 2, 0),
    )
}

// Whether an inward code has no fault: this looks for no place.
pub fn is_inward(code: &[u8]) -> bool
    ensures { result ≡ eqb (inward_fault code.now) 0 }
{
    if code.len() != 3 {
        return false;
    }
    field::is_digit(code[0]) & (is_inward_letter(code[1]) & is_inward_letter(code[2]))
}

// Whether a delivery point suffix has no fault.
pub fn is_suffix(suffix: &[u8]) -> bool
    ensures { result ≡ eqb (suffix_fault suffix.now) 0 }
{
    if suffix.len() != 2 {
        return false;
    }
    field::is_digit(suffix[0]) & field::is_letter(suffix[1])
}
