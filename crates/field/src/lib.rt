// Bytes and numbers compared; the definitions of digits, text fields and numeric-like texts, and their laws.
#![tactic(auto)]

ghost use Rattle.std.specs.Prelude.{◌≡◌, min};
ghost use Rattle.field.specs.Digits.{digit};
ghost use Rattle.field.specs.Text.{letter};

pub fn is_digit(b: u8) -> bool
    ensures { result ≡ digit b }
{
    (48 <= b) & (b <= 57)
}

pub fn is_letter(b: u8) -> bool
    ensures { result ≡ letter b }
{
    (65 <= b) & (b <= 90)
}

// The lesser of two numbers.
pub fn lesser(a: usize, b: usize) -> usize
    ensures { result ≡ min a b }
{
    if a < b { a } else { b }
}
