// What the labels of rows have to know of fields and bytes.
ghost use Rattle.std.specs.Prelude.{◌≡◌, not, eqb};
ghost use Rattle.field.specs.Test.{every};

pub use crate::fields::field_end;

// Whether no byte is `b`. No byte ends the loop, so that many are taken at once.
pub fn has_none(s: &[u8], b: u8) -> bool
    ensures { result ≡ every (λ x. not (eqb x b)) s.now }
{
    let mut bad = false;
    for &x in s {
        bad |= x == b;
    }
    !bad
}
