// Fronts of records compared: their lengths are known when this is compiled, and nothing has to be guessed on the way.
ghost use Rattle.std.specs.Prelude.{◌≡◌, true, ◌≤◌, length};
ghost use Rattle.file_compare.specs.Order.{same, above, SameFront};

use crate::{eight_same, eights, order_of, same_forty};
use field_word::inner::weight_at;

// Whether the first is above the second, which have a front of `i` bytes in common: mostly eight bytes decide.
fn is_above_behind(a: &[u8], b: &[u8], i: usize) -> bool
    requires { SameFront a.now b.now i }
    ensures { result ≡ above a.now b.now }
{
    if i + 8 <= a.len().min(b.len()) {
        let x = weight_at(a, i);
        let y = weight_at(b, i);
        if x != y {
            return y < x;
        }
    }
    order_of(a, b).is_gt()
}

// Whether the first is above the second, of 24 bytes.
pub fn is_above_24(a: &[u8], b: &[u8]) -> bool
    requires { (24 ≤ length a.now) × (24 ≤ length b.now) }
    ensures { result ≡ above a.now b.now }
{
    let second = eights(eight_same(a, b, 8), 0);
    let first = eights(eight_same(a, b, 0), second);
    is_above_behind(a, b, first)
}

// The same for slices of 42 bytes.
pub fn is_above_42(a: &[u8], b: &[u8]) -> bool
    requires { (40 ≤ length a.now) × (40 ≤ length b.now) }
    ensures { result ≡ above a.now b.now }
{
    is_above_behind(a, b, same_forty(a, b))
}

// Whether the first is known to be above the second: its first eight bytes are.
pub fn is_above_8(a: &[u8], b: &[u8]) -> bool
    requires { (8 ≤ length a.now) × (8 ≤ length b.now) }
    ensures { result ≡ true → above a.now b.now ≡ true }
{
    weight_at(b, 0) < weight_at(a, 0)
}

// Whether two slices of 41 bytes are known to be the same, eight bytes at a time.
pub fn is_same_41(a: &[u8], b: &[u8]) -> bool
    requires { (length a.now ≡ 41) × (length b.now ≡ 41) }
    ensures { result ≡ true → same a.now b.now ≡ true }
{
    let front = eight_same(a, b, 0) & eight_same(a, b, 8);
    let middle = eight_same(a, b, 16) & eight_same(a, b, 24);
    front & (middle & (eight_same(a, b, 32) & (a[40] == b[40])))
}
