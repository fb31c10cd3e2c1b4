// Bytes compared, many at a time.
#![tactic(auto)]

mod above;
pub mod inner;

ghost use Rattle.std.specs.Prelude.{◌≡◌, true, cond, ◌+◌, ◌≤◌, length, drop};
ghost use Rattle.std.specs.Ordering.{ordering_then};
ghost use Rattle.file_compare.specs.Order.{order, ordering, same, SameFront};

use field_word::inner::{eight_at, weight_at};
use std::cmp::Ordering;

// Whether the eight bytes from `i` on are the same in both.
fn eight_same(a: &[u8], b: &[u8], i: usize) -> bool
    requires { (i + 8 ≤ length a.now) × (i + 8 ≤ length b.now) }
    ensures { result ≡ true → order (drop i a.now) (drop i b.now)
        ≡ order (drop (i + 8) a.now) (drop (i + 8) b.now) }
{
    eight_at(a, i) == eight_at(b, i)
}

// A front that is the same in both, by eights.
fn same_front(a: &[u8], b: &[u8]) -> usize
    ensures { SameFront a.now b.now result }
{
    let n = a.len().min(b.len()) / 8;
    for k in 0..n {
        if !eight_same(a, b, k * 8) {
            return k * 8;
        }
    }
    n * 8
}

// A front by eights: eight bytes and what is the same behind them, or nothing.
fn eights(same: bool, rest: usize) -> usize
    requires { rest ≤ 32 }
    ensures { (result ≡ cond same (8 + rest) 0) × (result ≤ 8 + rest) }
{
    if same { 8 + rest } else { 0 }
}

// The same of the first forty bytes. None of them ends it, so that nothing has to be guessed on the way.
fn same_forty(a: &[u8], b: &[u8]) -> usize
    requires { (40 ≤ length a.now) × (40 ≤ length b.now) }
    ensures { SameFront a.now b.now result }
{
    let fifth = eights(eight_same(a, b, 32), 0);
    let fourth = eights(eight_same(a, b, 24), fifth);
    let third = eights(eight_same(a, b, 16), fourth);
    let second = eights(eight_same(a, b, 8), third);
    eights(eight_same(a, b, 0), second)
}

// A front that is the same in both.
fn front_of(a: &[u8], b: &[u8]) -> usize
    ensures { SameFront a.now b.now result }
{
    if 40 <= a.len().min(b.len()) {
        same_forty(a, b)
    } else {
        same_front(a, b)
    }
}

// How the eight bytes from `i` on compare: where they are the same, what is behind them decides.
fn eight_order(a: &[u8], b: &[u8], i: usize) -> Ordering
    requires { (i + 8 ≤ length a.now) × (i + 8 ≤ length b.now) }
    ensures { ordering (order (drop i a.now) (drop i b.now))
        ≡ ordering_then result (ordering (order (drop (i + 8) a.now) (drop (i + 8) b.now))) }
{
    weight_at(a, i).cmp(&weight_at(b, i))
}

// How two slices compare as bytes.
pub fn order_of(a: &[u8], b: &[u8]) -> Ordering
    ensures { result ≡ ordering (order a.now b.now) }
{
    let front = front_of(a, b);
    let x = &a[front..];
    let y = &b[front..];
    let n = x.len().min(y.len()) / 8;
    for k in 0..n {
        let here = eight_order(x, y, k * 8);
        if here.is_ne() {
            return here;
        }
    }
    x[n * 8..].cmp(&y[n * 8..])
}

// Whether two slices are the same. No byte ends the loop, so that many are taken at once.
pub fn same_bytes(a: &[u8], b: &[u8]) -> bool
    ensures { result ≡ same a.now b.now }
{
    if a.len() != b.len() {
        return false;
    }
    let mut other = false;
    for (x, y) in a.iter().zip(b) {
        other |= *x != *y;
    }
    !other
}
