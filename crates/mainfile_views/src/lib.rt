// The addresses of an outward code: they stand together, since the file rises by postcode, and are found by halves.
#![tactic(auto)]

pub mod inner;

ghost use Rattle.std.specs.Prelude.{◌≡◌, ◌-◌};
ghost use Rattle.mainfile_views.specs.Range.{views_in, first_in, end_in, many_in, live_at, live_answer};

use inner::bound_in;
use mainfile_record::Address;
use refusal::{Answer, Reason};

// The first record whose outward code is not below this one: where its addresses begin, in an accepted file.
pub fn first_in(addresses: &[u8], code: &[u8]) -> usize
    ensures { result ≡ first_in addresses.now code.now }
{
    bound_in(addresses, code, 0)
}

// The first record behind them.
pub fn end_in(addresses: &[u8], code: &[u8]) -> usize
    ensures { result ≡ end_in addresses.now code.now }
{
    bound_in(addresses, code, 1)
}

// Records that stand together: the first of them, and how many they are.
#[derive(Clone, Copy)]
pub struct Stretch {
    pub first: usize,
    pub many: usize,
}

// How far a number is above another; 0 where it is not.
fn above(n: usize, m: usize) -> usize
    ensures { result ≡ n - m }
{
    if m < n { n - m } else { 0 }
}

// All addresses of a file.
pub fn all_in(addresses: &[u8]) -> Stretch
    ensures first { result.first ≡ 1 }
    ensures many { result.many ≡ views_in addresses.now }
{
    Stretch {
        first: 1,
        many: above(addresses.len() / Address::WIDTH, 2),
    }
}

// The addresses of a code, in an accepted file.
pub fn stretch_in(addresses: &[u8], code: &[u8]) -> Stretch
    ensures first { result.first ≡ first_in addresses.now code.now }
    ensures many { result.many ≡ many_in addresses.now code.now }
{
    let first = first_in(addresses, code);
    let end = end_in(addresses, code);
    Stretch {
        first,
        many: above(end, first),
    }
}

// How many addresses a code has.
pub fn live_in(addresses: &[u8], code: &[u8]) -> Answer
    ensures { result ≡ live_answer addresses.now code.now }
{
    file_check::check_main(file::MainKind::Addresses, addresses)?;
    live_at(addresses, code)
}

// The same of an accepted file.
fn live_at(addresses: &[u8], code: &[u8]) -> Answer
    ensures { result ≡ live_at addresses.now code.now }
{
    if field_outward::outward_fault(code) == 0 {
        let found = stretch_in(addresses, code);
        Ok(found.many)
    } else {
        Err(Reason::BadCode.into())
    }
}
