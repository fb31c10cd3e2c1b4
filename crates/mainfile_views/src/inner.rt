// The search by halves among the records of an address file.
ghost use Rattle.std.specs.Prelude.{◌≡◌, ◌/◌, ◌<◌, length};
ghost use Rattle.shelf.specs.Search.{upper_of};
ghost use Rattle.std.specs.Ordering.{ordering_index};
ghost use Rattle.mainfile_views.specs.Range.{rank_at, last_of};

use file_record::inner::whole_record;
use file_record::part_of;
use mainfile_record::Address;
use std::cmp::Ordering;

// The place of the trailer.
fn last_of(addresses: &[u8]) -> usize
    ensures { result ≡ last_of addresses.now }
{
    (addresses.len() / Address::WIDTH).saturating_sub(1)
}

// Where an order puts a code: 0 below another, 1 the same, 2 above it.
fn rank_of(order: Ordering) -> usize
    ensures { result ≡ ordering_index order }
{
    match order {
        Ordering::Less => 0,
        Ordering::Equal => 1,
        Ordering::Greater => 2,
    }
}

// How the outward code of record `i` stands to a code.
fn rank_at(addresses: &[u8], code: &[u8], i: usize) -> usize
    requires { i < length addresses.now / 88 }
    ensures { result ≡ rank_at addresses.now code.now i }
{
    let rec = whole_record(addresses, Address::WIDTH, i);
    let outward = part_of(rec, Address::OUTWARD, Address::INWARD);
    rank_of(file_compare::order_of(outward, code))
}

// The first record whose outward code stands above rank `r`, were those that do to stand last.
pub fn bound_in(addresses: &[u8], code: &[u8], r: usize) -> usize
    ensures { result ≡ upper_of (rank_at addresses.now code.now)
        (last_of addresses.now) r }
{
    let mut low = 1;
    let mut high = last_of(addresses);
    while low < high {
        let middle = low + (high - low) / 2;
        if r < rank_at(addresses, code, middle) {
            high = middle;
        } else {
            low = middle + 1;
        }
    }
    low
}
