// Numbers and texts at places of a pack.
ghost use Rattle.std.specs.Prelude.{◌≡◌, ◌+◌, ◌*◌, ◌^◌, ◌≤◌, ◌<◌, length};
ghost use Rattle.pack.specs.Numbers.{number_from, number_at};
ghost use Rattle.pack.specs.Names.{length_at};
ghost use Rattle.pack.specs.Opening.{trailer_number, outward, text_end, text_place, offset_of_point};
ghost use Rattle.pack_read.specs.Laid.{Trailed, RestIn};

use crate::kinds::{PackPoint, PackTrailer};
use crate::layout::Layout;

// What so few bytes say, the most significant first.
fn number_in(s: &[u8]) -> usize
    requires { length s.now ≤ 4 }
    ensures { (result ≡ number_from 0 s.now) × (result < 256 ^ length s.now) }
{
    let mut v = 0;
    for &b in s {
        v = v * 256 + b as usize;
    }
    v
}

// The number in so many bytes at a place.
pub fn number_at(bytes: &[u8], at: usize, width: usize) -> usize
    requires { (at ≤ length bytes.now) × (width ≤ 4) }
    ensures { (result ≡ number_at bytes.now at width) × (result < 256 ^ width) }
{
    number_in(file_record::part_of(bytes, at, at + width))
}

// The same where all these bytes are there: no end is looked for, so that they are read at once.
pub fn number_within(bytes: &[u8], at: usize, width: usize) -> usize
    requires { (at + width ≤ length bytes.now) × (width ≤ 4) }
    ensures { (result ≡ number_at bytes.now at width) × (result < 256 ^ width) }
{
    number_in(&bytes[at..at + width])
}

// Behind the text that starts at a place.
pub fn text_end(rows: &[u8], at: usize) -> usize
    requires { at + 256 < 2 ^ 64 }
    ensures { (result ≡ text_end rows.now at) × (result ≤ at + 256) }
{
    at + 1 + file_record::byte_of(rows, at) as usize
}

// Where the n-th text from a place on stands, counted from 0.
pub fn text_place(rows: &[u8], from: usize, n: usize) -> usize
    requires { from + 256 * n < 2 ^ 64 }
    ensures { (result ≡ text_place rows.now n from) × (result ≤ from + 256 * n) }
{
    let mut at = from;
    for _ in 0..n {
        at = text_end(rows, at);
    }
    at
}

// A number of the trailer, by its place there.
pub fn trailer_number(pack: &[u8], layout: Layout, field: usize) -> usize
    requires { Trailed pack.now layout × (field ≤ length_at) }
    ensures { (result ≡ trailer_number pack.now field) × (result < 4294967296) }
{
    number_within(pack, pack.len() - layout.trailer + field, 4)
}

// The outward code of the trailer, as a part of the pack.
pub fn outward_of(pack: &[u8], layout: Layout) -> &[u8]
    requires { Trailed pack.now layout }
    ensures { result.now ≡ outward pack.now }
{
    let at = pack.len() - layout.trailer;
    &pack[at + PackTrailer::OUTWARD..at + PackTrailer::LENGTH]
}

// The n-th offset of the rest at a place, counted from 0.
pub fn offset_of(pack: &[u8], rest: usize, n: usize) -> usize
    requires { RestIn pack.now rest × (n ≤ 7) }
    ensures { (result ≡ offset_of_point pack.now rest n) × (result < 4294967296) }
{
    number_within(pack, rest + PackPoint::OFFSETS + 4 * n, 4)
}
