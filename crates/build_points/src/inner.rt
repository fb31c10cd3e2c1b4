// The point of a delivery point whose fields lie within the slice that holds it.
ghost use Rattle.std.specs.Prelude.{◌≡◌, ◌+◌, ◌≤◌, length};
ghost use Rattle.label.specs.Put.{Put};
ghost use Rattle.pack.specs.Layout.{mark_of};
ghost use Rattle.build.specs.Bytes.{key_offset, offsets_for, organisation_offset, front_in, numbers_in, plain_in, point_with};
ghost use Rattle.build.specs.Within.{FieldsWithin};

use build_bytes::inner::{above, part_at, short_at, start_of, word_at, words_at};
use label_pieces::inner::byte_at;
use pack_read::PackPoint;
use source::DeliveryPoint;

// Where the rows of the seven keys of a delivery point stand, in offset order; `PackPoint::ABSENT` where a key is zero.
#[derive(Clone, Copy)]
pub struct Offsets {
    pub of_keys: [usize; 7],
}

// Where the row of a key stands.
fn key_offset(starts: &[u32], key: u32, row: usize) -> usize
    ensures { result ≡ key_offset starts.now key row }
{
    if key == 0 {
        return PackPoint::ABSENT;
    }
    above(start_of(starts, row), 1)
}

// Where the rows of the seven keys stand, by the starts of all rows.
pub fn key_offsets(starts: &[u32], keys: [u32; 7], rows: [usize; 7]) -> Offsets
    ensures { result.of_keys ≡ offsets_for starts.now keys rows }
{
    let of_keys = std::array::from_fn(|i| key_offset(starts, keys[i], rows[i]));
    Offsets { of_keys }
}

// Where the row of an organisation stands, `row` being the next one's.
fn organisation_offset(p: DeliveryPoint, row: usize) -> usize
    ensures { result ≡ organisation_offset p row }
{
    if p.organised { row } else { PackPoint::ABSENT }
}

// "Y or space".
fn mark_of(concatenation: bool) -> u8
    ensures { result ≡ mark_of concatenation }
{
    if concatenation { b'Y' } else { b' ' }
}

// Postcode and suffix.
fn front_at(own: &[u8], p: DeliveryPoint, at: usize, out: &mut [u8]) -> usize
    requires { FieldsWithin own.now p × (at + length (front_in own.now p) ≤ length out.old) }
    ensures { Put (front_in own.now p) out.old at result out.new }
{
    let i = part_at(own, p.postcode, p.postcode + 7, at, out);
    part_at(own, p.suffix, p.suffix + 2, i, out)
}

// Type, keys and number.
fn numbers_at(p: DeliveryPoint, at: usize, out: &mut [u8]) -> usize
    requires { at + 11 ≤ length out.old }
    ensures { Put (numbers_in p) out.old at result out.new }
{
    let i = byte_at(p.postcode_type, at, out);
    let j = word_at(p.address_key as usize, i, out);
    let k = word_at(p.organisation_key as usize, j, out);
    short_at(p.number as usize, k, out)
}

// The same, concatenation and PO box.
fn plain_at(own: &[u8], p: DeliveryPoint, at: usize, out: &mut [u8]) -> usize
    requires { FieldsWithin own.now p × (at + length (plain_in own.now p) ≤ length out.old) }
    ensures { Put (plain_in own.now p) out.old at result out.new }
{
    let i = numbers_at(p, at, out);
    let j = byte_at(mark_of(p.concatenation), i, out);
    part_at(own, p.po_box, p.po_box + 6, j, out)
}

// The point of a delivery point, its organisation's row standing at `row` if it has one.
pub fn point_at(
    own: &[u8],
    p: DeliveryPoint,
    offsets: Offsets,
    row: usize,
    at: usize,
    out: &mut [u8],
) -> usize
    requires fields_within { FieldsWithin own.now p }
    requires row_in_bounds { at + length (point_with own.now p offsets.of_keys row) ≤ length out.old }
    ensures { Put (point_with own.now p offsets.of_keys row)
        out.old at result out.new }
{
    let i = front_at(own, p, at, out);
    let j = plain_at(own, p, i, out);
    let k = words_at(&offsets.of_keys, j, out);
    word_at(organisation_offset(p, row), k, out)
}
