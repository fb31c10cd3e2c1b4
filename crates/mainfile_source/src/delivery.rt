// An address record as a delivery point.
ghost use Rattle.std.specs.Prelude.{◌≡◌};
ghost use Rattle.field.specs.Digits.{value};
ghost use Rattle.field.specs.Text.{part};
ghost use Rattle.file_record.specs.Parts.{record_at};
ghost use Rattle.mainfile_record.specs.Address.{width};
ghost use Rattle.mainfile.specs.Addresses.{needs_row};
ghost use Rattle.mainfile_source.specs.Delivery.{keys_in, start_at, own_found, delivery_at};

use crate::organisations::organisation_row;
use mainfile_record::{Address, Organisation};
use source::DeliveryPoint;

// Record `i` of an address file, counted from 0; no bytes where there is none.
pub fn address_record(addresses: &[u8], i: usize) -> &[u8]
    ensures { result.now ≡ record_at width addresses.now i }
{
    if i < addresses.len() / Address::WIDTH {
        file_record::inner::whole_record(addresses, Address::WIDTH, i)
    } else {
        &addresses[..0]
    }
}

// Where that record starts; 0 where there is none.
fn start_at(addresses: &[u8], i: usize) -> usize
    ensures { result ≡ start_at addresses.now i }
{
    if i < addresses.len() / Address::WIDTH {
        i * Address::WIDTH
    } else {
        0
    }
}

// What the digits of a field say.
fn key_in(rec: &[u8], from: usize, to: usize) -> u32
    ensures { result ≡ value (part rec.now from to) }
{
    field_read::value_of(file_record::part_of(rec, from, to)) as u32
}

// The seven keys of a record.
fn keys_in(rec: &[u8]) -> [u32; 7]
    ensures { result ≡ keys_in rec.now }
{
    let locality = key_in(rec, Address::LOCALITY, Address::THOROUGHFARE);
    let thoroughfare = key_in(rec, Address::THOROUGHFARE, Address::DESCRIPTOR);
    let descriptor = key_in(rec, Address::DESCRIPTOR, Address::DEPENDENT);
    let dependent = key_in(rec, Address::DEPENDENT, Address::DEPENDENT_DESCRIPTOR);
    let second = key_in(rec, Address::DEPENDENT_DESCRIPTOR, Address::NUMBER);
    let building = key_in(rec, Address::BUILDING, Address::SUB_BUILDING);
    let sub_building = key_in(rec, Address::SUB_BUILDING, Address::HOUSEHOLDS);
    [
        locality,
        thoroughfare,
        descriptor,
        dependent,
        second,
        building,
        sub_building,
    ]
}

// Whether a record needs an organisation.
fn needs_row(rec: &[u8]) -> bool
    ensures { result ≡ needs_row rec.now }
{
    if file_record::byte_of(rec, Address::POSTCODE_TYPE) == b'L' {
        return true;
    }
    key_in(rec, Address::ORGANISATION_KEY, Address::POSTCODE_TYPE) != 0
}

// The organisation that a record is joined to; 0 where it needs none or none is found.
fn own_row(organisations: &[u8], rec: &[u8]) -> usize
    ensures { result ≡ own_found organisations.now rec.now }
{
    if file_record::byte_of(rec, Address::POSTCODE_TYPE) == b'L' {
        let key = key_in(rec, Address::ADDRESS_KEY, Address::LOCALITY);
        return organisation_row(organisations, b'L', key);
    }
    let key = key_in(rec, Address::ORGANISATION_KEY, Address::POSTCODE_TYPE);
    if key == 0 {
        return 0;
    }
    organisation_row(organisations, b'S', key)
}

// What is known of an address record and its organisation.
pub fn delivery_at(addresses: &[u8], organisations: &[u8], i: usize) -> DeliveryPoint
    ensures { result ≡ delivery_at addresses.now organisations.now i }
{
    let rec = address_record(addresses, i);
    let at = start_at(addresses, i);
    let row = own_row(organisations, rec);
    let keys = keys_in(rec);
    let number = file_record::part_of(rec, Address::NUMBER, Address::BUILDING);
    DeliveryPoint {
        keys,
        number: field_read::value_of(number) as u16,
        address_key: key_in(rec, Address::ADDRESS_KEY, Address::LOCALITY),
        organisation_key: key_in(rec, Address::ORGANISATION_KEY, Address::POSTCODE_TYPE),
        postcode_type: file_record::byte_of(rec, Address::POSTCODE_TYPE),
        concatenation: file_record::byte_of(rec, Address::CONCATENATION) == b'Y',
        indicator: file_record::byte_of(rec, Address::INDICATOR) == b'Y',
        postcode: at + Address::OUTWARD,
        suffix: at + Address::SUFFIX,
        po_box: at + Address::PO_BOX,
        organised: row != 0,
        organisation: row * Organisation::WIDTH + Organisation::NAME,
        lacking: needs_row(rec) & (row == 0),
    }
}
