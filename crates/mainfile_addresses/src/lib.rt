// The records of a Mainfile set's address file between header and trailer.
#![tactic(auto)]

mod fine;
pub mod inner;

ghost use Rattle.std.specs.Prelude.{◌≡◌, drop};
ghost use Rattle.file_fault.specs.Fields.{fault_in};
ghost use Rattle.mainfile_fault.specs.Faults.{address_record, main_address_fault};

use file_fault::inner::{
    digits_at, first_of, inward_at, outward_at, postcode_type_at, suffix_at, text_at, yes_at,
};
use mainfile_record::Address;

// What stands behind the keys and numbers: marks, suffix and PO box.
fn rest_fault(rec: &[u8]) -> usize
    ensures { result ≡ fault_in 77 (drop 13 address_record) rec.now }
{
    let po_box = first_of(text_at(rec, Address::PO_BOX, Address::PO_BOX_END), 0);
    let indicator = first_of(yes_at(rec, Address::INDICATOR), po_box);
    let suffix = first_of(
        suffix_at(rec, Address::SUFFIX, Address::INDICATOR),
        indicator,
    );
    let concatenation = first_of(yes_at(rec, Address::CONCATENATION), suffix);
    first_of(postcode_type_at(rec, Address::POSTCODE_TYPE), concatenation)
}

// The byte of an address at which its first fault stands. Keys and numbers are read as one run: their first fault is the same.
pub fn address_fault(rec: &[u8]) -> usize
    ensures { result ≡ main_address_fault rec.now }
{
    let rest = rest_fault(rec);
    let keys = first_of(
        digits_at(rec, Address::ADDRESS_KEY, Address::POSTCODE_TYPE),
        rest,
    );
    let inward = first_of(inward_at(rec, Address::INWARD, Address::ADDRESS_KEY), keys);
    first_of(outward_at(rec, Address::OUTWARD, Address::INWARD), inward)
}
