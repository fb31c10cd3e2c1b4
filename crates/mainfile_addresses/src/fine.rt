// Whether an address has no fault at all: asked of many bytes at once, without a place, since most records have none.
ghost use Rattle.std.specs.Prelude.{◌≡◌, true, ◌≤◌, length, drop};
ghost use Rattle.field.specs.Digits.{digits_fault};
ghost use Rattle.field.specs.Text.{text_fault, part};
ghost use Rattle.field_outward.specs.Inward.{inward_fault};
ghost use Rattle.file_fault.specs.Fields.{fault_in};
ghost use Rattle.mainfile_fault.specs.Faults.{address_record, main_address_fault};

use file_fault::inner::{is_fine_box, is_fine_outward, postcode_type_at, yes_at};
use file_record::part_of;
use mainfile_record::Address;

// Whether keys and numbers are digits. The second part overlaps the first, so that each is a number of sixteens.
fn are_keys(rec: &[u8]) -> bool
    ensures { result ≡ true → digits_fault (part rec.now 7 77) ≡ 0 }
{
    let most = field_test::are_digits(part_of(rec, Address::ADDRESS_KEY, 71));
    let rest = field_test::are_digits(part_of(rec, 61, Address::POSTCODE_TYPE));
    most & rest
}

// Whether marks and suffix are well formed, and the inward code.
fn are_marks(rec: &[u8]) -> bool
    ensures { result ≡ true → text_fault (part rec.now 82 88) ≡ 0
        → (inward_fault (part rec.now 4 7) ≡ 0)
        × (fault_in 77 (drop 13 address_record) rec.now ≡ 0) }
{
    let inward = field_inward::is_inward(part_of(rec, Address::INWARD, Address::ADDRESS_KEY));
    let suffix = field_inward::is_suffix(part_of(rec, Address::SUFFIX, Address::INDICATOR));
    let user = postcode_type_at(rec, Address::POSTCODE_TYPE) == 0;
    let concatenation = yes_at(rec, Address::CONCATENATION) == 0;
    let indicator = yes_at(rec, Address::INDICATOR) == 0;
    (inward & suffix) & (user & (concatenation & indicator))
}

// Whether an address is known to have no fault; the record before it has none where that is `known`. Each part ends it where
// it says no, so that each is compiled by itself.
pub fn is_fine(before: &[u8], rec: &[u8], known: bool) -> bool
    requires { (88 ≤ length rec.now) × (known ≡ true → main_address_fault before.now ≡ 0) }
    ensures { result ≡ true → main_address_fault rec.now ≡ 0 }
{
    if !are_keys(rec) {
        return false;
    }
    if !is_fine_outward(before, rec, Address::OUTWARD, known) {
        return false;
    }
    if !is_fine_box(rec, 72, Address::PO_BOX) {
        return false;
    }
    are_marks(rec)
}
