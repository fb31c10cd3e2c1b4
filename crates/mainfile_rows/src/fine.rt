// Whether a record has no fault at all: asked of many bytes at once, without a place, since most records have none.
ghost use Rattle.std.specs.Prelude.{◌≡◌, true, ◌+◌, ◌-◌, ◌≤◌, length};
ghost use Rattle.field.specs.Text.{part};
ghost use Rattle.field_test.proofs.Laws.{nines};
ghost use Rattle.file_fault.specs.Fields.{key_fault};
ghost use Rattle.mainfile_fault.specs.Faults.{main_locality_fault, main_text_fault, main_organisation_fault};

use field_word::inner::{are_digits, eight_zero};
use file_fault::inner::{is_fine_places, is_fine_text, postcode_type_at};
use file_record::{byte_of, part_of};
use mainfile_record::{Locality, Organisation, Text};

// Whether a record begins with a key of eight digits that is not zero.
fn is_fine_key(rec: &[u8]) -> bool
    requires { 8 ≤ length rec.now }
    ensures { result ≡ true → key_fault (part rec.now 0 8) ≡ 0 }
{
    are_digits(rec, 0) & !eight_zero(rec, 0)
}

// The same of a shorter key: a 9 of the pattern stands for a digit, and it is as wide as bytes are taken at once.
fn is_fine_short_key(rec: &[u8], pattern: &[u8], digits: usize) -> bool
    requires { part pattern.now 0 digits ≡ nines digits }
    ensures { result ≡ true → key_fault (part rec.now 0 digits) ≡ 0 }
{
    let zero = field_test::all_are(part_of(rec, 0, digits), b'0');
    field_test::digits_where(rec, pattern) & !zero
}

// Whether a locality is known to have no fault.
pub fn is_fine_locality(rec: &[u8]) -> bool
    ensures { result ≡ true → main_locality_fault rec.now ≡ 0 }
{
    let key = is_fine_short_key(rec, b"999999..........", Locality::KEY_END);
    key & is_fine_places(rec, Locality::TOWN)
}

// The same of a name behind a key of eight digits: the last sixteen bytes of its text overlap the others, up to `most`.
pub fn is_fine_name(rec: &[u8], most: usize, end: usize) -> bool
    requires { (8 ≤ length rec.now) × (8 ≤ most) × (most ≤ end) × (end ≤ most + 16) × (24 ≤ end) }
    ensures { result ≡ true → main_text_fault 8 (end - 8) rec.now ≡ 0 }
{
    let key = is_fine_key(rec);
    key & is_fine_text(rec, Text::TEXT, most, end)
}

// The same of a descriptor.
pub fn is_fine_descriptor(rec: &[u8]) -> bool
    ensures { result ≡ true → main_text_fault 4 20 rec.now ≡ 0 }
{
    let key = is_fine_short_key(rec, b"9999............", Text::DESCRIPTOR_TEXT);
    key & is_fine_text(rec, Text::DESCRIPTOR_TEXT, 20, 24)
}

// The same of an organisation.
pub fn is_fine_organisation(rec: &[u8]) -> bool
    requires { 153 ≤ length rec.now }
    ensures { result ≡ true → main_organisation_fault rec.now ≡ 0 }
{
    let key = is_fine_key(rec);
    let kind = postcode_type_at(rec, Organisation::TYPE) == 0;
    let small = byte_of(rec, Organisation::TYPE) == b'S';
    let names = file_fault::inner::is_fine_organisation(rec, Organisation::NAME, small);
    key & (kind & names)
}
