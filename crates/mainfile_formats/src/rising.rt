// Whether what the sequence compares of a record is above that of the one before.
ghost use Rattle.std.specs.Prelude.{◌≡◌, true, ◌≤◌, length};
ghost use Rattle.field.specs.Text.{part};
ghost use Rattle.file_compare.specs.Order.{above};
ghost use Rattle.file.specs.Check.{higher};
ghost use Rattle.file.specs.Mainfile.{organisations, addresses, main_format};

use field_word::inner::weight_at;
use file::{MainKind, is_front_above};
use file_compare::inner::is_above_8;
use file_compare::{order_of, same_bytes};
use file_record::part_of;
use mainfile_record::{Address, Locality, Organisation, Text};

// Organisations: by type, then by key.
fn is_higher_organisation(before: &[u8], rec: &[u8]) -> bool
    requires { (153 ≤ length before.now) × (153 ≤ length rec.now) }
    ensures { result ≡ higher organisations before.now rec.now }
{
    let kind = order_of(
        part_of(rec, Organisation::TYPE, Organisation::NAME),
        part_of(before, Organisation::TYPE, Organisation::NAME),
    );
    let key = order_of(
        part_of(rec, 0, Organisation::TYPE),
        part_of(before, 0, Organisation::TYPE),
    );
    kind.then(key).is_gt()
}

// Addresses: by postcode and address key, then by organisation key.
fn is_higher_address(before: &[u8], rec: &[u8]) -> bool
    requires { (88 ≤ length before.now) × (88 ≤ length rec.now) }
    ensures { result ≡ higher addresses before.now rec.now }
{
    let front = order_of(
        part_of(rec, Address::OUTWARD, Address::LOCALITY),
        part_of(before, Address::OUTWARD, Address::LOCALITY),
    );
    let key = order_of(
        part_of(rec, Address::ORGANISATION_KEY, Address::POSTCODE_TYPE),
        part_of(before, Address::ORGANISATION_KEY, Address::POSTCODE_TYPE),
    );
    front.then(key).is_gt()
}

pub fn is_higher(kind: MainKind, before: &[u8], rec: &[u8]) -> bool
    requires { ((main_format kind).width ≤ length before.now) × ((main_format kind).width ≤ length rec.now) }
    ensures { result ≡ higher (main_format kind) before.now rec.now }
{
    match kind {
        MainKind::Localities => is_front_above(Locality::KEY_END, before, rec),
        MainKind::Thoroughfares => is_front_above(Text::TEXT, before, rec),
        MainKind::Descriptors => is_front_above(Text::DESCRIPTOR_TEXT, before, rec),
        MainKind::Buildings => is_front_above(Text::TEXT, before, rec),
        MainKind::SubBuildings => is_front_above(Text::TEXT, before, rec),
        MainKind::Organisations => is_higher_organisation(before, rec),
        MainKind::Addresses => is_higher_address(before, rec),
    }
}

// Whether a key of eight bytes is known to be above the one before.
pub fn is_rising_key(before: &[u8], rec: &[u8]) -> bool
    requires { (8 ≤ length before.now) × (8 ≤ length rec.now) }
    ensures { result ≡ true → above (part rec.now 0 8) (part before.now 0 8) ≡ true }
{
    is_above_8(part_of(rec, 0, Text::TEXT), part_of(before, 0, Text::TEXT))
}

// The same of a shorter key: the eight bytes from its start on are above those before, and it is another.
pub fn is_rising_short(before: &[u8], rec: &[u8], digits: usize) -> bool
    requires { (digits ≤ 8) × (8 ≤ length before.now) × (8 ≤ length rec.now) }
    ensures { result ≡ true
        → above (part rec.now 0 digits) (part before.now 0 digits) ≡ true }
{
    let same = same_bytes(part_of(rec, 0, digits), part_of(before, 0, digits));
    is_rising_key(before, rec) & !same
}

// The same of an organisation: nearly all have the type of the one before.
pub fn is_rising_organisation(before: &[u8], rec: &[u8]) -> bool
    requires { (153 ≤ length before.now) × (153 ≤ length rec.now) }
    ensures { result ≡ true → higher organisations before.now rec.now ≡ true }
{
    let same = same_bytes(
        part_of(rec, Organisation::TYPE, Organisation::NAME),
        part_of(before, Organisation::TYPE, Organisation::NAME),
    );
    is_rising_key(before, rec) & same
}

// The same of an address, by three times eight bytes: nothing has to be guessed on the way.
pub fn is_rising_address(before: &[u8], rec: &[u8]) -> bool
    requires { (88 ≤ length before.now) × (88 ≤ length rec.now) }
    ensures { result ≡ true → higher addresses before.now rec.now ≡ true }
{
    let postcode = weight_at(rec, Address::OUTWARD);
    let last_postcode = weight_at(before, Address::OUTWARD);
    let key = weight_at(rec, Address::ADDRESS_KEY);
    let last_key = weight_at(before, Address::ADDRESS_KEY);
    let organisation = weight_at(rec, Address::ORGANISATION_KEY);
    let last_organisation = weight_at(before, Address::ORGANISATION_KEY);
    let by_organisation = (last_key == key) & (last_organisation < organisation);
    let by_key = (last_postcode == postcode) & ((last_key < key) | by_organisation);
    (last_postcode < postcode) | by_key
}
