// Whether a record is known to stand as it must: asked without a place and without a reason, since nearly all do.
ghost use Rattle.std.specs.Prelude.{◌≡◌, true, ◌||◌, ◌+◌, ◌-◌, ◌/◌, ◌≤◌, ◌<◌, eqb, length};
ghost use Rattle.field.specs.Text.{part};
ghost use Rattle.file_record.specs.Parts.{record_at};
ghost use Rattle.file_compare.specs.Order.{above};
ghost use Rattle.mainfile_fault.specs.Faults.{main_text_fault};
ghost use Rattle.file.specs.Check.{judged};
ghost use Rattle.file.specs.Walk.{Walk};
ghost use Rattle.file.specs.Mainfile.{localities, descriptors, organisations, addresses, main_format};
ghost use Rattle.refusal.specs.Verdict.{fine};

use crate::rising::{is_rising_address, is_rising_key, is_rising_organisation, is_rising_short};
use file::MainKind;
use file_record::inner::whole_record;
use mainfile_record::{Address, Locality, Organisation, Text};
use mainfile_rows::inner::{
    is_fine_descriptor, is_fine_locality, is_fine_name, is_fine_organisation,
};

// A locality.
fn is_standing_locality(file: &[u8], i: usize) -> bool
    requires { Walk localities file.now i }
    ensures { result ≡ true → judged localities file.now i ≡ fine }
{
    let rec = whole_record(file, Locality::WIDTH, i);
    let before = whole_record(file, Locality::WIDTH, i - 1);
    let above = is_rising_short(before, rec, Locality::KEY_END);
    is_fine_locality(rec) & ((i == 1) | above)
}

// A record of `width` bytes with a key of eight digits and one text up to `end`, read as `mainfile_rows` does.
fn is_standing_name(file: &[u8], width: usize, most: usize, i: usize) -> bool
    requires { (1 ≤ i) × (i < length file.now / width) × (8 ≤ most) × (most ≤ width) × (width ≤ most + 16)
        × (24 ≤ width) }
    ensures { result ≡ true → (main_text_fault 8 (width - 8) (record_at width file.now i) ≡ 0)
        × ((eqb i 1 || above (part (record_at width file.now i) 0 8)
        (part (record_at width file.now (i - 1)) 0 8)) ≡ true) }
{
    let rec = whole_record(file, width, i);
    let before = whole_record(file, width, i - 1);
    let above = is_rising_key(before, rec);
    is_fine_name(rec, most, width) & ((i == 1) | above)
}

// A descriptor.
fn is_standing_descriptor(file: &[u8], i: usize) -> bool
    requires { Walk descriptors file.now i }
    ensures { result ≡ true → judged descriptors file.now i ≡ fine }
{
    let rec = whole_record(file, Text::DESCRIPTOR_WIDTH, i);
    let before = whole_record(file, Text::DESCRIPTOR_WIDTH, i - 1);
    let above = is_rising_short(before, rec, Text::DESCRIPTOR_TEXT);
    is_fine_descriptor(rec) & ((i == 1) | above)
}

// An organisation.
fn is_standing_organisation(file: &[u8], i: usize) -> bool
    requires { Walk organisations file.now i }
    ensures { result ≡ true → judged organisations file.now i ≡ fine }
{
    let rec = whole_record(file, Organisation::WIDTH, i);
    let before = whole_record(file, Organisation::WIDTH, i - 1);
    let above = is_rising_organisation(before, rec);
    is_fine_organisation(rec) & ((i == 1) | above)
}

// An address.
fn is_standing_address(file: &[u8], i: usize) -> bool
    requires { Walk addresses file.now i }
    ensures { result ≡ true → judged addresses file.now i ≡ fine }
{
    let rec = whole_record(file, Address::WIDTH, i);
    let before = whole_record(file, Address::WIDTH, i - 1);
    let above = is_rising_address(before, rec);
    mainfile_addresses::inner::is_fine(before, rec, i != 1) & ((i == 1) | above)
}

// Record `i`, where the one before it is judged fine or is the header.
pub fn is_standing(kind: MainKind, file: &[u8], i: usize) -> bool
    requires { Walk (main_format kind) file.now i }
    ensures { result ≡ true → judged (main_format kind) file.now i ≡ fine }
{
    match kind {
        MainKind::Localities => is_standing_locality(file, i),
        MainKind::Thoroughfares => is_standing_name(file, Text::THOROUGHFARE_WIDTH, 56, i),
        MainKind::Descriptors => is_standing_descriptor(file, i),
        MainKind::Buildings => is_standing_name(file, Text::BUILDING_WIDTH, 56, i),
        MainKind::SubBuildings => is_standing_name(file, Text::SUB_BUILDING_WIDTH, 24, i),
        MainKind::Organisations => is_standing_organisation(file, i),
        MainKind::Addresses => is_standing_address(file, i),
    }
}
