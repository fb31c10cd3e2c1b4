// The records of a Mainfile set's files 1 to 6 between header and trailer.
#![tactic(auto)]

mod fine;
pub mod inner;

ghost use Rattle.std.specs.Prelude.{◌≡◌, get_or};
ghost use Rattle.field.specs.Text.{part};
ghost use Rattle.file_fault.specs.Fields.{place};
ghost use Rattle.mainfile_fault.specs.Faults.{main_locality_fault, main_text_fault, name_fault, main_organisation_fault};

use file_fault::inner::{double_at, filled_at, first_of, key_at, postcode_type_at, text_at};
use file_record::byte_of;
use mainfile_record::{Locality, Organisation};

// The byte of a locality at which its first fault stands.
pub fn locality_fault(rec: &[u8]) -> usize
    ensures { result ≡ main_locality_fault rec.now }
{
    let double = double_at(rec, Locality::DEPENDENT, Locality::DOUBLE, Locality::WIDTH);
    let dependent = first_of(
        text_at(rec, Locality::DEPENDENT, Locality::DOUBLE),
        first_of(double, 0),
    );
    let town = first_of(
        filled_at(rec, Locality::TOWN, Locality::DEPENDENT),
        dependent,
    );
    first_of(key_at(rec, 0, Locality::KEY_END), town)
}

// The same of a record of one text, behind a key of so many digits.
pub fn text_fault(rec: &[u8], digits: u8, bytes: u8) -> usize
    ensures { result ≡ main_text_fault digits bytes rec.now }
{
    let start = digits as usize;
    let text = first_of(filled_at(rec, start, start + bytes as usize), 0);
    first_of(key_at(rec, 0, start), text)
}

// The name of an organisation: of type S it may not be blank.
fn name_at(rec: &[u8]) -> usize
    ensures { result ≡ place 9 (name_fault (get_or rec.now 8 0) (part rec.now 9 69)) }
{
    if byte_of(rec, Organisation::TYPE) == b'S' {
        filled_at(rec, Organisation::NAME, Organisation::DEPARTMENT)
    } else {
        text_at(rec, Organisation::NAME, Organisation::DEPARTMENT)
    }
}

// The byte of an organisation's record at which its first fault stands.
pub fn organisation_fault(rec: &[u8]) -> usize
    ensures { result ≡ main_organisation_fault rec.now }
{
    let department = text_at(rec, Organisation::DEPARTMENT, Organisation::DEPARTMENT_END);
    let name = first_of(name_at(rec), first_of(department, 0));
    let kind = first_of(postcode_type_at(rec, Organisation::TYPE), name);
    first_of(key_at(rec, 0, Organisation::TYPE), kind)
}
