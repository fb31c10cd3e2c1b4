// The records of a point file between header and trailer.
#![tactic(auto)]

mod fine;
mod follower;
pub mod inner;

ghost use Rattle.std.specs.Prelude.{◌≡◌, [], ◌∷◌, get_or};
ghost use Rattle.field.specs.Test.{elem};
ghost use Rattle.field.specs.Text.{text_fault, part};
ghost use Rattle.file_fault.specs.Fields.{place, first, fault_in, one_of};
ghost use Rattle.file_fault.specs.Point.{point_head, view_fields, point_rest, point_fault};

use file_fault::inner::{
    byte_fault, digits_at, filled_at, first_of, inward_at, outward_at, postcode_type_at, suffix_at,
    text_at, yes_at,
};
use file_record::{Organisation, Point, View, byte_of};

fn is_point_letter(b: u8) -> bool
    ensures { result ≡ elem b (66 ∷ 67 ∷ 68 ∷ 73 ∷ []) }
{
    (b == b'B') | ((b == b'C') | ((b == b'D') | (b == b'I')))
}

fn is_point_type(b: u8) -> bool
    ensures { result ≡ elem b (49 ∷ 50 ∷ 51 ∷ []) }
{
    (b == b'1') | ((b == b'2') | (b == b'3'))
}

fn letter_at(rec: &[u8]) -> usize
    ensures { result ≡ place 40 (one_of (66 ∷ 67 ∷ 68 ∷ 73 ∷ []) (part rec.now 40 41)) }
{
    byte_fault(is_point_letter(byte_of(rec, Point::LETTER)), Point::LETTER)
}

fn type_at(rec: &[u8]) -> usize
    ensures { result ≡ place 41 (one_of (49 ∷ 50 ∷ 51 ∷ []) (part rec.now 41 42)) }
{
    byte_fault(is_point_type(byte_of(rec, Point::TYPE)), Point::TYPE)
}

// What all types begin with. Neighbouring numeric fields are read as one: their first fault is the same.
fn point_head_fault(rec: &[u8]) -> usize
    ensures { result ≡ fault_in 0 point_head rec.now }
{
    let kind = first_of(type_at(rec), 0);
    let letter = first_of(letter_at(rec), kind);
    let both_keys = first_of(digits_at(rec, Point::ADDRESS_KEY, Point::LETTER), letter);
    let user = first_of(postcode_type_at(rec, Point::POSTCODE_TYPE), both_keys);
    let suffix = first_of(suffix_at(rec, Point::SUFFIX, Point::POSTCODE_TYPE), user);
    let inward = first_of(inward_at(rec, Point::INWARD, Point::SUFFIX), suffix);
    let outward = first_of(outward_at(rec, Point::OUTWARD, Point::INWARD), inward);
    first_of(digits_at(rec, Point::DATE, Point::OUTWARD), outward)
}

// What type 1 goes on with: keys, number and households in one run, then the rest.
fn view_fault(rec: &[u8]) -> usize
    ensures { result ≡ fault_in 42 view_fields rec.now }
{
    let reason = first_of(digits_at(rec, View::REASON, View::REASON_END), 0);
    let indicator = first_of(yes_at(rec, View::INDICATOR), reason);
    let po_box = first_of(text_at(rec, View::PO_BOX, View::INDICATOR), indicator);
    let concatenation = first_of(yes_at(rec, View::CONCATENATION), po_box);
    first_of(
        digits_at(rec, View::LOCALITY, View::CONCATENATION),
        concatenation,
    )
}

// What types 2 and 3 go on with: the name's fault is handed in, since a small user's may not be blank.
fn organisation_fault(rec: &[u8], name: usize) -> usize
    ensures { result ≡ first name (first (place 102 (text_fault (part rec.now 102 162))) 0) }
{
    let department = text_at(rec, Organisation::DEPARTMENT, Organisation::DEPARTMENT_END);
    first_of(name, first_of(department, 0))
}

fn point_rest_fault(rec: &[u8]) -> usize
    ensures { result ≡ fault_in 42 (point_rest (get_or rec.now 41 0)) rec.now }
{
    let kind = byte_of(rec, Point::TYPE);
    match kind {
        b'1' => view_fault(rec),
        b'2' => {
            let name = filled_at(rec, Organisation::NAME, Organisation::DEPARTMENT);
            organisation_fault(rec, name)
        }
        b'3' => {
            let name = text_at(rec, Organisation::NAME, Organisation::DEPARTMENT);
            organisation_fault(rec, name)
        }
        _ => 0,
    }
}

// The byte of a point record at which its first fault stands.
pub fn point_fault(rec: &[u8]) -> usize
    ensures { result ≡ point_fault rec.now }
{
    first_of(point_head_fault(rec), point_rest_fault(rec))
}
