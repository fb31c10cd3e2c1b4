// The records of a table file between header and trailer.
#![tactic(auto)]

mod fine;
pub mod inner;

ghost use Rattle.std.specs.Prelude.{◌≡◌, [], ◌∷◌, get_or, ◌-◌, ◌≤◌};
ghost use Rattle.field.specs.Test.{elem};
ghost use Rattle.file_fault.specs.Fields.{field, place, fault_in, one_of};
ghost use Rattle.file_fault.specs.Table.{table_head, table_rest, locality_fields, table_fault};
ghost use Rattle.field.specs.Text.{filled_fault, part};

use file_fault::inner::{byte_fault, digits_at, double_at, filled_at, first_of, key_at, text_at};
use file_record::{Locality, Table, byte_of};

fn is_table_type(b: u8) -> bool
    ensures { result ≡ elem b (49 ∷ 50 ∷ 51 ∷ 52 ∷ 53 ∷ []) }
{
    (b == b'1') | ((b == b'2') | ((b == b'3') | ((b == b'4') | (b == b'5'))))
}

fn is_table_letter(b: u8) -> bool
    ensures { result ≡ elem b (66 ∷ 67 ∷ 68 ∷ 73 ∷ 32 ∷ []) }
{
    (b == b'B') | ((b == b'C') | ((b == b'D') | ((b == b'I') | (b == b' '))))
}

fn type_at(rec: &[u8]) -> usize
    ensures { result ≡ place 0 (one_of (49 ∷ 50 ∷ 51 ∷ 52 ∷ 53 ∷ []) (part rec.now 0 1)) }
{
    byte_fault(is_table_type(byte_of(rec, Table::TYPE)), Table::TYPE)
}

fn letter_at(rec: &[u8]) -> usize
    ensures { result ≡ place 23 (one_of (66 ∷ 67 ∷ 68 ∷ 73 ∷ 32 ∷ []) (part rec.now 23 24)) }
{
    byte_fault(is_table_letter(byte_of(rec, Table::LETTER)), Table::LETTER)
}

// What all types begin with. Date and time are read as one: their first fault is the same.
fn table_head_fault(rec: &[u8]) -> usize
    ensures { result ≡ fault_in 0 table_head rec.now }
{
    let letter = first_of(letter_at(rec), 0);
    let when = first_of(digits_at(rec, Table::DATE, Table::LETTER), letter);
    let key = first_of(key_at(rec, Table::KEY, Table::DATE), when);
    first_of(type_at(rec), key)
}

fn locality_fault(rec: &[u8]) -> usize
    ensures { result ≡ fault_in 24 (locality_fields rec.now) rec.now }
{
    let double = first_of(
        double_at(rec, Locality::DEPENDENT, Locality::DOUBLE, Locality::END),
        0,
    );
    let dependent = first_of(text_at(rec, Locality::DEPENDENT, Locality::DOUBLE), double);
    first_of(
        filled_at(rec, Locality::TOWN, Locality::DEPENDENT),
        dependent,
    )
}

// The one text of types 2 to 5.
fn name_fault(rec: &[u8], end: usize) -> usize
    requires { (24 ≤ end) × (end ≤ 255) }
    ensures { result ≡ fault_in 24 (field (end - 24) filled_fault ∷ []) rec.now }
{
    first_of(filled_at(rec, Table::TEXT, end), 0)
}

fn table_rest_fault(rec: &[u8]) -> usize
    ensures { result ≡ fault_in 24 (table_rest (get_or rec.now 0 0) rec.now) rec.now }
{
    let kind = byte_of(rec, Table::TYPE);
    match kind {
        b'1' => locality_fault(rec),
        b'2' => name_fault(rec, Table::THOROUGHFARE_END),
        b'3' => name_fault(rec, Table::DESCRIPTOR_END),
        b'4' => name_fault(rec, Table::BUILDING_END),
        b'5' => name_fault(rec, Table::SUB_BUILDING_END),
        _ => 0,
    }
}

// The byte of a table record at which its first fault stands.
pub fn table_fault(rec: &[u8]) -> usize
    ensures { result ≡ table_fault rec.now }
{
    first_of(table_head_fault(rec), table_rest_fault(rec))
}
