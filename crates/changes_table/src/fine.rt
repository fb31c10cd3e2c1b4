// Whether a table record has no fault at all: asked of many bytes at once, without a place, since most records have none.
ghost use Rattle.std.specs.Prelude.{◌≡◌, true, [], ◌∷◌, get_or};
ghost use Rattle.field.specs.Digits.{digits_fault};
ghost use Rattle.field.specs.Test.{elem};
ghost use Rattle.field.specs.Text.{part};
ghost use Rattle.file_fault.specs.Fields.{fault_in};
ghost use Rattle.file_fault.specs.Table.{table_head, table_rest, locality_fields, table_fault};

use crate::letter_at;
use file_fault::inner::{is_fine_places, is_fine_text};
use file_record::{Locality, Table, byte_of, part_of};

// Whether key, date and time are digits: a 9 stands for each. The pattern is as wide as bytes are taken at once.
fn head_digits(rec: &[u8]) -> bool
    ensures { result ≡ true → (digits_fault (part rec.now 1 9) ≡ 0)
        × (digits_fault (part rec.now 9 23) ≡ 0) }
{
    field_test::digits_where(rec, b".9999999999999999999999.........")
}

// Whether the fields that all types begin with are well formed, but for the type itself.
fn is_fine_head(rec: &[u8]) -> bool
    ensures { result ≡ true → elem (get_or rec.now 0 0) (49 ∷ 50 ∷ 51 ∷ 52 ∷ 53 ∷ []) ≡ true
        → fault_in 0 table_head rec.now ≡ 0 }
{
    let digits = head_digits(rec);
    let zero = field_test::all_are(part_of(rec, Table::KEY, Table::DATE), b'0');
    let letter = letter_at(rec) == 0;
    digits & (!zero & letter)
}

// Whether a locality's texts are well formed.
fn is_fine_locality(rec: &[u8]) -> bool
    ensures { result ≡ true → fault_in 24 (locality_fields rec.now) rec.now ≡ 0 }
{
    is_fine_places(rec, Locality::TOWN)
}

// Whether the type is one of the five, and what it goes on with is well formed.
fn is_fine_rest(rec: &[u8]) -> bool
    ensures { result ≡ true → (elem (get_or rec.now 0 0) (49 ∷ 50 ∷ 51 ∷ 52 ∷ 53 ∷ []) ≡ true)
        × (fault_in 24 (table_rest (get_or rec.now 0 0) rec.now) rec.now ≡ 0) }
{
    let kind = byte_of(rec, Table::TYPE);
    match kind {
        b'1' => is_fine_locality(rec),
        b'2' => is_fine_text(rec, Table::TEXT, 72, Table::THOROUGHFARE_END),
        b'3' => is_fine_text(rec, Table::TEXT, 40, Table::DESCRIPTOR_END),
        b'4' => is_fine_text(rec, Table::TEXT, 72, Table::BUILDING_END),
        b'5' => is_fine_text(rec, Table::TEXT, 40, Table::SUB_BUILDING_END),
        _ => false,
    }
}

// Whether a record is known to have no fault.
pub fn is_fine(rec: &[u8]) -> bool
    ensures { result ≡ true → table_fault rec.now ≡ 0 }
{
    if !is_fine_head(rec) {
        return false;
    }
    is_fine_rest(rec)
}
