// The tests of a field at its place in a record: the byte of the record at which the field's first fault stands.
ghost use Rattle.std.specs.Prelude.{◌≡◌, cond, [], ◌∷◌, ◌+◌, ◌≤◌};
ghost use Rattle.field.specs.Test.{elem};
ghost use Rattle.field.specs.Digits.{digits_fault};
ghost use Rattle.field.specs.Text.{text_fault, filled_fault, part};
ghost use Rattle.field_outward.specs.Outward.{outward_fault};
ghost use Rattle.field_outward.specs.Inward.{inward_fault, suffix_fault};
ghost use Rattle.file_fault.specs.Fields.{place, first, one_of, key_fault};
ghost use Rattle.file_fault.specs.Table.{double_fault};

use file_record::{byte_of, part_of};

// The first of two faults.
pub fn first_of(fault: usize, rest: usize) -> usize
    ensures { result ≡ first fault rest }
{
    if fault == 0 { rest } else { fault }
}

// A field's fault, counted from the record's first byte.
fn placed(start: usize, fault: usize) -> usize
    requires { start + fault ≤ 4096 }
    ensures { result ≡ place start fault }
{
    if fault == 0 { 0 } else { start + fault }
}

// The fault of a field of one byte.
pub fn byte_fault(ok: bool, at: usize) -> usize
    requires { at ≤ 255 }
    ensures { result ≡ place at (cond ok 0 1) }
{
    if ok { 0 } else { at + 1 }
}

pub fn digits_at(rec: &[u8], start: usize, end: usize) -> usize
    requires { (start ≤ end) × (end ≤ 1000) }
    ensures { result ≡ place start (digits_fault (part rec.now start end)) }
{
    placed(start, field_test::digits_fault(part_of(rec, start, end)))
}

pub fn key_at(rec: &[u8], start: usize, end: usize) -> usize
    requires { (start ≤ end) × (end ≤ 1000) }
    ensures { result ≡ place start (key_fault (part rec.now start end)) }
{
    let key = part_of(rec, start, end);
    if field_test::all_are(key, b'0') {
        placed(start, 1)
    } else {
        placed(start, field_test::digits_fault(key))
    }
}

pub fn text_at(rec: &[u8], start: usize, end: usize) -> usize
    requires { (start ≤ end) × (end ≤ 1000) }
    ensures { result ≡ place start (text_fault (part rec.now start end)) }
{
    placed(start, field_test::text_fault(part_of(rec, start, end)))
}

pub fn filled_at(rec: &[u8], start: usize, end: usize) -> usize
    requires { (start ≤ end) × (end ≤ 1000) }
    ensures { result ≡ place start (filled_fault (part rec.now start end)) }
{
    placed(start, field_test::filled_fault(part_of(rec, start, end)))
}

pub fn outward_at(rec: &[u8], start: usize, end: usize) -> usize
    requires { (start ≤ end) × (end ≤ 1000) }
    ensures { result ≡ place start (outward_fault (part rec.now start end)) }
{
    placed(
        start,
        field_outward::outward_fault(part_of(rec, start, end)),
    )
}

pub fn inward_at(rec: &[u8], start: usize, end: usize) -> usize
    requires { (start ≤ end) × (end ≤ 1000) }
    ensures { result ≡ place start (inward_fault (part rec.now start end)) }
{
    placed(start, field_inward::inward_fault(part_of(rec, start, end)))
}

pub fn suffix_at(rec: &[u8], start: usize, end: usize) -> usize
    requires { (start ≤ end) × (end ≤ 1000) }
    ensures { result ≡ place start (suffix_fault (part rec.now start end)) }
{
    placed(start, field_inward::suffix_fault(part_of(rec, start, end)))
}

// A double dependent locality needs a dependent one, which stands before it.
pub fn double_at(rec: &[u8], dependent: usize, start: usize, end: usize) -> usize
    requires { (start ≤ end) × (end ≤ 1000) }
    ensures { result ≡ place start
        (double_fault (part rec.now dependent start) (part rec.now start end)) }
{
    let needed = part_of(rec, dependent, start);
    let double = part_of(rec, start, end);
    if field_test::all_are(needed, b' ') & !field_test::all_are(double, b' ') {
        start + 1
    } else {
        text_at(rec, start, end)
    }
}

fn is_postcode_type(b: u8) -> bool
    ensures { result ≡ elem b (83 ∷ 76 ∷ []) }
{
    (b == b'S') | (b == b'L')
}

fn is_yes_or_space(b: u8) -> bool
    ensures { result ≡ elem b (89 ∷ 32 ∷ []) }
{
    (b == b'Y') | (b == b' ')
}

pub fn postcode_type_at(rec: &[u8], at: usize) -> usize
    requires { at ≤ 255 }
    ensures { result ≡ place at (one_of (83 ∷ 76 ∷ []) (part rec.now at (at + 1))) }
{
    byte_fault(is_postcode_type(byte_of(rec, at)), at)
}

pub fn yes_at(rec: &[u8], at: usize) -> usize
    requires { at ≤ 255 }
    ensures { result ≡ place at (one_of (89 ∷ 32 ∷ []) (part rec.now at (at + 1))) }
{
    byte_fault(is_yes_or_space(byte_of(rec, at)), at)
}
