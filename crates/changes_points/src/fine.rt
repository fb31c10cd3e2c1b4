// Whether a view has no fault at all: asked of many bytes at once, without a place, since most records have none.
ghost use Rattle.std.specs.Prelude.{◌≡◌, true, ◌≤◌, length};
ghost use Rattle.field.specs.Digits.{digits_fault};
ghost use Rattle.field.specs.Text.{part};
ghost use Rattle.file_fault.specs.Fields.{fault_in};
ghost use Rattle.file_fault.specs.Point.{point_head, view_fields, point_fault};

use crate::{letter_at, type_at};
use file_fault::inner::{is_fine_box, is_fine_outward, postcode_type_at, yes_at};
use file_record::{Point, View, byte_of, part_of};

// Whether date, time and both keys are digits: a 9 stands for each. A pattern is as wide as bytes are taken at once.
fn head_digits(rec: &[u8]) -> bool
    ensures { result ≡ true → (digits_fault (part rec.now 0 14) ≡ 0)
        × (digits_fault (part rec.now 24 40) ≡ 0) }
{
    field_test::digits_where(rec, b"99999999999999..........9999999999999999........")
}

// The same, and the keys, the number, the households and the reason of a view.
fn view_digits(rec: &[u8]) -> bool
    ensures { result ≡ true → (digits_fault (part rec.now 0 14) ≡ 0)
        × (digits_fault (part rec.now 24 40) ≡ 0) × (digits_fault (part rec.now 42 106) ≡ 0)
        × (digits_fault (part rec.now 114 116) ≡ 0) }
{
    let head = head_digits(rec);
    let keys = field_test::are_digits(part_of(rec, View::LOCALITY, View::CONCATENATION));
    let reason = field_test::are_digits(part_of(rec, View::REASON, View::REASON_END));
    head & (keys & reason)
}

// Whether the other fields that all types begin with are well formed.
fn is_fine_head(before: &[u8], rec: &[u8], known: bool) -> bool
    requires { known ≡ true → point_fault before.now ≡ 0 }
    ensures { result ≡ true → digits_fault (part rec.now 0 14) ≡ 0
        → digits_fault (part rec.now 24 40) ≡ 0 → fault_in 0 point_head rec.now ≡ 0 }
{
    let outward = is_fine_outward(before, rec, Point::OUTWARD, known);
    let inward = field_inward::is_inward(part_of(rec, Point::INWARD, Point::SUFFIX));
    let suffix = field_inward::is_suffix(part_of(rec, Point::SUFFIX, Point::POSTCODE_TYPE));
    let user = postcode_type_at(rec, Point::POSTCODE_TYPE) == 0;
    let letter = letter_at(rec) == 0;
    let kind = type_at(rec) == 0;
    (outward & (inward & suffix)) & (user & (letter & kind))
}

// Whether the other fields of a view are well formed.
fn is_fine_view(rec: &[u8]) -> bool
    requires { 168 ≤ length rec.now }
    ensures { result ≡ true → digits_fault (part rec.now 42 106) ≡ 0
        → digits_fault (part rec.now 114 116) ≡ 0 → fault_in 42 view_fields rec.now ≡ 0 }
{
    if !is_fine_box(rec, 98, View::PO_BOX) {
        return false;
    }
    let concatenation = yes_at(rec, View::CONCATENATION) == 0;
    let indicator = yes_at(rec, View::INDICATOR) == 0;
    concatenation & indicator
}

// Whether a record is known to be a view without a fault; the record before it has none where that is `known`. Each part ends
// it where it says no, so that each is compiled by itself.
pub fn is_fine(before: &[u8], rec: &[u8], known: bool) -> bool
    requires { known ≡ true → point_fault before.now ≡ 0 }
    ensures { result ≡ true → point_fault rec.now ≡ 0 }
{
    let kind = byte_of(rec, Point::TYPE);
    if (kind != b'1') | (rec.len() < Point::WIDTH) {
        return false;
    }
    if !view_digits(rec) {
        return false;
    }
    if !is_fine_head(before, rec, known) {
        return false;
    }
    is_fine_view(rec)
}
