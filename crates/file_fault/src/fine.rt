// Whether fields are known to have no fault: asked of many bytes at once, without a place, since most records have none. Where
// a field stands is a constant of each caller, so that lengths are known when this is compiled.
ghost use Rattle.std.specs.Prelude.{◌≡◌, true, cond, ◌+◌, ◌≤◌, length};
ghost use Rattle.field.specs.Test.{every};
ghost use Rattle.field.specs.Text.{text_byte, blank, text_fault, filled_fault, part};
ghost use Rattle.field_outward.specs.Outward.{outward_fault};
ghost use Rattle.file_fault.specs.Table.{double_fault};

use field_word::inner::{eight_blank, four_blank};
use file_record::part_of;

// Whether a text that may not be blank is well formed. Its last sixteen bytes overlap the others: so many are taken at once.
pub fn is_fine_text(rec: &[u8], start: usize, most: usize, end: usize) -> bool
    requires { (start ≤ most) × (most ≤ end) × (end ≤ most + 16) × (start + 16 ≤ end) }
    ensures { result ≡ true → filled_fault (part rec.now start end) ≡ 0 }
{
    let front = field_test::are_text(part_of(rec, start, most));
    let back = field_test::are_text(part_of(rec, end - 16, end));
    let begins = !field_test::starts_blank(part_of(rec, start, end));
    front & (back & begins)
}

// Whether every byte of a town, a dependent locality and a double dependent one may stand in a text.
fn are_places(rec: &[u8], town: usize) -> bool
    requires { town ≤ 155 }
    ensures { result ≡ true → (every text_byte (part rec.now town (town + 30)) ≡ true)
        × (every text_byte (part rec.now (town + 30) (town + 65)) ≡ true)
        × (every text_byte (part rec.now (town + 65) (town + 100)) ≡ true) }
{
    let most = field_test::are_text(part_of(rec, town, town + 96));
    let rest = field_test::are_text(part_of(rec, town + 84, town + 100));
    most & rest
}

// Whether the 35 bytes from `start` on are spaces.
fn is_blank_35(rec: &[u8], start: usize) -> bool
    requires { start ≤ 255 }
    ensures { result ≡ true → blank (part rec.now start (start + 35)) ≡ true }
{
    let most = field_test::all_are(part_of(rec, start, start + 32), b' ');
    let rest = field_test::all_are(part_of(rec, start + 19, start + 35), b' ');
    most & rest
}

// Whether a locality's texts are well formed: the town is there, and a double dependent locality only with a dependent one.
pub fn is_fine_places(rec: &[u8], town: usize) -> bool
    requires { town ≤ 155 }
    ensures { result ≡ true → (filled_fault (part rec.now town (town + 30)) ≡ 0)
        × (text_fault (part rec.now (town + 30) (town + 65)) ≡ 0)
        × (double_fault (part rec.now (town + 30) (town + 65))
        (part rec.now (town + 65) (town + 100)) ≡ 0) }
{
    let texts = are_places(rec, town);
    let begun = !field_test::starts_blank(part_of(rec, town, town + 30));
    let dependent = !field_test::starts_blank(part_of(rec, town + 30, town + 65));
    let double = !field_test::starts_blank(part_of(rec, town + 65, town + 100));
    let no_dependent = is_blank_35(rec, town + 30);
    let no_double = is_blank_35(rec, town + 65);
    (texts & begun) & ((dependent | no_dependent) & (no_double | (double & dependent)))
}

// Whether every byte of name and department may stand in a text. The second part overlaps the first, so that each is a
// number of sixteens.
fn are_names(rec: &[u8], name: usize) -> bool
    requires { name ≤ 135 }
    ensures { result ≡ true → (every text_byte (part rec.now name (name + 60)) ≡ true)
        × (every text_byte (part rec.now (name + 60) (name + 120)) ≡ true) }
{
    let most = field_test::are_text(part_of(rec, name, name + 112));
    let rest = field_test::are_text(part_of(rec, name + 104, name + 120));
    most & rest
}

// Whether the 28 bytes from `start` on are spaces.
fn is_blank_28(rec: &[u8], start: usize) -> bool
    requires { start + 28 ≤ length rec.now }
    ensures { result ≡ true → blank (part rec.now start (start + 28)) ≡ true }
{
    let front = eight_blank(rec, start) & eight_blank(rec, start + 8);
    front & (eight_blank(rec, start + 16) & four_blank(rec, start + 24))
}

// Whether the 60 bytes from `start` on are spaces.
fn is_blank_60(rec: &[u8], start: usize) -> bool
    requires { start + 60 ≤ length rec.now }
    ensures { result ≡ true → blank (part rec.now start (start + 60)) ≡ true }
{
    let front = eight_blank(rec, start) & eight_blank(rec, start + 8);
    let middle = eight_blank(rec, start + 16) & eight_blank(rec, start + 24);
    (front & middle) & is_blank_28(rec, start + 32)
}

// Whether a name of such bytes is well formed; a small user's may not be blank.
fn is_fine_name(rec: &[u8], name: usize, small: bool) -> bool
    requires { name + 60 ≤ length rec.now }
    ensures { result ≡ true → every text_byte (part rec.now name (name + 60)) ≡ true
        → cond small (filled_fault (part rec.now name (name + 60)))
        (text_fault (part rec.now name (name + 60))) ≡ 0 }
{
    if !field_test::starts_blank(part_of(rec, name, name + 60)) {
        return true;
    }
    if small {
        return false;
    }
    is_blank_60(rec, name)
}

// Whether a department of such bytes is well formed.
fn is_fine_department(rec: &[u8], department: usize) -> bool
    requires { department + 60 ≤ length rec.now }
    ensures { result ≡ true → every text_byte (part rec.now department (department + 60)) ≡ true
        → text_fault (part rec.now department (department + 60)) ≡ 0 }
{
    let begins = !field_test::starts_blank(part_of(rec, department, department + 60));
    begins | is_blank_60(rec, department)
}

// Whether name and department, one behind the other, are well formed.
pub fn is_fine_organisation(rec: &[u8], name: usize, small: bool) -> bool
    requires { (name ≤ 135) × (name + 120 ≤ length rec.now) }
    ensures { result ≡ true → (cond small (filled_fault (part rec.now name (name + 60)))
        (text_fault (part rec.now name (name + 60))) ≡ 0)
        × (text_fault (part rec.now (name + 60) (name + 120)) ≡ 0) }
{
    if !are_names(rec, name) {
        return false;
    }
    if !is_fine_name(rec, name, small) {
        return false;
    }
    is_fine_department(rec, name + 60)
}

// Whether the six bytes from `start` on are spaces.
fn is_blank_box(rec: &[u8], start: usize) -> bool
    requires { start + 6 ≤ length rec.now }
    ensures { result ≡ true → blank (part rec.now start (start + 6)) ≡ true }
{
    four_blank(rec, start) & four_blank(rec, start + 2)
}

// Whether a PO box is well formed. The sixteen bytes from `from` on are taken at once: what else is among them may stand in a
// text too.
pub fn is_fine_box(rec: &[u8], from: usize, start: usize) -> bool
    requires { (from ≤ start) × (start + 6 ≤ from + 16) × (from + 16 ≤ length rec.now) }
    ensures { result ≡ true → text_fault (part rec.now start (start + 6)) ≡ 0 }
{
    if !field_test::are_text(part_of(rec, from, from + 16)) {
        return false;
    }
    let begins = !field_test::starts_blank(part_of(rec, start, start + 6));
    begins | is_blank_box(rec, start)
}

// Whether the outward code is well formed: that of the record before is, where that is `known`, and most are the same.
pub fn is_fine_outward(before: &[u8], rec: &[u8], start: usize, known: bool) -> bool
    requires { (start ≤ 255) × (known ≡ true → outward_fault (part before.now start (start + 4)) ≡ 0) }
    ensures { result ≡ true → outward_fault (part rec.now start (start + 4)) ≡ 0 }
{
    let code = part_of(rec, start, start + 4);
    let last = part_of(before, start, start + 4);
    if known & file_compare::same_bytes(last, code) {
        true
    } else {
        field_outward::outward_fault(code) == 0
    }
}
