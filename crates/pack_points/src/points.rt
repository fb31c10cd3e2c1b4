// All of the points but their offsets, of a pack whose trailer and rows are good.
ghost use Rattle.std.specs.Prelude.{◌≡◌, ◌≤◌, eqb};
ghost use Rattle.field.specs.Text.{text_fault};
ghost use Rattle.pack.specs.Opening.{row_area, given, postcode_good, suffix_good, plain_good, allowed_mix, organisation_good};
ghost use Rattle.pack_read.specs.Laid.{LaidIn, Trailed, PostcodeIn, RestIn};
ghost use Rattle.pack_points.specs.Ready.{Sized, PointIn, numbers_good, all_points, fields_fine};

use field_test::{all_are, text_fault};
use pack_read::inner::{number_within, offset_of, outward_of, trailer_number};
use pack_read::{Layout, PackPoint, PackTrailer, has_suffix};
use pack_rows::inner::text_empty;

// Whether the n-th offset of a rest refers to a row. Its bytes are taken from the back: an absent one reads the same, and
// so they are compared at once.
fn is_given(pack: &[u8], rest: usize, n: usize) -> bool
    requires { RestIn pack.now rest × (n ≤ 7) }
    ensures { result ≡ given pack.now rest n }
{
    let at = rest + PackPoint::OFFSETS + 4 * n;
    let low = pack[at] as usize + pack[at + 1] as usize * 256;
    let high = pack[at + 2] as usize + pack[at + 3] as usize * 256;
    low + high * 65536 != PackPoint::ABSENT
}

// Whether the postcode is well formed, in the code of the trailer.
fn postcode_good(pack: &[u8], layout: Layout, at: usize) -> bool
    requires { PostcodeIn pack.now at × Trailed pack.now layout }
    ensures { result ≡ postcode_good pack.now at }
{
    let inward = at + PackPoint::INWARD;
    if !file_compare::same_bytes(&pack[at..inward], outward_of(pack, layout)) {
        return false;
    }
    field_inward::is_inward(&pack[inward..at + PackPoint::POSTCODE_END])
}

// Whether the suffix is well formed, in an edition that has one.
fn suffix_good(pack: &[u8], layout: Layout, at: usize) -> bool
    requires { PointIn pack.now at × LaidIn pack.now layout }
    ensures { result ≡ suffix_good pack.now at }
{
    if !has_suffix(layout.edition) {
        return true;
    }
    let from = at + PackPoint::SUFFIX;
    field_inward::is_suffix(&pack[from..from + PackPoint::SUFFIX_WIDTH])
}

// Whether keys and number are not too high.
fn numbers_good(pack: &[u8], rest: usize) -> bool
    requires { RestIn pack.now rest }
    ensures { result ≡ numbers_good pack.now rest }
{
    let address = number_within(pack, rest + PackPoint::ADDRESS_KEY, 4);
    let organisation = number_within(pack, rest + PackPoint::ORGANISATION_KEY, 4);
    let number = number_within(pack, rest + PackPoint::NUMBER, 2);
    (address.max(organisation) <= 99999999) & (number <= 9999)
}

// Whether a PO box is well formed: this looks for no place.
fn box_good(s: &[u8]) -> bool
    ensures { result ≡ eqb (text_fault s.now) 0 }
{
    if all_are(s, 32) {
        return true;
    }
    text_fault(s) == 0
}

// Whether type, keys, number, concatenation and PO box are well formed.
fn plain_good(pack: &[u8], rest: usize) -> bool
    requires { RestIn pack.now rest }
    ensures { result ≡ plain_good pack.now rest }
{
    if !numbers_good(pack, rest) {
        return false;
    }
    let kind = pack[rest + PackPoint::TYPE];
    let mark = pack[rest + PackPoint::CONCATENATION];
    let marks = ((kind == b'S') | (kind == b'L')) & ((mark == b'Y') | (mark == b' '));
    if !marks {
        return false;
    }
    box_good(&pack[rest + PackPoint::PO_BOX..rest + PackPoint::OFFSETS])
}

// Whether no forbidden combination is present.
fn allowed_mix(pack: &[u8], rest: usize) -> bool
    requires { RestIn pack.now rest }
    ensures { result ≡ allowed_mix pack.now rest }
{
    let sub = is_given(pack, rest, 6);
    let name = is_given(pack, rest, 5);
    let number = number_within(pack, rest + PackPoint::NUMBER, 2) != 0;
    let street = is_given(pack, rest, 1);
    let descriptor = is_given(pack, rest, 2);
    let dependent = is_given(pack, rest, 3);
    let second = is_given(pack, rest, 4);
    let own = (descriptor & !street) | (second & !dependent);
    !(sub & !(name | number)) & (!(dependent & !street) & !own)
}

// Whether a point has the organisation row that its type and its organisation key ask for. Without one the first row is
// looked at, so that nothing has to be guessed on the way.
fn organisation_good(pack: &[u8], rows: &[u8], rest: usize) -> bool
    requires { RestIn pack.now rest × (rows.now ≡ row_area pack.now) }
    ensures { result ≡ organisation_good pack.now rest }
{
    let given = is_given(pack, rest, 7);
    let large = pack[rest + PackPoint::TYPE] == b'L';
    let keyed = number_within(pack, rest + PackPoint::ORGANISATION_KEY, 4) != 0;
    let row = offset_of(pack, rest, 7);
    let at = if given { row } else { 0 };
    let named = !text_empty(rows, at, 0);
    let wanted = large | keyed;
    ((given & wanted) | !(given | wanted)) & ((large | !keyed) | named)
}

// Whether all but the offsets of the point at a place is good.
fn point_good(pack: &[u8], rows: &[u8], layout: Layout, at: usize) -> bool
    requires { PointIn pack.now at × (Trailed pack.now layout × (rows.now ≡ row_area pack.now)) }
    ensures { result ≡ fields_fine pack.now at }
{
    let rest = at + layout.rest;
    if !postcode_good(pack, layout, at) {
        return false;
    }
    if !plain_good(pack, rest) {
        return false;
    }
    let suffix = suffix_good(pack, layout, at);
    let locality = is_given(pack, rest, 0);
    let mix = allowed_mix(pack, rest);
    let organisation = organisation_good(pack, rows, rest);
    locality & (suffix & (mix & organisation))
}

// Whether all but the offsets of the points is good.
pub fn fields_good(pack: &[u8], rows: &[u8], layout: Layout) -> bool
    requires { Sized pack.now × (LaidIn pack.now layout × (rows.now ≡ row_area pack.now)) }
    ensures { result ≡ all_points pack.now (fields_fine pack.now) }
{
    let count = trailer_number(pack, layout, PackTrailer::POINTS);
    let start = trailer_number(pack, layout, PackTrailer::START);
    for i in 0..count {
        if !point_good(pack, rows, layout, start + layout.point * i) {
            return false;
        }
    }
    true
}
