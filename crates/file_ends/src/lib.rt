// Header and trailer.
#![tactic(auto)]

ghost use Rattle.std.specs.Prelude.{◌≡◌};
ghost use Rattle.file_ends.specs.Ends.{identifier, identified, header_ok, trailer_ok};

use file_compare::order_of;
use file_record::part_of;

// What may stand as an identifier.
#[derive(Clone, Copy)]
pub enum Identifier {
    Proper,
    Spaces,
}

// The identifier that some bytes are, all of them the proper byte or all of them spaces.
pub fn identifier_of(s: &[u8], proper: u8) -> Option<Identifier>
    ensures { result ≡ identified (identifier proper s.now) }
{
    if field_test::all_are(s, proper) {
        Some(Identifier::Proper)
    } else if field_test::all_are(s, b' ') {
        Some(Identifier::Spaces)
    } else {
        None
    }
}

// Whether a header has an identifier of `width` bytes and the file's name behind it.
pub fn header_ok(rec: &[u8], width: u8, name: &[u8]) -> bool
    ensures { result ≡ header_ok width name.now rec.now }
{
    let end = width as usize;
    let kind = identifier_of(part_of(rec, 0, end), 0);
    let order = order_of(part_of(rec, end, end + 8), name);
    kind.is_some() & order.is_eq()
}

// Whether a trailer has an identifier of `width` bytes and the number of records behind it.
pub fn trailer_ok(rec: &[u8], width: u8, records: usize) -> bool
    ensures { result ≡ trailer_ok width records rec.now }
{
    let end = width as usize;
    let kind = identifier_of(part_of(rec, 0, end), 255);
    let count = part_of(rec, end, end + 8);
    let fault = field_test::digits_fault(count);
    let value = field_read::value_of(count);
    kind.is_some() & ((fault == 0) & (value == records))
}
