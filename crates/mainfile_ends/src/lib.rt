// Header and trailer of the Mainfile's files.
#![tactic(auto)]

ghost use Rattle.std.specs.Prelude.{◌≡◌};
ghost use Rattle.mainfile_ends.specs.Ends.{named_at, counted_at, zeros_named, nines_counted};
ghost use Rattle.mainfile_ends.specs.Ends.{address_header_ok, address_trailer_ok};

use file_compare::order_of;
use file_ends::identifier_of;
use file_record::part_of;

// Whether the file's name stands at a place.
fn named_at(rec: &[u8], at: u16, name: &[u8]) -> bool
    ensures { result ≡ named_at at name.now rec.now }
{
    let start = at as usize;
    order_of(part_of(rec, start, start + 8), name).is_eq()
}

// Whether the number of records stands at a place.
fn counted_at(rec: &[u8], at: u16, records: usize) -> bool
    ensures { result ≡ counted_at at records rec.now }
{
    let start = at as usize;
    let count = part_of(rec, start, start + 8);
    let fault = field_test::digits_fault(count);
    let value = field_read::value_of(count);
    (fault == 0) & (value == records)
}

// Whether eight zeros stand at a place, and the file's name behind them.
pub fn zeros_named(rec: &[u8], at: u8, name: &[u8]) -> bool
    ensures { result ≡ zeros_named at name.now rec.now }
{
    let start = at as usize;
    let zeros = field_test::all_are(part_of(rec, start, start + 8), b'0');
    let named = named_at(rec, at as u16 + 8, name);
    zeros & named
}

// Whether eight nines stand at a place, and the number of records behind them.
pub fn nines_counted(rec: &[u8], at: u8, records: usize) -> bool
    ensures { result ≡ nines_counted at records rec.now }
{
    let start = at as usize;
    let nines = field_test::all_are(part_of(rec, start, start + 8), b'9');
    let counted = counted_at(rec, at as u16 + 8, records);
    nines & counted
}

// Whether a record is the header of an address file.
pub fn address_header_ok(rec: &[u8], name: &[u8]) -> bool
    ensures { result ≡ address_header_ok name.now rec.now }
{
    let kind = identifier_of(part_of(rec, 0, 7), 0);
    let named = zeros_named(rec, 7, name);
    kind.is_some() & named
}

// Whether a record is the trailer of an address file of so many records.
pub fn address_trailer_ok(rec: &[u8], records: usize) -> bool
    ensures { result ≡ address_trailer_ok records rec.now }
{
    let kind = identifier_of(part_of(rec, 0, 7), 255);
    let counted = nines_counted(rec, 7, records);
    kind.is_some() & counted
}
