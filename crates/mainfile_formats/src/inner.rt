// What differs from file to file of a set. A record's width is a constant in each case, so that it is known when this is compiled.
ghost use Rattle.std.specs.Prelude.{◌≡◌, ◌<◌};
ghost use Rattle.file.specs.Check.{records, at};
ghost use Rattle.file.specs.Mainfile.{main_format};

pub use crate::rising::is_higher;
pub use crate::standing::is_standing;
use file::MainKind;
use file_record::inner::whole_record;
use mainfile_ends::{address_header_ok, address_trailer_ok, nines_counted, zeros_named};
use mainfile_record::{Address, Locality, Organisation, Text};
use mainfile_rows::text_fault;

// The number of a file in its set.
pub fn file_of(kind: MainKind) -> usize
    ensures { result ≡ (main_format kind).file }
{
    match kind {
        MainKind::Localities => 1,
        MainKind::Thoroughfares => 2,
        MainKind::Descriptors => 3,
        MainKind::Buildings => 4,
        MainKind::SubBuildings => 5,
        MainKind::Organisations => 6,
        MainKind::Addresses => 7,
    }
}

// The bytes of a record.
pub fn width_of(kind: MainKind) -> usize
    ensures { result ≡ (main_format kind).width }
{
    match kind {
        MainKind::Localities => Locality::WIDTH,
        MainKind::Thoroughfares => Text::THOROUGHFARE_WIDTH,
        MainKind::Descriptors => Text::DESCRIPTOR_WIDTH,
        MainKind::Buildings => Text::BUILDING_WIDTH,
        MainKind::SubBuildings => Text::SUB_BUILDING_WIDTH,
        MainKind::Organisations => Organisation::WIDTH,
        MainKind::Addresses => Address::WIDTH,
    }
}

// Record `i`, counted from 0, as a part of the file.
pub fn record_in(kind: MainKind, file: &[u8], i: usize) -> &[u8]
    requires { i < records (main_format kind) file.now }
    ensures { result.now ≡ at (main_format kind) file.now i }
{
    match kind {
        MainKind::Localities => whole_record(file, Locality::WIDTH, i),
        MainKind::Thoroughfares => whole_record(file, Text::THOROUGHFARE_WIDTH, i),
        MainKind::Descriptors => whole_record(file, Text::DESCRIPTOR_WIDTH, i),
        MainKind::Buildings => whole_record(file, Text::BUILDING_WIDTH, i),
        MainKind::SubBuildings => whole_record(file, Text::SUB_BUILDING_WIDTH, i),
        MainKind::Organisations => whole_record(file, Organisation::WIDTH, i),
        MainKind::Addresses => whole_record(file, Address::WIDTH, i),
    }
}

pub fn is_header(kind: MainKind, rec: &[u8]) -> bool
    ensures { result ≡ (main_format kind).headed rec.now }
{
    match kind {
        MainKind::Localities => zeros_named(rec, 0, b"LOCALITY"),
        MainKind::Thoroughfares => zeros_named(rec, 0, b"THOROUGH"),
        MainKind::Descriptors => zeros_named(rec, 0, b"THDESCRI"),
        MainKind::Buildings => zeros_named(rec, 0, b"BUILDING"),
        MainKind::SubBuildings => zeros_named(rec, 0, b"SUBBUILD"),
        MainKind::Organisations => zeros_named(rec, 0, b"ORGANISA"),
        MainKind::Addresses => address_header_ok(rec, b"ADDRESS "),
    }
}

// Whether a record is the trailer of `n` records.
pub fn is_trailer(kind: MainKind, rec: &[u8], n: usize) -> bool
    ensures { result ≡ (main_format kind).ended n rec.now }
{
    match kind {
        MainKind::Localities => nines_counted(rec, 0, n),
        MainKind::Thoroughfares => nines_counted(rec, 0, n),
        MainKind::Descriptors => nines_counted(rec, 0, n),
        MainKind::Buildings => nines_counted(rec, 0, n),
        MainKind::SubBuildings => nines_counted(rec, 0, n),
        MainKind::Organisations => nines_counted(rec, 0, n),
        MainKind::Addresses => address_trailer_ok(rec, n),
    }
}

// The byte at which a record's first fault stands.
pub fn fault_in(kind: MainKind, rec: &[u8]) -> usize
    ensures { result ≡ (main_format kind).fault rec.now }
{
    match kind {
        MainKind::Localities => mainfile_rows::locality_fault(rec),
        MainKind::Thoroughfares => text_fault(rec, 8, 60),
        MainKind::Descriptors => text_fault(rec, 4, 20),
        MainKind::Buildings => text_fault(rec, 8, 50),
        MainKind::SubBuildings => text_fault(rec, 8, 30),
        MainKind::Organisations => mainfile_rows::organisation_fault(rec),
        MainKind::Addresses => mainfile_addresses::address_fault(rec),
    }
}
