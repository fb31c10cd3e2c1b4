// The organisation of a type and a key, found by halves.
ghost use Rattle.std.specs.Prelude.{◌≡◌, ◌<◌};
ghost use Rattle.file_record.specs.Parts.{record_at};
ghost use Rattle.mainfile_record.specs.Organisation.{width};
ghost use Rattle.shelf.specs.Search.{upper_of};
ghost use Rattle.mainfile_source.specs.Organisations.{organisation_number, number_at, last_in, organisation_found};

use mainfile_record::Organisation;

// What a type outweighs: all keys of eight digits.
const TYPE_UNIT: usize = 100_000_000;

// Record `i` of an organisations file, counted from 0; no bytes where there is none.
fn organisation_record(file: &[u8], i: usize) -> &[u8]
    ensures { result.now ≡ record_at width file.now i }
{
    if i < file.len() / Organisation::WIDTH {
        file_record::inner::whole_record(file, Organisation::WIDTH, i)
    } else {
        &file[..0]
    }
}

// The trailer's place; 0 where there is no record.
fn last_in(file: &[u8]) -> usize
    ensures { result ≡ last_in file.now }
{
    let records = file.len() / Organisation::WIDTH;
    if records == 0 { 0 } else { records - 1 }
}

// Type and key as one number.
fn number_of(user: u8, key: usize) -> usize
    requires { key < 10_000_000_000 }
    ensures { result ≡ organisation_number user key }
{
    user as usize * TYPE_UNIT + key
}

// The number of record `i`.
fn number_at(file: &[u8], i: usize) -> usize
    ensures { result ≡ number_at file.now i }
{
    let rec = organisation_record(file, i);
    let key = field_read::value_of(file_record::part_of(rec, 0, Organisation::TYPE));
    number_of(file_record::byte_of(rec, Organisation::TYPE), key)
}

// Behind the last record whose number is not above r.
fn upper_number(file: &[u8], r: usize) -> usize
    ensures { result ≡ upper_of (number_at file.now) (last_in file.now) r }
{
    let mut low = 1;
    let mut high = last_in(file);
    while low < high {
        let middle = low + (high - low) / 2;
        if r < number_at(file, middle) {
            high = middle;
        } else {
            low = middle + 1;
        }
    }
    low
}

// The last organisation of a type and a key; 0 where there is none.
pub fn organisation_row(file: &[u8], user: u8, key: u32) -> usize
    ensures { result ≡ organisation_found file.now user key }
{
    let r = number_of(user, key as usize);
    let end = upper_number(file, r);
    if end <= 1 {
        return 0;
    }
    let row = end - 1;
    if number_at(file, row) == r { row } else { 0 }
}
