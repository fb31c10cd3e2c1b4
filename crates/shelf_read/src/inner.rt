// Reading a shelf: the caller knows that its fields lie within its records.
ghost use Rattle.std.specs.Prelude.{◌≡◌, ◌<◌};
ghost use Rattle.shelf.specs.Shelf.{Fit, record_of, last_of, ref_at};

use shelf::Shelf;

// The trailer's place; 0 where the shelf has no records.
pub fn last_of(file: &[u8], s: Shelf) -> usize
    requires { Fit s }
    ensures { result ≡ last_of s file.now }
{
    let records = file.len() / s.width;
    if records == 0 { 0 } else { records - 1 }
}

// Record `i`, counted from 0, as a part of the shelf; no bytes where there is none.
pub fn record_of(file: &[u8], s: Shelf, i: usize) -> &[u8]
    requires { Fit s }
    ensures { result.now ≡ record_of s file.now i }
{
    let width = s.width;
    if i < file.len() / width {
        file_record::inner::whole_record(file, width, i)
    } else {
        &file[..0]
    }
}

// The number of record `i`.
pub fn ref_at(file: &[u8], s: Shelf, i: usize) -> usize
    requires { Fit s }
    ensures { (result ≡ ref_at s file.now i) × (result < 2_000_000_000) }
{
    let rec = record_of(file, s, i);
    s.base + field_read::value_of(file_record::part_of(rec, s.key, s.key + s.digits))
}
