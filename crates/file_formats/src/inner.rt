// What differs from kind to kind of file. A new kind is one more case here, as in `file::Kind` and `Formats.format_of`.
ghost use Rattle.std.specs.Prelude.{◌≡◌, ◌+◌, ◌≤◌, ◌<◌, length};
ghost use Rattle.file.specs.Check.{records, whole, at, higher, in_sequence, in_place};
ghost use Rattle.file.specs.Formats.{format_of};

pub use crate::standing::is_standing;
use file::inner::is_placed;
use file::{Kind, is_front_above};
use file_record::{Point, Table};

// The numbers of a format: the file to blame, the bytes of a record, the most records.
#[derive(Clone, Copy)]
pub struct Numbers {
    pub file: usize,
    pub width: usize,
    pub limit: usize,
}

pub fn numbers_of(kind: Kind) -> Numbers
    ensures file { result.file ≡ (format_of kind).file }
    ensures width { result.width ≡ (format_of kind).width }
    ensures limit { result.limit ≡ (format_of kind).limit }
{
    match kind {
        Kind::Table => Numbers {
            file: 1,
            width: Table::WIDTH,
            limit: 20000,
        },
        Kind::Points => Numbers {
            file: 2,
            width: Point::WIDTH,
            limit: 20000,
        },
        Kind::Main(main) => Numbers {
            file: mainfile_formats::inner::file_of(main),
            width: mainfile_formats::inner::width_of(main),
            limit: 1000000,
        },
    }
}

// How many whole records a file has.
pub fn records_in(kind: Kind, file: &[u8]) -> usize
    ensures { result ≡ records (format_of kind) file.now }
{
    let format = numbers_of(kind);
    let width = format.width;
    file.len() / width
}

// Whether a file is 2 records or more, as many as its format allows, and no byte stands behind them.
pub fn is_whole(kind: Kind, file: &[u8]) -> bool
    ensures { result ≡ whole (format_of kind) file.now }
{
    let format = numbers_of(kind);
    let width = format.width;
    let limit = format.limit;
    let n = file.len() / width;
    (n * width == file.len()) & ((2 <= n) & (n <= limit))
}

// Record `i`, counted from 0, as a part of the file. The width is a constant in each case, so that a record's length is
// known when this is compiled.
pub fn record_in(kind: Kind, file: &[u8], i: usize) -> &[u8]
    requires { i < records (format_of kind) file.now }
    ensures { result.now ≡ at (format_of kind) file.now i }
{
    match kind {
        Kind::Table => file_record::inner::whole_record(file, Table::WIDTH, i),
        Kind::Points => file_record::inner::whole_record(file, Point::WIDTH, i),
        Kind::Main(main) => mainfile_formats::inner::record_in(main, file, i),
    }
}

pub fn is_header(kind: Kind, rec: &[u8]) -> bool
    ensures { result ≡ (format_of kind).headed rec.now }
{
    match kind {
        Kind::Table => file_ends::header_ok(rec, Table::IDENTIFIER, b"CHANGES1"),
        Kind::Points => file_ends::header_ok(rec, Point::IDENTIFIER, b"CHANGES2"),
        Kind::Main(main) => mainfile_formats::inner::is_header(main, rec),
    }
}

// Whether a record is the trailer of `n` records.
pub fn is_trailer(kind: Kind, rec: &[u8], n: usize) -> bool
    ensures { result ≡ (format_of kind).ended n rec.now }
{
    match kind {
        Kind::Table => file_ends::trailer_ok(rec, Table::IDENTIFIER, n),
        Kind::Points => file_ends::trailer_ok(rec, Point::IDENTIFIER, n),
        Kind::Main(main) => mainfile_formats::inner::is_trailer(main, rec, n),
    }
}

// The byte at which a record's first fault stands.
pub fn fault_in(kind: Kind, rec: &[u8]) -> usize
    ensures { result ≡ (format_of kind).fault rec.now }
{
    match kind {
        Kind::Table => changes_table::table_fault(rec),
        Kind::Points => changes_points::point_fault(rec),
        Kind::Main(main) => mainfile_formats::inner::fault_in(main, rec),
    }
}

// Whether what the sequence compares of a record is above that of the one before.
fn is_higher(kind: Kind, before: &[u8], rec: &[u8]) -> bool
    requires { ((format_of kind).width ≤ length before.now) × ((format_of kind).width ≤ length rec.now) }
    ensures { result ≡ higher (format_of kind) before.now rec.now }
{
    match kind {
        Kind::Table => is_front_above(Table::TEXT, before, rec),
        Kind::Points => is_front_above(Point::REST, before, rec),
        Kind::Main(main) => mainfile_formats::inner::is_higher(main, before, rec),
    }
}

// Whether record `i` is above the one before it; the first behind the header has none before it.
pub fn is_above(kind: Kind, i: usize, before: &[u8], rec: &[u8]) -> bool
    requires { ((format_of kind).width ≤ length before.now) × ((format_of kind).width ≤ length rec.now) }
    ensures { result ≡ in_sequence (format_of kind) i before.now rec.now }
{
    let higher = is_higher(kind, before, rec);
    (i == 1) | higher
}

// Whether record `i` may stand between its neighbours.
pub fn is_between(kind: Kind, file: &[u8], i: usize) -> bool
    requires { (1 ≤ i) × (i + 1 < records (format_of kind) file.now) }
    ensures { result ≡ in_place (format_of kind) file.now i }
{
    match kind {
        Kind::Table => true,
        Kind::Points => is_placed(file, i),
        Kind::Main(main) => true,
    }
}
