// Records as parts of a file, and parts and bytes of a record. A part reaches as far as there are bytes, so that any
// bytes may be asked for any part.
ghost use Rattle.std.specs.Prelude.{◌≡◌, ◌+◌, ◌*◌, ◌/◌, ◌<◌, ◌≤◌, length, get_or};
ghost use Rattle.field.specs.Text.{part};
ghost use Rattle.file_record.specs.Parts.{record_at};
ghost use Rattle.file_record.specs.Names.Table.{width as tableWidth};
ghost use Rattle.file_record.specs.Names.Point.{width as point_width};

use crate::layout::{Point, Table};

// The bytes from `start` up to `end`, as a part of the record.
pub fn part_of(rec: &[u8], start: usize, end: usize) -> &[u8]
    ensures { result.now ≡ part rec.now start end }
{
    let e = end.min(rec.len());
    &rec[start.min(e)..e]
}

// Record `i` of a file that has so many records of this width, counted from 0, as a part of the file.
pub fn whole_record(file: &[u8], width: usize, i: usize) -> &[u8]
    requires { (i < length file.now / width) × (i * width + width ≤ length file.now) }
    ensures { result.now ≡ record_at width file.now i }
{
    let a = i * width;
    &file[a..a + width]
}

// Record `i` of a table file, counted from 0, as a part of the file; no bytes where there is none.
pub fn table_record(file: &[u8], i: usize) -> &[u8]
    ensures { result.now ≡ record_at tableWidth file.now i }
{
    if i < file.len() / Table::WIDTH {
        whole_record(file, Table::WIDTH, i)
    } else {
        &file[..0]
    }
}

// Record `i` of a point file, counted from 0, as a part of the file; no bytes where there is none.
pub fn point_record(file: &[u8], i: usize) -> &[u8]
    ensures { result.now ≡ record_at point_width file.now i }
{
    if i < file.len() / Point::WIDTH {
        whole_record(file, Point::WIDTH, i)
    } else {
        &file[..0]
    }
}

// The byte at `at`, and 0 where there is none.
pub fn byte_of(rec: &[u8], at: usize) -> u8
    ensures { result ≡ get_or rec.now at 0 }
{
    rec.get(at).copied().unwrap_or(0)
}
