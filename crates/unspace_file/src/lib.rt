// Archived table and point files rewritten in place, so that no identifier is spaces: zero bytes in the header, 255 in the
// trailer, and no other byte. A file that is not two or more whole records is left as it came. The answer is how many
// identifiers were rewritten.
#![tactic(auto)]

pub mod inner;

ghost use Rattle.std.specs.Prelude.{◌≡◌, ◌≤◌};
ghost use Rattle.file_record.specs.Names.Table as TableNames;
ghost use Rattle.file_record.specs.Names.Point as PointNames;
ghost use Rattle.unspace_file.specs.Unspaced.{unspaced, unspaced_count};

use file_record::{Point, Table};
use inner::rewrite;

// Of a file whose records are `width` bytes and begin, the first and the last, with an identifier of so many.
fn unspace(file: &mut [u8], width: usize, identifier: u8) -> usize
    requires { (1 ≤ width) × (identifier ≤ width) }
    ensures count { result ≡ unspaced_count width identifier file.old }
    ensures content { file.new ≡ unspaced width identifier file.old }
{
    let n = file.len() / width;
    if n * width != file.len() || n < 2 {
        return 0;
    }
    let head = rewrite(file, 0, identifier, 0);
    let end = rewrite(file, file.len() - width, identifier, 255);
    head + end
}

pub fn unspace_table(file: &mut [u8]) -> usize
    ensures count { result ≡ unspaced_count TableNames.width TableNames.identifier file.old }
    ensures content { file.new ≡ unspaced TableNames.width TableNames.identifier file.old }
{
    unspace(file, Table::WIDTH, Table::IDENTIFIER)
}

pub fn unspace_points(file: &mut [u8]) -> usize
    ensures count { result ≡ unspaced_count PointNames.width PointNames.identifier file.old }
    ensures content { file.new ≡ unspaced PointNames.width PointNames.identifier file.old }
{
    unspace(file, Point::WIDTH, Point::IDENTIFIER)
}
