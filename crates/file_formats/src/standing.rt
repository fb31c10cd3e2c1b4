// Whether a record is known to stand as it must: asked without a place and without a reason, since nearly all do.
ghost use Rattle.std.specs.Prelude.{◌≡◌, true, get_or};
ghost use Rattle.file.specs.Check.{at, judged};
ghost use Rattle.file.specs.Formats.{format_of, table_format, point_format};
ghost use Rattle.file.specs.Walk.{Walk};
ghost use Rattle.refusal.specs.Verdict.{fine};

use changes_points::inner::is_fine_follower;
use file::Kind;
use file::inner::is_followed;
use file_compare::inner::{is_above_24, is_above_42};
use file_record::inner::whole_record;
use file_record::{Point, Table, byte_of, part_of};

// A row of a table file.
fn is_standing_row(file: &[u8], i: usize) -> bool
    requires { Walk table_format file.now i }
    ensures { result ≡ true → judged table_format file.now i ≡ fine }
{
    let rec = whole_record(file, Table::WIDTH, i);
    if !changes_table::inner::is_fine(rec) {
        return false;
    }
    let before = whole_record(file, Table::WIDTH, i - 1);
    let above = is_above_24(
        part_of(rec, 0, Table::TEXT),
        part_of(before, 0, Table::TEXT),
    );
    (i == 1) | above
}

// A view of a point file.
fn is_standing_view(file: &[u8], i: usize) -> bool
    requires { Walk point_format file.now i × (get_or (at point_format file.now i) 41 0 ≡ 49) }
    ensures { result ≡ true → judged point_format file.now i ≡ fine }
{
    let rec = whole_record(file, Point::WIDTH, i);
    let before = whole_record(file, Point::WIDTH, i - 1);
    if !changes_points::inner::is_fine(before, rec, i != 1) {
        return false;
    }
    let above = is_above_42(
        part_of(rec, 0, Point::REST),
        part_of(before, 0, Point::REST),
    );
    if (i != 1) & !above {
        return false;
    }
    is_followed(rec, whole_record(file, Point::WIDTH, i + 1))
}

// A follower: the record before it is judged already, and where that needs one, this is the one.
fn is_standing_follower(file: &[u8], i: usize) -> bool
    requires { Walk point_format file.now i × (get_or (at point_format file.now i) 41 0 ≡ 49 → ⊥) }
    ensures { result ≡ true → judged point_format file.now i ≡ fine }
{
    let before = whole_record(file, Point::WIDTH, i - 1);
    if (i == 1) | (file::needed_next(before) == 0) {
        return false;
    }
    is_fine_follower(before, whole_record(file, Point::WIDTH, i))
}

fn is_standing_point(file: &[u8], i: usize) -> bool
    requires { Walk point_format file.now i }
    ensures { result ≡ true → judged point_format file.now i ≡ fine }
{
    if byte_of(whole_record(file, Point::WIDTH, i), Point::TYPE) == b'1' {
        is_standing_view(file, i)
    } else {
        is_standing_follower(file, i)
    }
}

// Record `i`, where the one before it is judged fine or is the header.
pub fn is_standing(kind: Kind, file: &[u8], i: usize) -> bool
    requires { Walk (format_of kind) file.now i }
    ensures { result ≡ true → judged (format_of kind) file.now i ≡ fine }
{
    match kind {
        Kind::Table => is_standing_row(file, i),
        Kind::Points => is_standing_point(file, i),
        Kind::Main(main) => mainfile_formats::inner::is_standing(main, file, i),
    }
}
