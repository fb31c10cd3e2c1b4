// Whether an offset is the start of a row, told by a bit for each byte of the row area.
ghost use Rattle.std.specs.Prelude.{◌≡◌, ℕ, ◌*◌, ◌≤◌, length, get_or};
ghost use Rattle.pack.specs.Opening.{offset_good};
ghost use Rattle.pack_rows.specs.Marks.{Fine};

use bits::inner::is_marked;
use pack_read::PackPoint;

// Whether an offset is absent, or the start of a row of a type. An absent one is looked up as the first row, so that
// nothing has to be guessed on the way.
pub fn offset_marked(rows: &[u8], marks: &[u32], first: u8, kind: u8, o: usize) -> bool
    requires { (first ≡ get_or rows.now 0 0) × (length rows.now ≤ length marks.now * 32) }
    ensures { (n : ℕ) → Fine rows.now n marks.now → result
        ≡ offset_good rows.now n kind o }
{
    let absent = o == PackPoint::ABSENT;
    let at = if absent { 0 } else { o };
    let wanted = if absent { first } else { kind };
    if rows.len() <= at {
        return false;
    }
    is_marked(marks, at) & (rows[at] == wanted)
}
