// Views and live views of a point file: the step to the next one, how many there are, the k-th, and the number of one. Any
// bytes may be asked; only of an accepted file is the answer what document 01 calls a view.
#![tactic(auto)]

ghost use Rattle.std.specs.Prelude.{◌≡◌, length};
ghost use Rattle.changes_views.specs.Views.{wanted, last_of, next_wanted, wanted_from, wanted_count, wanted_at, view_number};

// Whether a record is wanted: a live view of the code; where no code is given, any view.
pub fn is_wanted(rec: &[u8], code: &[u8]) -> bool
    ensures { result ≡ wanted code.now rec.now }
{
    if file_record::byte_of(rec, file_record::Point::TYPE) != b'1' {
        return false;
    }
    if code.len() == 0 {
        return true;
    }
    let letter = file_record::byte_of(rec, file_record::Point::LETTER);
    let outward = file_record::part_of(
        rec,
        file_record::Point::OUTWARD,
        file_record::Point::INWARD,
    );
    let same = file_compare::same_bytes(outward, code);
    ((letter == b'I') | (letter == b'C')) & same
}

// The trailer's place; 0 where the file has no records.
pub fn last_of(points: &[u8]) -> usize
    ensures { result ≡ last_of points.now }
{
    (points.len() / file_record::Point::WIDTH).saturating_sub(1)
}

// The step: the place of the first that is wanted from `i` on, or the trailer's place.
pub fn next_wanted(points: &[u8], code: &[u8], i: usize) -> usize
    ensures { result ≡ next_wanted code.now points.now i }
{
    let last = last_of(points);
    for at in i..last {
        let rec = file_record::point_record(points, at);
        if is_wanted(rec, code) {
            return at;
        }
    }
    i.max(last)
}

// How many are wanted of so many records behind the header.
fn count_of(points: &[u8], code: &[u8], many: usize) -> usize
    ensures { result ≡ length (wanted_from code.now points.now many 1) }
{
    let mut n = 0;
    for i in 0..many {
        if is_wanted(file_record::point_record(points, i + 1), code) {
            n += 1;
        }
    }
    n
}

// How many are wanted.
pub fn count_wanted(points: &[u8], code: &[u8]) -> usize
    ensures { result ≡ wanted_count code.now points.now }
{
    count_of(points, code, last_of(points).saturating_sub(1))
}

// The number of the view at a place: how many views stand up to it.
pub fn number_at(points: &[u8], place: usize) -> usize
    ensures { result ≡ view_number points.now place }
{
    count_of(points, &points[..0], place)
}

// The place of the `k`-th that is wanted, counted from 1; 0 where there is none.
pub fn wanted_at(points: &[u8], code: &[u8], k: usize) -> usize
    ensures { result ≡ wanted_at code.now points.now k }
{
    let last = last_of(points);
    let mut at = 0;
    for _ in 0..k {
        at = next_wanted(points, code, at + 1);
        if last <= at {
            return 0;
        }
    }
    at
}
