// What a point file lists: its views, a view's letter, the live views of a code.
#![tactic(auto)]

ghost use Rattle.std.specs.Prelude.{◌≡◌};
ghost use Rattle.changes_list.specs.Listing.{views_answer, letter_at, letter_answer, live_at, live_answer};

use refusal::{Answer, Reason};

// How many views a point file has.
pub fn views_in(points: &[u8]) -> Answer
    ensures { result ≡ views_answer points.now }
{
    file_check::check_points(points)?;
    Ok(changes_views::count_wanted(points, &points[..0]))
}

// The amendment letter of a view.
pub fn letter_of(points: &[u8], view: usize) -> Answer
    ensures { result ≡ letter_answer points.now view }
{
    file_check::check_points(points)?;
    letter_at(points, changes_views::wanted_at(points, &points[..0], view))
}

// The letter of the record at a place, 0 being no place.
fn letter_at(points: &[u8], place: usize) -> Answer
    ensures { result ≡ letter_at points.now place }
{
    if place == 0 {
        return Err(Reason::NoSuchNumber.into());
    }
    let letter = file_record::byte_of(
        file_record::point_record(points, place),
        file_record::Point::LETTER,
    );
    Ok(letter as usize)
}

// How many live views a code has.
pub fn live_in(points: &[u8], code: &[u8]) -> Answer
    ensures { result ≡ live_answer points.now code.now }
{
    file_check::check_points(points)?;
    live_at(points, code)
}

// The same of an accepted file.
fn live_at(points: &[u8], code: &[u8]) -> Answer
    ensures { result ≡ live_at points.now code.now }
{
    if field_outward::outward_fault(code) == 0 {
        Ok(changes_views::count_wanted(points, code))
    } else {
        Err(Reason::BadCode.into())
    }
}
