// The event that a view names, done to what is as long as a book.
ghost use Rattle.std.specs.Prelude.{◌≡◌, cond, ◌≤◌, ◌<◌, length};
ghost use Rattle.std.proofs.Math.Option.{none, some};
ghost use Rattle.refusal.specs.Outcome.{said};
ghost use Rattle.refusal.specs.declared.Reason.TheVariants.{Later};
ghost use Rattle.refusal.specs.declared.LaterReason.TheVariants.{Unpaired};
ghost use Rattle.changes_views.specs.Views.{last_of};
ghost use Rattle.book.specs.Layout.{book_length};
ghost use Rattle.book.specs.Event.{present_at, next_view, paired, event_at, insertion, replacement, event_done, event_from};
ghost use Rattle.book.specs.Event.{replace as replaceBy};
ghost use Rattle.refusal.specs.Answer.{refusal};

use book_change::inner::{insert, remove, replace};
use changes_views::{last_of, next_wanted};
use file_record::{Point, byte_of, part_of, point_record};
use refusal::{Answer, LaterReason, Reason};

// The view at a place and its follower, zeros where it needs none, are inserted.
fn insert_from(book: &mut [u8], points: &[u8], place: usize) -> Answer
    requires { (length book.old ≡ book_length) × (place < last_of points.now) }
    ensures { said result book.new
        ≡ insertion book.old (present_at points.now place) }
{
    let view = point_record(points, place);
    if file::needed_next(view) == 0 {
        let none = [0u8; Point::WIDTH];
        return insert(book, view, &none);
    }
    insert(book, view, point_record(points, place + 1))
}

// The same, in place of what is present.
fn replace_by(book: &mut [u8], points: &[u8], place: usize) -> Answer
    requires { (length book.old ≡ book_length) × (place < last_of points.now) }
    ensures { said result book.new
        ≡ replacement book.old (present_at points.now place) }
{
    let view = point_record(points, place);
    if file::needed_next(view) == 0 {
        let none = [0u8; Point::WIDTH];
        return replace(book, view, &none);
    }
    replace(book, view, point_record(points, place + 1))
}

// Whether the next view, which is at `next`, is the C of the same delivery point.
fn is_paired(points: &[u8], place: usize, next: usize) -> bool
    requires { next ≡ next_view points.now place }
    ensures { result ≡ paired points.now place }
{
    if last_of(points) <= next {
        return false;
    }
    let rec = point_record(points, next);
    let ends = byte_of(rec, Point::LETTER) == b'C';
    let same = file_compare::same_bytes(
        part_of(rec, Point::POSTCODE_TYPE, Point::LETTER),
        part_of(
            point_record(points, place),
            Point::POSTCODE_TYPE,
            Point::LETTER,
        ),
    );
    ends & same
}

fn unpaired() -> Answer
    ensures { result ≡ refusal 0 (Later Unpaired) }
{
    Err(Reason::Later(LaterReason::Unpaired).into())
}

// A B: its C is the next view.
fn replace_from(book: &mut [u8], points: &[u8], place: usize) -> Answer
    requires { (length book.old ≡ book_length) × (place < last_of points.now) }
    ensures { said result book.new ≡ event_done book.old
        (cond (paired points.now place)
        (some (replaceBy (present_at points.now (next_view points.now place)))) none) }
{
    let next = next_wanted(points, &points[..0], place + 1);
    if !is_paired(points, place, next) {
        return unpaired();
    }
    replace_by(book, points, next)
}

// By the letter of a view; a C is named by none.
fn event_at(book: &mut [u8], points: &[u8], place: usize) -> Answer
    requires { (length book.old ≡ book_length) × (place < last_of points.now) }
    ensures { said result book.new ≡ event_done book.old (event_at points.now place) }
{
    let rec = point_record(points, place);
    let letter = byte_of(rec, Point::LETTER);
    if letter == b'I' {
        return insert_from(book, points, place);
    }
    if letter == b'D' {
        return remove(book, part_of(rec, Point::POSTCODE_TYPE, Point::LETTER));
    }
    if letter == b'B' {
        return replace_from(book, points, place);
    }
    unpaired()
}

// Of the view at a place, 0 being no place.
pub fn event_from(book: &mut [u8], points: &[u8], place: usize) -> Answer
    requires { (length book.old ≡ book_length) × (1 ≤ place → place < last_of points.now) }
    ensures { said result book.new ≡ event_from book.old points.now place }
{
    if place == 0 {
        return Err(Reason::NoSuchNumber.into());
    }
    event_at(book, points, place)
}
