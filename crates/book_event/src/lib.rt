// A book asked, changed by an event of a point file, and tidied. Any bytes may be asked; a refused call leaves the book
// as it was.
#![tactic(auto)]

mod named;

ghost use Rattle.std.specs.Prelude.{◌≡◌, [], length};
ghost use Rattle.refusal.specs.Outcome.{said, afterwards};
ghost use Rattle.file.specs.Check.{checked};
ghost use Rattle.file.specs.Formats.{point_format};
ghost use Rattle.changes_views.specs.Views.{wanted_at};
ghost use Rattle.book.specs.Layout.{book_length};
ghost use Rattle.book.specs.Book.{book_judged};
ghost use Rattle.book.specs.Event.{event_from, event_outcome, tidy_outcome};
ghost use Rattle.refusal.specs.Answer.{refusal};

use book_check::check_book;
use named::event_from;
use refusal::Answer;

// The event that a view names, of what is as long as a book.
fn event_in(book: &mut [u8], points: &[u8], view: usize) -> Answer
    requires { length book.old ≡ book_length }
    ensures { said result book.new
        ≡ afterwards refusal (checked point_format points.now) book.old
        (event_from book.old points.now (wanted_at [] points.now view)) }
{
    file_check::check_points(points)?;
    let place = changes_views::wanted_at(points, &points[..0], view);
    event_from(book, points, place)
}

// The event that a view of a point file names is done: the value is the place concerned.
pub fn book_event(book: &mut [u8], points: &[u8], view: usize) -> Answer
    ensures { said result book.new ≡ event_outcome book.old points.now view }
{
    check_book(book)?;
    event_in(book, points, view)
}

// Places 1, 2 and so on stand in the first slots: the value is the count.
pub fn tidy_book(book: &mut [u8]) -> Answer
    ensures { said result book.new ≡ tidy_outcome book.old }
{
    check_book(book)?;
    Ok(book_change::inner::tidy(book))
}
