// Whether bytes are a book, and how many delivery points it has.
#![tactic(auto)]

mod fine;
pub mod inner;
mod placed;

ghost use Rattle.std.specs.Prelude.{◌≡◌};
ghost use Rattle.book.specs.Book.{is_book, book_judged};

use book::Book;
use fine::all_fine;
use inner::count_of;
use placed::all_placed;
use refusal::{Answer, LaterReason, Reason};

// Whether bytes are a book: what costs least is asked first.
fn is_book(book: &[u8]) -> bool
    ensures { result ≡ is_book book.now }
{
    if book.len() != Book::LENGTH {
        return false;
    }
    let count = count_of(book);
    if Book::SLOTS < count {
        return false;
    }
    if !all_placed(book, count) {
        return false;
    }
    all_fine(book)
}

// How many delivery points a book has; 28 where it is none.
pub fn check_book(book: &[u8]) -> Answer
    ensures { result ≡ book_judged book.now }
{
    if is_book(book) {
        return Ok(count_of(book));
    }
    Err(Reason::Later(LaterReason::NotABook).into())
}
