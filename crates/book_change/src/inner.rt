// A book changed, for callers that know that it is as long as one. The count is written with the slots. A refusal
// leaves all as it was.
ghost use Rattle.std.specs.Prelude.{◌≡◌, true, length};
ghost use Rattle.refusal.specs.Outcome.{said};
ghost use Rattle.refusal.specs.declared.Reason.TheVariants.{Later};
ghost use Rattle.book.specs.Layout.{book_length, count_of, laid};
ghost use Rattle.book.specs.Book.{is_book};
ghost use Rattle.book.specs.Event.{slot_tidied, insertion, removal, replacement};
ghost use Rattle.book_check.specs.Identity.{identity_length};
ghost use Rattle.book_change.specs.Slotted.{Records, present};
ghost use Rattle.refusal.specs.Answer.{refusal};

use crate::all::{remove_all, replace_all, tidy_all};
use crate::slot::keep_in;
use book::Book;
use book_check::inner::{count_of, free_slot, keeper_of, place_in};
use build_bytes::inner::{above, short_at};
use file_record::Point;
use label_pieces::inner::bytes_at;
use refusal::{Answer, LaterReason, Reason};

fn refused(why: LaterReason) -> Answer
    ensures { result ≡ refusal 0 (Later why) }
{
    Err(Reason::Later(why).into())
}

// The lowest free slot gets the records and the place behind all others.
pub fn insert(book: &mut [u8], view: &[u8], follower: &[u8]) -> Answer
    requires { (length book.old ≡ book_length) × Records view.now follower.now }
    ensures { said result book.new
        ≡ insertion book.old (present view.now follower.now) }
{
    let kept = keeper_of(book, &view[Point::POSTCODE_TYPE..Point::LETTER]);
    if kept < Book::SLOTS {
        return refused(LaterReason::InsertedTwice);
    }
    let free = free_slot(book);
    if Book::SLOTS <= free {
        return refused(LaterReason::NoFreeSlot);
    }
    let count = count_of(book) + 1;
    keep_in(book, free, count, view, follower);
    short_at(count, Book::COUNT, book);
    Ok(count)
}

// The slot of a delivery point is zeroed, and later places fall by one.
pub fn remove(book: &mut [u8], id: &[u8]) -> Answer
    requires { (length book.old ≡ book_length) × (length id.now ≡ identity_length) }
    ensures { said result book.new ≡ removal book.old id.now }
{
    let s = keeper_of(book, id);
    if Book::SLOTS <= s {
        return refused(LaterReason::NotPresent);
    }
    let count = count_of(book);
    let place = place_in(book, s);
    remove_all(book, place);
    short_at(above(count, 1), Book::COUNT, book);
    Ok(place)
}

// The slot of a delivery point gets other records, and keeps its place.
pub fn replace(book: &mut [u8], view: &[u8], follower: &[u8]) -> Answer
    requires { (length book.old ≡ book_length) × Records view.now follower.now }
    ensures { said result book.new
        ≡ replacement book.old (present view.now follower.now) }
{
    let s = keeper_of(book, &view[Point::POSTCODE_TYPE..Point::LETTER]);
    if Book::SLOTS <= s {
        return refused(LaterReason::NotPresent);
    }
    let count = count_of(book);
    let place = place_in(book, s);
    replace_all(book, place, view, follower);
    short_at(count, Book::COUNT, book);
    Ok(place)
}

// Places 1, 2 and so on stand in the first slots: the value is the count.
pub fn tidy(book: &mut [u8]) -> usize
    requires { is_book book.old ≡ true }
    ensures { (result ≡ count_of book.old)
        × (book.new ≡ laid (slot_tidied book.old) (count_of book.old)) }
{
    let mut old = [0u8; Book::LENGTH];
    bytes_at(book, 0, &mut old);
    let count = count_of(book);
    tidy_all(book, &old, count);
    short_at(count, Book::COUNT, book);
    count
}
