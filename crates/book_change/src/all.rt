// All slots of a book written, one after the other.
ghost use Rattle.std.specs.Prelude.{◌≡◌, ℕ, true, List, length};
ghost use Rattle.book.specs.Layout.{slots, book_length, count_of};
ghost use Rattle.book.specs.Book.{is_book};
ghost use Rattle.book.specs.Event.{slot_removed, slot_replaced, slot_tidied};
ghost use Rattle.book_change.specs.Slotted.{SlotIn, Records, Upto, Gives, present};

use crate::slot::{remove_in, replace_in, tidy_in};
use book::Book;

// Each slot is written by a step, which is told its number.
fn each_slot<F: Fn(&mut [u8], usize)>(book: &mut [u8], step: F)
    requires long { length book.old ≡ book_length }
    requires callable { (b : _) (s : ℕ) → SlotIn b.now s → F.pre step b s }
    ensures { (f : ℕ → List ℕ) → Gives (λ b s b'. F.post step b s tt b') f book.old
        → Upto f slots book.old book.new }
{
    for s in 0..Book::SLOTS {
        step(book, s);
    }
}

// What has a place is zeroed, and later places fall by one.
pub fn remove_all(book: &mut [u8], place: usize)
    requires { length book.old ≡ book_length }
    ensures { Upto (slot_removed book.old place) slots book.old book.new }
{
    each_slot(book, |book, s| remove_in(book, s, place));
}

// What has a place gets other records.
pub fn replace_all(book: &mut [u8], place: usize, view: &[u8], follower: &[u8])
    requires { (length book.old ≡ book_length) × Records view.now follower.now }
    ensures { Upto (slot_replaced book.old place (present view.now follower.now))
        slots book.old book.new }
{
    each_slot(book, |book, s| replace_in(book, s, place, view, follower));
}

// Places 1, 2 and so on into the first slots, by what the book was.
pub fn tidy_all(book: &mut [u8], old: &[u8], count: usize)
    requires { (length book.old ≡ book_length) × (is_book old.now ≡ true) × (count ≡ count_of old.now) }
    ensures { Upto (slot_tidied old.now) slots book.old book.new }
{
    each_slot(book, |book, s| tidy_in(book, s, old, count));
}
