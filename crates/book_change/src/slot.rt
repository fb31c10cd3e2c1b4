// One slot of a book written; the others stay as they were.
ghost use Rattle.std.specs.Prelude.{◌≡◌, true, ◌++◌, length, drop};
ghost use Rattle.pack.specs.Numbers.{bytes_of};
ghost use Rattle.book.specs.Layout.{slot_width, view_at, slot_at, count_of, zeros};
ghost use Rattle.book.specs.Book.{is_book};
ghost use Rattle.book.specs.Event.{slot_bytes, slot_removed, slot_replaced, slot_tidied};
ghost use Rattle.book_change.specs.Slotted.{SlotIn, Records, SlotSet, present};

use book::Book;
use book_check::inner::{holder_of, place_in, slot_of};
use build_bytes::inner::short_at;
use label_pieces::inner::bytes_at;

// A slot gets other bytes.
fn set_slot(book: &mut [u8], s: usize, text: &[u8])
    requires { SlotIn book.old s × (length text.now ≡ slot_width) }
    ensures { SlotSet text.now s book.old book.new }
{
    bytes_at(text, s * Book::SLOT, book);
}

// A slot gets zeros.
fn free_slot(book: &mut [u8], s: usize)
    requires { SlotIn book.old s }
    ensures { SlotSet (zeros slot_width) s book.old book.new }
{
    let free = [0u8; Book::SLOT];
    set_slot(book, s, &free);
}

// A slot gets a place and records.
pub fn keep_in(book: &mut [u8], s: usize, place: usize, view: &[u8], follower: &[u8])
    requires { SlotIn book.old s × Records view.now follower.now }
    ensures { SlotSet (slot_bytes place (present view.now follower.now)) s
        book.old book.new }
{
    let i = short_at(place, s * Book::SLOT, book);
    let j = bytes_at(view, i, book);
    bytes_at(follower, j, book);
}

// A slot gets another place.
fn move_to(book: &mut [u8], s: usize, place: usize)
    requires { SlotIn book.old s }
    ensures { SlotSet (bytes_of 2 place ++ drop view_at (slot_at book.old s)) s
        book.old book.new }
{
    short_at(place, s * Book::SLOT, book);
}

// What the removal of a place does to a slot.
pub fn remove_in(book: &mut [u8], s: usize, place: usize)
    requires { SlotIn book.old s }
    ensures { SlotSet (slot_removed book.old place s) s book.old book.new }
{
    let own = place_in(book, s);
    if own == place {
        free_slot(book, s);
    } else {
        if place < own {
            move_to(book, s, own - 1);
        }
    }
}

// What the replacement of a place does to a slot.
pub fn replace_in(book: &mut [u8], s: usize, place: usize, view: &[u8], follower: &[u8])
    requires { SlotIn book.old s × Records view.now follower.now }
    ensures { SlotSet
        (slot_replaced book.old place (present view.now follower.now) s) s
        book.old book.new }
{
    if place_in(book, s) == place {
        keep_in(book, s, place, view, follower);
    }
}

// A slot of a book that is tidied, by what the book was.
pub fn tidy_in(book: &mut [u8], s: usize, old: &[u8], count: usize)
    requires { SlotIn book.old s × (is_book old.now ≡ true) × (count ≡ count_of old.now) }
    ensures { SlotSet (slot_tidied old.now s) s book.old book.new }
{
    if s < count {
        let from = holder_of(old, s + 1);
        set_slot(book, s, slot_of(old, from));
    } else {
        free_slot(book, s);
    }
}
