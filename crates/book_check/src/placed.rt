// Whether the places of a book are 1 up to its count, each once. Places are marked by their number, so that each slot is
// read once.
ghost use Rattle.std.specs.Prelude.{◌≡◌, true, ◌&&◌, ◌+◌, ◌≤◌, ◌<◌, length};
ghost use Rattle.book.specs.Layout.{slots, book_length, slot_at};
ghost use Rattle.book.specs.Search.{all_from};
ghost use Rattle.book.specs.Book.{well_placed, is_held};
ghost use Rattle.book_check.specs.Marked.{Marked, is_marked};

use crate::inner::place_in;
use book::Book;

// A mark for each place, and one for none.
const MARKS: usize = Book::SLOTS + 1;

// Whether a slot is free, or has a place up to the count that no slot before it has: that is marked then.
fn mark_place(book: &[u8], count: usize, s: usize, marks: &mut [u8]) -> bool
    requires { (length book.now ≡ book_length) × (s < slots) × (count ≤ slots)
        × Marked (slot_at book.now) s marks.old }
    ensures answer { result ≡ well_placed (slot_at book.now) count s }
    ensures marked { result ≡ true → Marked (slot_at book.now) (s + 1) marks.new }
{
    let place = place_in(book, s);
    if place == 0 {
        return true;
    }
    if count < place {
        return false;
    }
    if marks[place] != 0 {
        return false;
    }
    marks[place] = 1;
    true
}

// The same of all slots.
fn mark_all(book: &[u8], count: usize, marks: &mut [u8]) -> bool
    requires { (length book.now ≡ book_length) × (count ≤ slots) × Marked (slot_at book.now) 0 marks.old }
    ensures answer { result ≡ all_from (well_placed (slot_at book.now) count) slots 0 }
    ensures marked { result ≡ true → Marked (slot_at book.now) slots marks.new }
{
    for s in 0..Book::SLOTS {
        if !mark_place(book, count, s, marks) {
            return false;
        }
    }
    true
}

// Whether each place up to the count is marked.
fn all_marked(marks: &[u8], count: usize) -> bool
    requires { count < length marks.now }
    ensures { result ≡ all_from (is_marked marks.now) count 1 }
{
    marks[1..=count].iter().all(|mark| *mark != 0)
}

// Whether each slot is placed well, and each place up to the count is there.
pub fn all_placed(book: &[u8], count: usize) -> bool
    requires { (length book.now ≡ book_length) × (count ≤ slots) }
    ensures { result ≡ all_from (well_placed (slot_at book.now) count) slots 0
        && all_from (is_held (slot_at book.now)) count 1 }
{
    let mut marks = [0u8; MARKS];
    if !mark_all(book, count, &mut marks) {
        return false;
    }
    all_marked(&marks, count)
}
