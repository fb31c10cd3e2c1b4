// Slots of bytes that are as long as a book, read and searched.
ghost use Rattle.std.specs.Prelude.{◌≡◌, ℕ, true, false, ◌≤◌, ◌<◌, length};
ghost use Rattle.book.specs.Layout.{slots, book_length, slot_at, count_of, place_of, view_of, follower_of};
ghost use Rattle.book.specs.Book.{identity, keeps, holder, keeper};
ghost use Rattle.book.specs.Event.{free_in};
ghost use Rattle.book_check.specs.Identity.{identity_length};

use book::Book;
use field_word::inner::eight_at;
use file_record::Point;
use pack_read::inner::number_within;

// Where the address key stands in what a delivery point is known by.
const KEY: usize = Point::ADDRESS_KEY - Point::POSTCODE_TYPE;

// What a book says that it has.
pub fn count_of(book: &[u8]) -> usize
    requires { length book.now ≡ book_length }
    ensures { (result ≡ count_of book.now) × (result < 65_536) }
{
    number_within(book, Book::COUNT, 2)
}

// The place of a slot, 0 where it is free.
pub fn place_in(book: &[u8], s: usize) -> usize
    requires { (length book.now ≡ book_length) × (s < slots) }
    ensures { (result ≡ place_of (slot_at book.now s)) × (result < 65_536) }
{
    number_within(book, s * Book::SLOT, 2)
}

// A slot, as a part of the book.
pub fn slot_of(book: &[u8], s: usize) -> &[u8]
    requires { (length book.now ≡ book_length) × (s < slots) }
    ensures { result.now ≡ slot_at book.now s }
{
    file_record::inner::whole_record(book, Book::SLOT, s)
}

// The view's record of a slot.
pub fn view_of(book: &[u8], s: usize) -> &[u8]
    requires { (length book.now ≡ book_length) × (s < slots) }
    ensures { result.now ≡ view_of (slot_at book.now s) }
{
    let at = s * Book::SLOT;
    &book[at + Book::VIEW..at + Book::FOLLOWER]
}

// The record of what follows it.
pub fn follower_of(book: &[u8], s: usize) -> &[u8]
    requires { (length book.now ≡ book_length) × (s < slots) }
    ensures { result.now ≡ follower_of (slot_at book.now s) }
{
    let at = s * Book::SLOT;
    &book[at + Book::FOLLOWER..at + Book::SLOT]
}

// What the delivery point of a slot is known by.
pub fn identity_of(book: &[u8], s: usize) -> &[u8]
    requires { (length book.now ≡ book_length) × (s < slots) }
    ensures { result.now ≡ identity (view_of (slot_at book.now s)) }
{
    let view = s * Book::SLOT + Book::VIEW;
    &book[view + Point::POSTCODE_TYPE..view + Point::LETTER]
}

// Whether a slot keeps a delivery point: the eight bytes of the address key mostly say that it does not.
fn is_keeper(book: &[u8], s: usize, id: &[u8]) -> bool
    requires { (length book.now ≡ book_length) × (s < slots) × (length id.now ≡ identity_length) }
    ensures { result ≡ keeps (slot_at book.now) id.now s }
{
    let kept = identity_of(book, s);
    if eight_at(kept, KEY) != eight_at(id, KEY) {
        return false;
    }
    let used = place_in(book, s) != 0;
    used & file_compare::same_bytes(kept, id)
}

// The first slot that passes a test, behind the last where none does.
fn first_slot<F: Fn(usize) -> bool>(test: F) -> usize
    requires { (s : ℕ) → s < slots → F.pre test s }
    ensures within { result ≤ slots }
    ensures before { (s : ℕ) → s < result → F.post test s false }
    ensures found { result < slots → F.post test result true }
{
    for s in 0..Book::SLOTS {
        if test(s) {
            return s;
        }
    }
    Book::SLOTS
}

// The slot that keeps a delivery point, the first if there are more; behind the last where there is none.
pub fn keeper_of(book: &[u8], id: &[u8]) -> usize
    requires { (length book.now ≡ book_length) × (length id.now ≡ identity_length) }
    ensures { result ≡ keeper (slot_at book.now) id.now }
{
    first_slot(|s| is_keeper(book, s, id))
}

// The slot that has a place, likewise.
pub fn holder_of(book: &[u8], place: usize) -> usize
    requires { length book.now ≡ book_length }
    ensures { result ≡ holder (slot_at book.now) place }
{
    first_slot(|s| place_in(book, s) == place)
}

// The lowest free slot, likewise.
pub fn free_slot(book: &[u8]) -> usize
    requires { length book.now ≡ book_length }
    ensures { result ≡ free_in (slot_at book.now) }
{
    first_slot(|s| place_in(book, s) == 0)
}
