// Whether each slot of a book is free, or has a well formed live view and what follows it, and no delivery point is
// there twice.
ghost use Rattle.std.specs.Prelude.{◌≡◌, ◌<◌, eqb, length};
ghost use Rattle.file_fault.specs.Point.{point_fault};
ghost use Rattle.file.specs.Formats.{needed, follows};
ghost use Rattle.changes_views.specs.Views.{is_live};
ghost use Rattle.book.specs.Layout.{slots, book_length, slot_at};
ghost use Rattle.book.specs.Search.{all_from};
ghost use Rattle.book.specs.Book.{followed, well_kept, slot_fine};

use crate::inner::{follower_of, identity_of, keeper_of, place_in, slot_of, view_of};
use book::Book;
use file_record::{Point, byte_of, part_of};

// Whether a record has no fault: most views are known at once to have none.
fn is_faultless(rec: &[u8]) -> bool
    ensures { result ≡ eqb (point_fault rec.now) 0 }
{
    if changes_points::inner::is_fine(rec, rec, false) {
        return true;
    }
    changes_points::point_fault(rec) == 0
}

// Whether a record is the one that its owner needs, which is of type `need`.
fn is_follower(need: u8, owner: &[u8], rec: &[u8]) -> bool
    requires { need ≡ needed owner.now }
    ensures { result ≡ follows owner.now rec.now }
{
    let kind = byte_of(rec, Point::TYPE);
    let head = file_compare::same_bytes(
        part_of(rec, 0, Point::TYPE),
        part_of(owner, 0, Point::TYPE),
    );
    (need != 0) & ((kind == need) & head)
}

// Whether what stands behind a view is what it needs, zeros where it needs nothing.
fn is_followed(view: &[u8], next: &[u8]) -> bool
    ensures { result ≡ followed view.now next.now }
{
    let need = file::needed_next(view);
    if need == 0 {
        return field_test::all_are(next, 0);
    }
    let sound = changes_points::point_fault(next) == 0;
    sound & is_follower(need, view, next)
}

fn is_live(rec: &[u8]) -> bool
    ensures { result ≡ is_live rec.now }
{
    let letter = byte_of(rec, Point::LETTER);
    (letter == b'I') | (letter == b'C')
}

// Whether a view and what follows it may be kept.
fn is_well_kept(view: &[u8], next: &[u8]) -> bool
    ensures { result ≡ well_kept view.now next.now }
{
    if !is_faultless(view) {
        return false;
    }
    let kind = byte_of(view, Point::TYPE) == b'1';
    let live = is_live(view);
    kind & (live & is_followed(view, next))
}

fn is_fine(book: &[u8], s: usize) -> bool
    requires { (length book.now ≡ book_length) × (s < slots) }
    ensures { result ≡ slot_fine (slot_at book.now) s }
{
    if place_in(book, s) == 0 {
        return field_test::all_are(slot_of(book, s), 0);
    }
    if !is_well_kept(view_of(book, s), follower_of(book, s)) {
        return false;
    }
    keeper_of(book, identity_of(book, s)) == s
}

pub fn all_fine(book: &[u8]) -> bool
    requires { length book.now ≡ book_length }
    ensures { result ≡ all_from (slot_fine (slot_at book.now)) slots 0 }
{
    (0..Book::SLOTS).all(|s| is_fine(book, s))
}
