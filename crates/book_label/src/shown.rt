// What is shown of a delivery point of a book that is not judged again: its label, or in a listing its item.
ghost use Rattle.std.specs.Prelude.{◌≡◌, true, false};
ghost use Rattle.refusal.specs.Outcome.{said};
ghost use Rattle.book_label.specs.Shown.{shown_from, Standing};

use changes_label::inner::label_there;
use item_write::inner::{headed_item, room_before, worded_line};
use refusal::{Answer, Reason};

// A view's record and its follower's.
const RECORDS: usize = 336;

// The label of a delivery point by where its records start, 0 being none.
pub fn label_from<'a>(table: &'a [u8], book: &'a [u8], at: usize, out: &mut [u8]) -> Answer
    requires { Standing table.now book.now at }
    ensures { said result out.new
        ≡ shown_from false table.now book.now at out.old }
{
    if at == 0 {
        return Err(Reason::NoSuchNumber.into());
    }
    label_there(table, &book[at..at + RECORDS], 0, out)
}

// Its item: its line, then its label or the line of its refusal.
fn item_from<'a>(table: &'a [u8], book: &'a [u8], at: usize, out: &mut [u8]) -> Answer
    requires { Standing table.now book.now at }
    ensures { said result out.new
        ≡ shown_from true table.now book.now at out.old }
{
    if at == 0 {
        return Err(Reason::NoSuchNumber.into());
    }
    let line = worded_line(b"place", book_source::inner::place_before(book, at));
    let bytes = line.bytes;
    let n = line.len;
    let heading = &bytes[..n];
    let room = room_before(heading, out.len());
    let answer = label_from(table, book, at, &mut out[room..]);
    headed_item(heading, answer, out)
}

// The item of a delivery point, or its label alone.
pub fn shown_from<'a>(
    table: &'a [u8],
    book: &'a [u8],
    at: usize,
    listed: bool,
    out: &mut [u8],
) -> Answer
    requires { Standing table.now book.now at }
    ensures { said result out.new
        ≡ shown_from listed table.now book.now at out.old }
{
    if listed {
        return item_from(table, book, at, out);
    }
    label_from(table, book, at, out)
}
