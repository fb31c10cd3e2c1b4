// What is asked of a book by place and by code: it and the table file are judged first and once, then the code, then comes
// the walk.
ghost use Rattle.std.specs.Prelude.{◌≡◌};
ghost use Rattle.refusal.specs.Outcome.{said};
ghost use Rattle.ask.specs.Shown.{views_shown, code_shown};
ghost use Rattle.book_source.specs.Source.{book_of};

use crate::walk::walk;
use book_source::check_source;
use refusal::Reason;
use run::Series;

// So many places from one on.
pub fn of_places<'a>(
    book: &'a [u8],
    table: &'a [u8],
    listed: bool,
    first: usize,
    count: usize,
    out: &mut [u8],
) -> Series
    ensures { said result out.new
        ≡ views_shown listed (book_of book.now table.now) first count out.old }
{
    check_source(book, table)?;
    walk(table, book, &book[..0], listed, first, count, out)
}

// So many delivery points of a code from the k-th on.
pub fn in_code<'a>(
    book: &'a [u8],
    table: &'a [u8],
    code: &[u8],
    listed: bool,
    first: usize,
    count: usize,
    out: &mut [u8],
) -> Series
    ensures { said result out.new ≡ code_shown listed (book_of book.now table.now)
        code.now first count out.old }
{
    check_source(book, table)?;
    if field_outward::outward_fault(code) != 0 {
        return Err(Reason::BadCode.into());
    }
    walk(table, book, code, listed, first, count, out)
}
