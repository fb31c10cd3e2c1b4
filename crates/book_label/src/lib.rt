// Labels asked of a book and a table file, by place and by code, one, in runs and listed: the book is judged first, then the
// table file, then the code.
#![tactic(auto)]

mod asked;
mod shown;
mod walk;

ghost use Rattle.std.specs.Prelude.{◌≡◌};
ghost use Rattle.refusal.specs.Outcome.{said};
ghost use Rattle.ask.specs.Labels.{view_label, code_label};
ghost use Rattle.ask.specs.Runs.{views_run, code_run};
ghost use Rattle.ask.specs.Lists.{views_list, code_list};
ghost use Rattle.book_source.specs.Source.{book_of, book_live};

use asked::{in_code, of_places};
use book_source::check_source;
use refusal::{Answer, Reason};
use run::Series;
// The label of a place.
pub fn label_of_place<'a>(book: &'a [u8], table: &'a [u8], place: usize, out: &mut [u8]) -> Answer
    ensures { said result out.new
        ≡ view_label (book_of book.now table.now) place out.old }
{
    check_source(book, table)?;
    walk::label_among(table, book, &book[..0], place, out)
}

// The label of the k-th delivery point that is present in a code.
pub fn label_in_code<'a>(
    book: &'a [u8],
    table: &'a [u8],
    code: &[u8],
    k: usize,
    out: &mut [u8],
) -> Answer
    ensures { said result out.new
        ≡ code_label (book_of book.now table.now) code.now k out.old }
{
    check_source(book, table)?;
    if field_outward::outward_fault(code) != 0 {
        return Err(Reason::BadCode.into());
    }
    walk::label_among(table, book, code, k, out)
}

// So many labels from a place on.
pub fn labels_of_places<'a>(
    book: &'a [u8],
    table: &'a [u8],
    first: usize,
    count: usize,
    out: &mut [u8],
) -> Series
    ensures { said result out.new
        ≡ views_run (book_of book.now table.now) first count out.old }
{
    of_places(book, table, false, first, count, out)
}

// So many labels from the k-th delivery point of a code on.
pub fn labels_in_code<'a>(
    book: &'a [u8],
    table: &'a [u8],
    code: &[u8],
    first: usize,
    count: usize,
    out: &mut [u8],
) -> Series
    ensures { said result out.new ≡ code_run (book_of book.now table.now)
        code.now first count out.old }
{
    in_code(book, table, code, false, first, count, out)
}

// So many items from a place on.
pub fn list_of_places<'a>(
    book: &'a [u8],
    table: &'a [u8],
    first: usize,
    count: usize,
    out: &mut [u8],
) -> Series
    ensures { said result out.new
        ≡ views_list (book_of book.now table.now) first count out.old }
{
    of_places(book, table, true, first, count, out)
}

// So many items from the k-th delivery point of a code on.
pub fn list_in_code<'a>(
    book: &'a [u8],
    table: &'a [u8],
    code: &[u8],
    first: usize,
    count: usize,
    out: &mut [u8],
) -> Series
    ensures { said result out.new ≡ code_list (book_of book.now table.now)
        code.now first count out.old }
{
    in_code(book, table, code, true, first, count, out)
}

// How many delivery points of a code are present.
pub fn live_in(book: &[u8], code: &[u8]) -> Answer
    ensures { result ≡ book_live book.now code.now }
{
    book_check::check_book(book)?;
    if field_outward::outward_fault(code) != 0 {
        return Err(Reason::BadCode.into());
    }
    Ok(book_source::inner::starts_in(book, code).many)
}
