// A walk over the delivery points of a book that is not judged again, in order of place.
ghost use Rattle.std.specs.Prelude.{◌≡◌, true, false};
ghost use Rattle.refusal.specs.Outcome.{said};
ghost use Rattle.file.specs.Accepted.{Accepted};
ghost use Rattle.file.specs.Formats.{table_format};
ghost use Rattle.run.specs.Series.{run_from};
ghost use Rattle.book.specs.Book.{is_book};
ghost use Rattle.book_source.specs.Starts.{start_among, starts_in, AllInside};
ghost use Rattle.book_label.specs.Shown.{shown_among};

use crate::shown::{label_from, shown_from};
use book_source::inner::{start_among, starts_in};
use refusal::Answer;
use run::Series;
use run_in_turn::inner::{InTurn, in_turn};

// The label of the k-th of those that are wanted.
pub fn label_among<'a>(
    table: &'a [u8],
    book: &'a [u8],
    code: &[u8],
    k: usize,
    out: &mut [u8],
) -> Answer
    requires { (is_book book.now ≡ true) × Accepted table_format table.now }
    ensures { said result out.new ≡ shown_among false table.now book.now
        (starts_in code.now book.now) k out.old }
{
    let found = starts_in(book, code);
    let starts = found.at;
    let many = found.many;
    label_from(table, book, start_among(&starts[..many], k), out)
}

// Delivery points by where their records start, shown from one on.
#[derive(Drop)]
struct Starts<'a> {
    table: &'a [u8],
    book: &'a [u8],
    starts: &'a [u32],
    listed: bool,
    next: usize,
}

impl<'a> InTurn for Starts<'a> {
    ghost asking = { λ s. shown_among s.listed s.table.now s.book.now s.starts.now };

    ghost is_next = { λ s k. (s.next ≡ k) × AllInside s.book.now s.starts.now × Accepted table_format s.table.now };

    fn ask_next(&mut self, out: &mut [u8]) -> Answer {
        let at = start_among(self.starts, self.next);
        let bytes = shown_from(self.table, self.book, at, self.listed, out)?;
        self.next += 1;
        Ok(bytes)
    }
}

// So many of some from the k-th on.
fn run_starts<'a>(
    table: &'a [u8],
    book: &'a [u8],
    starts: &[u32],
    listed: bool,
    first: usize,
    count: usize,
    out: &mut [u8],
) -> Series
    requires { AllInside book.now starts.now × Accepted table_format table.now }
    ensures { said result out.new ≡ run_from (shown_among listed table.now book.now
        starts.now) first count out.old }
{
    let mut turns = Starts {
        table,
        book,
        starts,
        listed,
        next: first,
    };
    in_turn(&mut turns, count, out)
}

// So many of those that are wanted from the k-th on.
pub fn walk<'a>(
    table: &'a [u8],
    book: &'a [u8],
    code: &[u8],
    listed: bool,
    first: usize,
    count: usize,
    out: &mut [u8],
) -> Series
    requires { (is_book book.now ≡ true) × Accepted table_format table.now }
    ensures { said result out.new ≡ run_from (shown_among listed table.now book.now
        (starts_in code.now book.now)) first count out.old }
{
    let found = starts_in(book, code);
    let starts = found.at;
    let many = found.many;
    run_starts(table, book, &starts[..many], listed, first, count, out)
}
