// Where the delivery points of a book stand, in order of place, and what is known of each.
#![tactic(auto)]

pub mod inner;

ghost use Rattle.std.specs.Prelude.{◌≡◌};
ghost use Rattle.book_source.specs.Source.{book_of};

use refusal::Answer;

// The starts of records in a book, so many of them.
#[derive(Clone, Copy)]
pub struct Starts {
    pub at: [u32; 256],
    pub many: usize,
}

// Whether book and table file are accepted, or the first refusal.
pub fn check_source(book: &[u8], table: &[u8]) -> Answer
    ensures { result ≡ (book_of book.now table.now).judged }
{
    book_check::check_book(book)?;
    file_check::check_table(table)
}
