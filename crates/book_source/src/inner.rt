// A book that is known to be one is walked by place. Where the records of a delivery point start tells it from the others.
ghost use Rattle.std.specs.Prelude.{◌≡◌, true};
ghost use Rattle.book.specs.Book.{is_book};
ghost use Rattle.book_source.specs.Starts.{place_before, delivery_from, starts_in, start_among, Inside, ByPlace, Holds};

use crate::Starts;
use book::Book;
use source::DeliveryPoint;

// A view's record and its follower's.
const RECORDS: usize = 336;

// Where each place starts, the place less one being the index.
fn by_place(book: &[u8]) -> [u32; 256]
    requires { is_book book.now ≡ true }
    ensures { ByPlace book.now result }
{
    let mut starts = [0u32; 256];
    for s in (0..Book::SLOTS).rev() {
        let place = book_check::inner::place_in(book, s);
        if place != 0 {
            starts[place - 1] = (s * Book::SLOT + Book::VIEW) as u32;
        }
    }
    starts
}

// Where the delivery points of a code start, in order of place; all, where no code is given.
pub fn starts_in(book: &[u8], code: &[u8]) -> Starts
    requires { is_book book.now ≡ true }
    ensures { Holds result (starts_in code.now book.now) }
{
    let places = by_place(book);
    let count = pack_read::inner::number_within(book, Book::COUNT, 2);
    let mut at = [0u32; 256];
    let mut many = 0;
    for &place in &places[..count] {
        let start = place as usize;
        let records = &book[start..start + RECORDS];
        if changes_views::is_wanted(file_record::point_record(records, 0), code) {
            at[many] = place;
            many += 1;
        }
    }
    Starts { at, many }
}

// The k-th of them, 0 where there is none.
pub fn start_among(starts: &[u32], k: usize) -> usize
    ensures { result ≡ start_among starts.now k }
{
    if k == 0 {
        return 0;
    }
    if starts.len() < k {
        return 0;
    }
    starts[k - 1] as usize
}

// The place of a delivery point.
pub fn place_before(book: &[u8], at: usize) -> usize
    requires { Inside book.now at }
    ensures { result ≡ place_before book.now at }
{
    pack_read::inner::number_within(book, at - Book::VIEW, 2)
}

// What is known of it.
pub fn delivery_from(book: &[u8], at: usize) -> DeliveryPoint
    requires { Inside book.now at }
    ensures { result ≡ delivery_from book.now at }
{
    let p = changes_source::delivery_at(&book[at..at + RECORDS], 0);
    let keys = p.keys;
    DeliveryPoint {
        keys,
        number: p.number,
        address_key: p.address_key,
        organisation_key: p.organisation_key,
        postcode_type: p.postcode_type,
        concatenation: p.concatenation,
        indicator: p.indicator,
        postcode: at + p.postcode,
        suffix: at + p.suffix,
        po_box: at + p.po_box,
        organised: p.organised,
        organisation: at + p.organisation,
        lacking: p.lacking,
    }
}
