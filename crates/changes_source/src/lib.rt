// What a pair of files says: the table file as a shelf, and a view of the point file as a delivery point.
#![tactic(auto)]

ghost use Rattle.std.specs.Prelude.{◌≡◌, ◌+◌, ◌<◌, get_or};
ghost use Rattle.field.specs.Digits.{value};
ghost use Rattle.field.specs.Text.{part};
ghost use Rattle.changes_source.specs.Rows.{table_shelf};
ghost use Rattle.changes_source.specs.Delivery.{key_places, keys_at, start_at, delivery_at};

use file_record::{Locality, Organisation, Point, Table, View};
use shelf::Shelf;
use source::DeliveryPoint;

// Where the keys of a view's record start, in offset order.
const KEY_PLACES: [usize; 7] = [
    View::LOCALITY,
    View::THOROUGHFARE,
    View::DESCRIPTOR,
    View::DEPENDENT,
    View::DEPENDENT_DESCRIPTOR,
    View::BUILDING,
    View::SUB_BUILDING,
];

// Where the texts of its follower start, counted from a view's own start.
const FOLLOWER_TEXTS: usize = Point::WIDTH + Organisation::NAME;

// How a table file is read.
pub fn table_shelf() -> Shelf
    ensures { result ≡ table_shelf }
{
    Shelf {
        width: Table::WIDTH,
        key: Table::TYPE,
        digits: Table::DATE,
        base: 0,
        letter: Table::LETTER,
        locality: Locality::TOWN,
        text: Table::TEXT,
    }
}

// Key `i` of a view's record.
fn key_in(rec: &[u8], i: usize) -> u32
    requires { i < 7 }
    ensures { result ≡ value (part rec.now (get_or key_places i 0) (get_or key_places i 0 + 8)) }
{
    let at = KEY_PLACES[i];
    field_read::value_of(file_record::part_of(rec, at, at + 8)) as u32
}

// The seven of them.
fn keys_in(rec: &[u8]) -> [u32; 7]
    ensures { result ≡ keys_at rec.now key_places }
{
    std::array::from_fn(|i| key_in(rec, i))
}

// Where record `i` of a point file starts; 0 where there is none.
fn start_at(points: &[u8], i: usize) -> usize
    ensures { result ≡ start_at points.now i }
{
    if i < points.len() / Point::WIDTH {
        i * Point::WIDTH
    } else {
        0
    }
}

// Whether the view at a place of a point file has an organisation.
pub fn organised_at(points: &[u8], i: usize) -> bool
    ensures { result ≡ (delivery_at points.now i).organised }
{
    file::needed_next(file_record::point_record(points, i)) != 0
}

// Where the texts of its organisation stand: in the record behind it.
pub fn organisation_place(points: &[u8], i: usize) -> usize
    ensures { result ≡ (delivery_at points.now i).organisation }
{
    start_at(points, i) + FOLLOWER_TEXTS
}

// What is known of the view at a place of a point file.
pub fn delivery_at(points: &[u8], i: usize) -> DeliveryPoint
    ensures { result ≡ delivery_at points.now i }
{
    let rec = file_record::point_record(points, i);
    let at = start_at(points, i);
    let number = file_record::part_of(rec, View::NUMBER, View::BUILDING);
    let address = file_record::part_of(rec, Point::ADDRESS_KEY, Point::ORGANISATION_KEY);
    let organisation = file_record::part_of(rec, Point::ORGANISATION_KEY, Point::LETTER);
    let keys = keys_in(rec);
    DeliveryPoint {
        keys,
        number: field_read::value_of(number) as u16,
        address_key: field_read::value_of(address) as u32,
        organisation_key: field_read::value_of(organisation) as u32,
        postcode_type: file_record::byte_of(rec, Point::POSTCODE_TYPE),
        concatenation: file_record::byte_of(rec, View::CONCATENATION) == b'Y',
        indicator: file_record::byte_of(rec, View::INDICATOR) == b'Y',
        postcode: at + Point::OUTWARD,
        suffix: at + Point::SUFFIX,
        po_box: at + View::PO_BOX,
        organised: file::needed_next(rec) != 0,
        organisation: at + FOLLOWER_TEXTS,
        lacking: false,
    }
}
