// Rows looked for in the file of their kind.
ghost use Rattle.std.specs.Prelude.{◌≡◌, cond};
ghost use Rattle.source.specs.Address.{present, key_kinds, asked_by, ref};
ghost use Rattle.shelf.specs.Search.{found};
ghost use Rattle.mainfile.specs.Rows.{row_shelf, shelf_of};
ghost use Rattle.mainfile_source.specs.Rows.{row_files, rows_by, kind_found};

use mainfile_record::{Locality, Text};
use shelf::Shelf;
use shelf_find::inner::row_for;
use source::Found;

// What a kind outweighs: all keys of eight digits.
const KIND_UNIT: usize = 100_000_000;

// A file of rows of one kind: a key of so many digits, which stands first, then the text.
fn text_shelf(kind: u8, width: usize, digits: usize) -> Shelf
    ensures { result ≡ row_shelf kind width digits digits digits }
{
    Shelf {
        width,
        key: 0,
        digits,
        base: kind as usize * KIND_UNIT,
        letter: width,
        locality: digits,
        text: digits,
    }
}

// How the rows of a kind are read: 1 locality, 2 thoroughfare, 3 descriptor, 4 building name, 5 sub building name.
pub fn row_shelf(kind: u8) -> Shelf
    ensures { result ≡ shelf_of kind }
{
    if kind == 1 {
        return Shelf {
            width: Locality::WIDTH,
            key: 0,
            digits: Locality::KEY_END,
            base: KIND_UNIT,
            letter: Locality::WIDTH,
            locality: Locality::TOWN,
            text: Locality::KEY_END,
        };
    }
    if kind == 2 {
        return text_shelf(2, Text::THOROUGHFARE_WIDTH, Text::TEXT);
    }
    if kind == 3 {
        return text_shelf(3, Text::DESCRIPTOR_WIDTH, Text::DESCRIPTOR_TEXT);
    }
    if kind == 4 {
        return text_shelf(4, Text::BUILDING_WIDTH, Text::TEXT);
    }
    text_shelf(5, Text::SUB_BUILDING_WIDTH, Text::TEXT)
}

// The row that a key of this kind finds in the kind's file; 0 where the key is zero or finds none.
fn row_in(file: &[u8], kind: u8, key: u32) -> usize
    ensures { result ≡ cond (present key) (found (shelf_of kind) file.now (ref kind key)) 0 }
{
    row_for(file, row_shelf(kind), kind, key)
}

// The rows that the seven keys of a delivery point find, each in the file of its kind.
pub fn kind_rows(
    localities: &[u8],
    thoroughfares: &[u8],
    descriptors: &[u8],
    buildings: &[u8],
    sub_buildings: &[u8],
    keys: [u32; 7],
) -> Found
    ensures { result.rows ≡ rows_by (kind_found (row_files localities.now thoroughfares.now
        descriptors.now buildings.now sub_buildings.now)) (asked_by key_kinds keys) }
{
    let locality = row_in(localities, 1, keys[0]);
    let thoroughfare = row_in(thoroughfares, 2, keys[1]);
    let descriptor = row_in(descriptors, 3, keys[2]);
    let dependent = row_in(thoroughfares, 2, keys[3]);
    let second = row_in(descriptors, 3, keys[4]);
    let building = row_in(buildings, 4, keys[5]);
    let sub_building = row_in(sub_buildings, 5, keys[6]);
    Found {
        rows: [
            locality,
            thoroughfare,
            descriptor,
            dependent,
            second,
            building,
            sub_building,
        ],
    }
}
