// Rows of a set by their places in the stock of all its rows: the caller knows that the files of rows are accepted.
ghost use Rattle.std.specs.Prelude.{◌≡◌, ◌+◌, ◌-◌, ◌<◌};
ghost use Rattle.source.specs.Address.{key_kinds, asked_by};
ghost use Rattle.source.specs.Delivery.{Small, rows_for};
ghost use Rattle.shelf.specs.Shelf.{last_of};
ghost use Rattle.mainfile.specs.Rows.{shelf_of, set_stock};
ghost use Rattle.mainfile.specs.Accepted.{AcceptedRows};
ghost use Rattle.mainfile_source.specs.Rows.{row_files, behind_by};

use crate::rows::{kind_rows, row_shelf};
use shelf_read::inner::last_of;
use source::Found;

// How many rows the file of a kind has.
fn rows_of(file: &[u8], kind: u8) -> usize
    ensures { result ≡ last_of (shelf_of kind) file.now - 1 }
{
    let last = last_of(file, row_shelf(kind));
    if last == 0 { 0 } else { last - 1 }
}

// A row behind so many others; 0 stays none.
fn behind(before: usize, row: usize) -> usize
    requires { before + row < 18_446_744_073_709_551_616 }
    ensures { result ≡ behind_by before row }
{
    if row == 0 { 0 } else { before + row }
}

// The rows that the keys of a delivery point find, by their places among all rows of the set.
pub fn rows_in(
    localities: &[u8],
    thoroughfares: &[u8],
    descriptors: &[u8],
    buildings: &[u8],
    sub_buildings: &[u8],
    keys: [u32; 7],
) -> Found
    requires { AcceptedRows (row_files localities.now thoroughfares.now descriptors.now buildings.now
        sub_buildings.now) × Small keys }
    ensures { result.rows ≡ rows_for (set_stock (row_files localities.now thoroughfares.now
        descriptors.now buildings.now sub_buildings.now)).row
        (asked_by key_kinds keys) }
{
    let found = kind_rows(
        localities,
        thoroughfares,
        descriptors,
        buildings,
        sub_buildings,
        keys,
    );
    let rows = found.rows;
    let two = rows_of(localities, 1);
    let three = two + rows_of(thoroughfares, 2);
    let four = three + rows_of(descriptors, 3);
    let five = four + rows_of(buildings, 4);
    let thoroughfare = behind(two, rows[1]);
    let descriptor = behind(three, rows[2]);
    let dependent = behind(two, rows[3]);
    let second = behind(three, rows[4]);
    let building = behind(four, rows[5]);
    let sub_building = behind(five, rows[6]);
    Found {
        rows: [
            rows[0],
            thoroughfare,
            descriptor,
            dependent,
            second,
            building,
            sub_building,
        ],
    }
}
