// Texts written at their places: the caller knows that there is room for them, and that they lie within their slices.
ghost use Rattle.std.specs.Prelude.{◌+◌, ◌≤◌, length};
ghost use Rattle.field.specs.Text.{text_in};
ghost use Rattle.source_spans.specs.Spans.{field_of, text_if};
ghost use Rattle.mainfile.specs.Rows.{shelf_of};
ghost use Rattle.mainfile_meaning.specs.Elements.{Inside};
ghost use Rattle.mainfile_texts.specs.Gathered.{row_place, sub_building_place, dependent_place, double_locality_place};
ghost use Rattle.mainfile_texts.specs.Gathered.{texts_end, Kept, OwnTexts, PremisesTexts, StreetTexts, LocalityTexts, Same};

use crate::places::Places;
use label_pieces::inner::bytes_at;
use mainfile_record::{Locality, Text};
use mainfile_source::row_shelf;
use shelf_read::inner::record_of;
use source::DeliveryPoint;

// A text at a place; its length.
fn text_into(text: &[u8], at: usize, texts: &mut [u8]) -> u8
    requires { (length text.now ≤ 255) × (at + length text.now ≤ length texts.old) }
    ensures { Kept text.now texts.old at (length text.now) result
        texts.new }
{
    bytes_at(text, at, texts);
    text.len() as u8
}

// A padded field of so many bytes, where it is asked for.
fn field_into(
    there: bool,
    file: &[u8],
    from: usize,
    width: usize,
    at: usize,
    texts: &mut [u8],
) -> u8
    requires { (width ≤ 255) × (at + width ≤ length texts.old) × (from + width ≤ length file.now) }
    ensures { Kept (text_if there file.now from width) texts.old at width result
        texts.new }
{
    if there {
        text_into(field_read::read_text(file, from, from + width), at, texts)
    } else {
        text_into(&file[..0], at, texts)
    }
}

// A text of a row of a kind; no bytes where the row is 0.
fn row_into(
    file: &[u8],
    kind: u8,
    row: usize,
    from: usize,
    width: usize,
    at: usize,
    texts: &mut [u8],
) -> u8
    requires { (width ≤ 255) × (at + width ≤ length texts.old) × (from ≤ 2000) }
    ensures { Kept (field_of (shelf_of kind) file.now row from width) texts.old at width result
        texts.new }
{
    if row == 0 {
        return text_into(&file[..0], at, texts);
    }
    let rec = record_of(file, row_shelf(kind), row);
    text_into(field_read::read_text(rec, from, from + width), at, texts)
}

// The delivery point's own texts; their lengths.
pub fn gather_own(
    organisations: &[u8],
    addresses: &[u8],
    p: DeliveryPoint,
    texts: &mut [u8],
) -> [u8; 5]
    requires { Inside addresses.now organisations.now p × (row_place ≤ length texts.old) }
    ensures { OwnTexts addresses.now organisations.now p texts.new result
        × Same 0 texts.old texts.new }
{
    let there = p.organised;
    let from = p.organisation;
    let postcode = p.postcode;
    let organisation = field_into(there, organisations, from, 60, Places::ORGANISATION, texts);
    let department = field_into(
        there,
        organisations,
        from + 60,
        60,
        Places::DEPARTMENT,
        texts,
    );
    let po_box = field_into(true, addresses, p.po_box, 6, Places::PO_BOX, texts);
    let outward = field_into(true, addresses, postcode, 4, Places::OUTWARD, texts);
    let three = file_record::part_of(addresses, postcode + 4, postcode + 7);
    let inward = text_into(three, Places::INWARD, texts);
    [organisation, department, po_box, outward, inward]
}

// The texts of the rows of its premises; their lengths.
pub fn gather_premises(
    buildings: &[u8],
    sub_buildings: &[u8],
    rows: [usize; 7],
    texts: &mut [u8],
) -> [u8; 2]
    requires { texts_end ≤ length texts.old }
    ensures { PremisesTexts buildings.now sub_buildings.now rows texts.new result
        × Same sub_building_place texts.old texts.new }
{
    let sub = row_into(
        sub_buildings,
        5,
        rows[6],
        Text::TEXT,
        30,
        Places::SUB_BUILDING,
        texts,
    );
    let name = row_into(
        buildings,
        4,
        rows[5],
        Text::TEXT,
        50,
        Places::BUILDING,
        texts,
    );
    [sub, name]
}

// Those of its streets.
pub fn gather_streets(
    thoroughfares: &[u8],
    descriptors: &[u8],
    rows: [usize; 7],
    texts: &mut [u8],
) -> [u8; 4]
    requires { texts_end ≤ length texts.old }
    ensures { StreetTexts thoroughfares.now descriptors.now rows texts.new result
        × Same dependent_place texts.old texts.new }
{
    let text = Text::TEXT;
    let short = Text::DESCRIPTOR_TEXT;
    let dependent = row_into(
        thoroughfares,
        2,
        rows[3],
        text,
        60,
        Places::DEPENDENT,
        texts,
    );
    let second = row_into(
        descriptors,
        3,
        rows[4],
        short,
        20,
        Places::DEPENDENT_DESCRIPTOR,
        texts,
    );
    let name = row_into(
        thoroughfares,
        2,
        rows[1],
        text,
        60,
        Places::THOROUGHFARE,
        texts,
    );
    let descriptor = row_into(
        descriptors,
        3,
        rows[2],
        short,
        20,
        Places::DESCRIPTOR,
        texts,
    );
    [dependent, second, name, descriptor]
}

// Those of its locality.
pub fn gather_localities(localities: &[u8], rows: [usize; 7], texts: &mut [u8]) -> [u8; 3]
    requires { texts_end ≤ length texts.old }
    ensures { LocalityTexts localities.now rows texts.new result
        × Same double_locality_place texts.old texts.new }
{
    let row = rows[0];
    let double = row_into(
        localities,
        1,
        row,
        Locality::DOUBLE,
        35,
        Places::DOUBLE_LOCALITY,
        texts,
    );
    let dependent = row_into(
        localities,
        1,
        row,
        Locality::DEPENDENT,
        35,
        Places::DEPENDENT_LOCALITY,
        texts,
    );
    let town = row_into(localities, 1, row, Locality::TOWN, 30, Places::TOWN, texts);
    [double, dependent, town]
}
