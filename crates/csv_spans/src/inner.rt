// The spans of a row of an accepted file.
ghost use Rattle.std.specs.Prelude.{◌≡◌, drop};
ghost use Rattle.label.specs.Spans.{elements_in};
ghost use Rattle.csv_paf.specs.File.{fields_of};
ghost use Rattle.csv_paf.specs.Ask.{row_elements};
ghost use Rattle.csv_spans.specs.Row.{GoodRow};

use crate::fields::{inward_span, no_text, outward_span, places_of, premises_of};
use csv_read::inner::field_end;
use label::Spans;

// Where the elements of the row that begins at a place stand.
pub fn row_spans(csv: &[u8], at: usize) -> Spans
    requires { GoodRow csv.now at }
    ensures { elements_in csv.now csv.now result ≡ row_elements (fields_of (drop at csv.now)) }
{
    let end = field_end(csv, at);
    let places = places_of(csv, at, end + 1);
    let premises = premises_of(csv, at, places.next);
    let dependent = places.dependent;
    let thoroughfare = places.thoroughfare;
    let double_locality = places.double_locality;
    let dependent_locality = places.dependent_locality;
    let town = places.town;
    let organisation = premises.organisation;
    let department = premises.department;
    let po_box = premises.po_box;
    let sub_building = premises.sub_building;
    let building = premises.building;
    Spans {
        organisation,
        department,
        po_box,
        sub_building,
        building,
        number: premises.number,
        concatenation: false,
        dependent,
        dependent_descriptor: no_text(),
        thoroughfare,
        descriptor: no_text(),
        double_locality,
        dependent_locality,
        town,
        outward: outward_span(at, end),
        inward: inward_span(end),
    }
}
