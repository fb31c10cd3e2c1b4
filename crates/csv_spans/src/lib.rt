// Where the elements of a row stand in a file of CSV PAF, and which combination of them is forbidden.
#![tactic(auto)]

mod fields;
pub mod inner;

ghost use Rattle.std.specs.Prelude.{◌≡◌};
ghost use Rattle.label.specs.Spans.{elements_in};
ghost use Rattle.csv_paf.specs.Ask.{forbidden_in};

use label::Spans;
use label_length::inner::text_len;

// The rule of refusal 8 that elements in a file break, 0 where they break none.
pub fn forbidden_in(csv: &[u8], e: Spans) -> usize
    ensures { result ≡ forbidden_in (elements_in csv.now csv.now e) }
{
    let sub = text_len(csv, csv, e.sub_building) != 0;
    let name = text_len(csv, csv, e.building) != 0;
    let street = text_len(csv, csv, e.thoroughfare) != 0;
    let dependent = text_len(csv, csv, e.dependent) != 0;
    let number = e.number != 0;
    if sub & !(name | number) {
        return 1;
    }
    if dependent & !street {
        return 2;
    }
    0
}
