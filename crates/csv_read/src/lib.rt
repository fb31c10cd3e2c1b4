// Reading a file of CSV PAF: whether it is accepted, and where the fields of a row stand.
#![tactic(auto)]

mod fields;
mod forms;
pub mod inner;
mod rows;

ghost use Rattle.std.specs.Prelude.{◌≡◌};
ghost use Rattle.csv_paf.specs.File.{csv_judged};

use refusal::{Answer, Reason};
use rows::judge_row;

// How many rows a file has: 14 of any row first, then 15 of any row.
pub fn check_csv(csv: &[u8]) -> Answer
    ensures { result ≡ csv_judged csv.now }
{
    let mut rows = 0;
    let mut fit = true;
    let mut at = 0;
    while at < csv.len() {
        rows += 1;
        match judge_row(csv, at) {
            Ok(row) => {
                fit &= row.fits;
                at = row.end;
            }
            Err(field) => return Err(Reason::BadRow { row: rows, field }.into()),
        }
    }
    if fit {
        return Ok(rows);
    }
    Err(Reason::Uncarried.into())
}
