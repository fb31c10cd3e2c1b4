// Labels asked of a file of CSV PAF, one, in turn or listed: all rows are judged first, and once.
#![tactic(auto)]

mod places;
mod shown;
mod walk;

ghost use Rattle.std.specs.Prelude.{◌≡◌};
ghost use Rattle.refusal.specs.Outcome.{said};
ghost use Rattle.csv_paf.specs.Ask.{csv_label, csv_labels, csv_list};

use csv_read::check_csv;
use places::row_place;
use refusal::Answer;
use run::Series;
use shown::label_at;
use walk::walk;

// The label of a row.
pub fn label_of_row(csv: &[u8], row: usize, out: &mut [u8]) -> Answer
    ensures { said result out.new ≡ csv_label csv.now row out.old }
{
    check_csv(csv)?;
    label_at(csv, row_place(csv, row), out)
}

// So many labels from a row on.
pub fn labels_of_rows(csv: &[u8], first: usize, count: usize, out: &mut [u8]) -> Series
    ensures { said result out.new ≡ csv_labels csv.now first count out.old }
{
    let rows = check_csv(csv)?;
    walk(csv, rows, false, first, count, out)
}

// So many items from a row on.
pub fn list_of_rows(csv: &[u8], first: usize, count: usize, out: &mut [u8]) -> Series
    ensures { said result out.new ≡ csv_list csv.now first count out.old }
{
    let rows = check_csv(csv)?;
    walk(csv, rows, true, first, count, out)
}
