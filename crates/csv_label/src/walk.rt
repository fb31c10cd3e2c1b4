// A walk over the rows of an accepted file, which are not judged again.
ghost use Rattle.std.specs.Prelude.{◌≡◌, ℕ, ◌≤◌, length, drop, Ok};
ghost use Rattle.refusal.specs.Outcome.{said};
ghost use Rattle.run.specs.Series.{run_from};
ghost use Rattle.csv_paf.specs.File.{csv_judged, rows_of};
ghost use Rattle.csv_paf.specs.Ask.{kth_of};
ghost use Rattle.csv_label.specs.Shown.{row_from, shown_row};

use crate::places::{row_behind, row_place};
use crate::shown::shown_at;
use refusal::Answer;
use run::Series;
use run_in_turn::inner::{InTurn, in_turn};

// The rows of a file, shown from one on: its number, and where it begins.
#[derive(Drop)]
struct Rows<'a> {
    csv: &'a [u8],
    listed: bool,
    row: usize,
    place: usize,
}

impl<'a> InTurn for Rows<'a> {
    ghost asking = { λ s. shown_row s.listed s.csv.now };

    ghost is_next = { λ s k. ((n : ℕ) × (csv_judged s.csv.now ≡ Ok n)) × (s.row ≡ k) × (s.place ≤ length s.csv.now)
        × (row_from (drop s.place s.csv.now) ≡ kth_of (rows_of s.csv.now) k) };

    fn ask_next(&mut self, out: &mut [u8]) -> Answer {
        let bytes = shown_at(self.csv, self.row, self.place, self.listed, out)?;
        self.place = row_behind(self.csv, self.place);
        self.row += 1;
        Ok(bytes)
    }
}

// So many rows from one on.
pub fn walk(
    csv: &[u8],
    rows: usize,
    listed: bool,
    first: usize,
    count: usize,
    out: &mut [u8],
) -> Series
    requires { csv_judged csv.now ≡ Ok rows }
    ensures { said result out.new
        ≡ run_from (shown_row listed csv.now) first count out.old }
{
    let mut turns = Rows {
        csv,
        listed,
        row: first,
        place: row_place(csv, first),
    };
    in_turn(&mut turns, count, out)
}
