// A run over the views of accepted files, which are not judged again.
ghost use Rattle.std.specs.Prelude.{◌≡◌, ◌≤◌};
ghost use Rattle.refusal.specs.Outcome.{said};
ghost use Rattle.file.specs.Accepted.{Accepted};
ghost use Rattle.file.specs.Formats.{table_format};
ghost use Rattle.changes_views.specs.Views.{last_of, wanted_at};
ghost use Rattle.run.specs.Series.{run_from};
ghost use Rattle.changes_runs.specs.Runs.{places_asked, place_behind};

use refusal::Answer;
use run::Series;
use run_in_turn::inner::{InTurn, in_turn};

// The place of the next that is wanted, 0 where there is none.
pub fn place_behind(points: &[u8], code: &[u8], place: usize) -> usize
    requires { place ≤ last_of points.now }
    ensures { result ≡ place_behind code.now points.now place }
{
    let next = changes_views::next_wanted(points, code, place + 1);
    if next < changes_views::last_of(points) {
        next
    } else {
        0
    }
}

// The views that are wanted, asked for their labels from one on, and the place of that one.
#[derive(Drop)]
struct Places<'a> {
    table: &'a [u8],
    points: &'a [u8],
    code: &'a [u8],
    place: usize,
}

impl<'a> InTurn for Places<'a> {
    ghost asking = { λ s. places_asked s.table.now s.points.now s.code.now };

    ghost is_next = { λ s k. Accepted table_format s.table.now
        × (s.place ≡ wanted_at s.code.now s.points.now k) };

    fn ask_next(&mut self, out: &mut [u8]) -> Answer {
        let bytes = changes_label::inner::label_at(self.table, self.points, self.place, out)?;
        self.place = place_behind(self.points, self.code, self.place);
        Ok(bytes)
    }
}

// So many labels from the k-th that is wanted on.
pub fn run_places<'a>(
    table: &'a [u8],
    points: &'a [u8],
    code: &[u8],
    first: usize,
    count: usize,
    out: &mut [u8],
) -> Series
    requires { Accepted table_format table.now }
    ensures { said result out.new ≡ run_from
        (places_asked table.now points.now code.now) first count out.old }
{
    let mut turns = Places {
        table,
        points,
        code,
        place: changes_views::wanted_at(points, code, first),
    };
    in_turn(&mut turns, count, out)
}
