// Rows of the views of accepted files, which are not judged again.
ghost use Rattle.std.specs.Prelude.{◌≡◌, []};
ghost use Rattle.refusal.specs.Outcome.{said};
ghost use Rattle.run.specs.Series.{run_from};
ghost use Rattle.changes_views.specs.Views.{wanted_at};
ghost use Rattle.file.specs.Accepted.{Accepted};
ghost use Rattle.file.specs.Formats.{table_format};
ghost use Rattle.changes_label.specs.Places.{ViewPlace};
ghost use Rattle.changes_csv.specs.Rows.{place_row, rows_asked};

use refusal::{Answer, Reason};
use run::Series;
use run_in_turn::inner::{InTurn, in_turn};

// The row of the view at a place, 0 being no place.
pub fn row_at<'a>(table: &'a [u8], points: &'a [u8], place: usize, out: &mut [u8]) -> Answer
    requires { ViewPlace table.now points.now place }
    ensures { said result out.new
        ≡ place_row table.now points.now place out.old }
{
    if place == 0 {
        return Err(Reason::NoSuchNumber.into());
    }
    let s = changes_source::table_shelf();
    let p = changes_source::delivery_at(points, place);
    let keys = p.keys;
    let found = shelf_find::inner::rows_of(table, s, keys);
    source_keys::refusal_in(p, found)?;
    csv_write::print_row(
        table,
        points,
        source_spans::inner::spans_of(table, s, points, p, found),
        csv_write::inner::ending_of(points, p),
        out,
    )
}

// The views of two files, asked for their rows from one on, and the place of that one.
#[derive(Drop)]
struct Places<'a> {
    table: &'a [u8],
    points: &'a [u8],
    place: usize,
}

impl<'a> InTurn for Places<'a> {
    ghost asking = { λ s. rows_asked s.table.now s.points.now };

    ghost is_next = { λ s k. Accepted table_format s.table.now × (s.place ≡ wanted_at [] s.points.now k) };

    fn ask_next(&mut self, out: &mut [u8]) -> Answer {
        let bytes = row_at(self.table, self.points, self.place, out)?;
        let points = self.points;
        self.place = changes_runs::inner::place_behind(points, &points[..0], self.place);
        Ok(bytes)
    }
}

// So many rows from a view on.
pub fn run_rows<'a>(
    table: &'a [u8],
    points: &'a [u8],
    first: usize,
    count: usize,
    out: &mut [u8],
) -> Series
    requires { Accepted table_format table.now }
    ensures { said result out.new ≡ run_from (rows_asked table.now points.now) first
        count out.old }
{
    let mut turns = Places {
        table,
        points,
        place: changes_views::wanted_at(points, &points[..0], first),
    };
    in_turn(&mut turns, count, out)
}
