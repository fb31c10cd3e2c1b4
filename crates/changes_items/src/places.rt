// A listing over the views of accepted files, which are not judged again.
ghost use Rattle.std.specs.Prelude.{◌≡◌, ◌≤◌, length};
ghost use Rattle.refusal.specs.Outcome.{said};
ghost use Rattle.file.specs.Accepted.{Accepted};
ghost use Rattle.file.specs.Formats.{table_format};
ghost use Rattle.changes_views.specs.Views.{view_number, wanted_at};
ghost use Rattle.changes_label.specs.Places.{ViewPlace};
ghost use Rattle.run.specs.Series.{run_from};
ghost use Rattle.changes_items.specs.Items.{line_at, place_item, places_listed, Numbered};

use refusal::Answer;
use run::Series;
use run_in_turn::inner::{InTurn, in_turn};

// The item of the view at a place, under a heading.
fn item_at<'a>(
    table: &'a [u8],
    points: &'a [u8],
    place: usize,
    heading: &[u8],
    out: &mut [u8],
) -> Answer
    requires { ViewPlace table.now points.now place × (length heading.now ≤ 80) }
    ensures { said result out.new ≡ place_item table.now points.now place
        heading.now out.old }
{
    let room = item_write::inner::room_before(heading, out.len());
    let answer = changes_label::inner::label_at(table, points, place, &mut out[room..]);
    item_write::inner::headed_item(heading, answer, out)
}

// The item of the view at a place, whose number is given.
fn numbered_item<'a>(
    table: &'a [u8],
    points: &'a [u8],
    place: usize,
    view: usize,
    out: &mut [u8],
) -> Answer
    requires { ViewPlace table.now points.now place × Numbered points.now view place }
    ensures { said result out.new ≡ place_item table.now points.now place
        (line_at points.now (view_number points.now place) place) out.old }
{
    let letter = file_record::byte_of(
        file_record::point_record(points, place),
        file_record::Point::LETTER,
    );
    let line = item_write::view_line(view, letter);
    let bytes = line.bytes;
    let n = line.len;
    item_at(table, points, place, &bytes[..n], out)
}

// The number of the view at a place, counted on from an earlier one.
fn number_on(points: &[u8], from: usize, view: usize, place: usize) -> usize
    requires { view ≡ view_number points.now from }
    ensures { from ≤ place → result ≡ view_number points.now place }
{
    let mut views = view;
    for i in from..place {
        if changes_views::is_wanted(file_record::point_record(points, i + 1), &points[..0]) {
            views += 1;
        }
    }
    views
}

// The views that are wanted, asked for their items from one on: the place of that one, and its number.
#[derive(Drop)]
struct Places<'a> {
    table: &'a [u8],
    points: &'a [u8],
    code: &'a [u8],
    place: usize,
    view: usize,
}

impl<'a> InTurn for Places<'a> {
    ghost asking = { λ s. places_listed s.table.now s.points.now s.code.now };

    ghost is_next = { λ s k. Accepted table_format s.table.now
        × (s.place ≡ wanted_at s.code.now s.points.now k) × Numbered s.points.now s.view s.place };

    fn ask_next(&mut self, out: &mut [u8]) -> Answer {
        let bytes = numbered_item(self.table, self.points, self.place, self.view, out)?;
        let next = changes_runs::inner::place_behind(self.points, self.code, self.place);
        self.view = number_on(self.points, self.place, self.view, next);
        self.place = next;
        Ok(bytes)
    }
}

// So many items from the k-th that is wanted on, in one walk: the number of a view is carried along.
pub fn list_places<'a>(
    table: &'a [u8],
    points: &'a [u8],
    code: &[u8],
    first: usize,
    count: usize,
    out: &mut [u8],
) -> Series
    requires { Accepted table_format table.now }
    ensures { said result out.new ≡ run_from
        (places_listed table.now points.now code.now) first count out.old }
{
    let place = changes_views::wanted_at(points, code, first);
    let mut turns = Places {
        table,
        points,
        code,
        place,
        view: changes_views::number_at(points, place),
    };
    in_turn(&mut turns, count, out)
}
