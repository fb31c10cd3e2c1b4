// The label of a view of accepted files, which are not judged again.
ghost use Rattle.std.specs.Prelude.{◌≡◌, ◌-◌, ◌<◌};
ghost use Rattle.refusal.specs.Outcome.{said};
ghost use Rattle.file.specs.Accepted.{Accepted};
ghost use Rattle.file.specs.Check.{records};
ghost use Rattle.file.specs.Formats.{table_format, point_format};
ghost use Rattle.label.specs.Label.{resolved_outcome};
ghost use Rattle.changes_label.specs.Places.{resolved_at, ViewPlace, place_label};

use refusal::{Answer, Reason};

// The label of the view at a place.
pub fn label_there<'a>(table: &'a [u8], points: &'a [u8], place: usize, out: &mut [u8]) -> Answer
    requires { Accepted table_format table.now × (place < records point_format points.now - 1) }
    ensures { said result out.new ≡ resolved_outcome
        (resolved_at table.now points.now place) out.old }
{
    let s = changes_source::table_shelf();
    let p = changes_source::delivery_at(points, place);
    let keys = p.keys;
    let found = shelf_find::inner::rows_of(table, s, keys);
    source_keys::refusal_in(p, found)?;
    label_print::print_label(
        table,
        points,
        source_spans::inner::spans_of(table, s, points, p, found),
        out,
    )
}

// The same, 0 being no place.
pub fn label_at<'a>(table: &'a [u8], points: &'a [u8], place: usize, out: &mut [u8]) -> Answer
    requires { ViewPlace table.now points.now place }
    ensures { said result out.new
        ≡ place_label table.now points.now place out.old }
{
    if place == 0 {
        return Err(Reason::NoSuchNumber.into());
    }
    label_there(table, points, place, out)
}
