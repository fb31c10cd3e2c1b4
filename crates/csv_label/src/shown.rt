// What is shown of a row of an accepted file: its label, or in a listing its item.
ghost use Rattle.std.specs.Prelude.{◌≡◌, true};
ghost use Rattle.refusal.specs.Outcome.{said};
ghost use Rattle.csv_paf.specs.Ask.{label_or};
ghost use Rattle.csv_label.specs.Shown.{resolved_at, shown_of, RowPlace};

use csv_spans::forbidden_in;
use csv_spans::inner::row_spans;
use item_write::inner::{headed_item, room_before, worded_line};
use refusal::{Answer, Reason};

// The label of the row that begins at a place.
pub fn label_at(csv: &[u8], place: usize, out: &mut [u8]) -> Answer
    requires { RowPlace csv.now place }
    ensures { said result out.new ≡ label_or (resolved_at csv.now place) out.old }
{
    if csv.len() <= place {
        return Err(Reason::NoSuchNumber.into());
    }
    let spans = row_spans(csv, place);
    let rule = forbidden_in(csv, spans);
    if rule != 0 {
        return Err(Reason::Combination { rule, view: 0 }.into());
    }
    label_print::print_label(csv, csv, spans, out)
}

// Its item: the line of its number, then its label or the line of its refusal.
fn item_at(csv: &[u8], row: usize, place: usize, out: &mut [u8]) -> Answer
    requires { RowPlace csv.now place }
    ensures { said result out.new
        ≡ shown_of true row (resolved_at csv.now place) out.old }
{
    let line = worded_line(b"row", row);
    let bytes = line.bytes;
    let n = line.len;
    let heading = &bytes[..n];
    let room = room_before(heading, out.len());
    let answer = label_at(csv, place, &mut out[room..]);
    headed_item(heading, answer, out)
}

// Its item, or its label alone.
pub fn shown_at(csv: &[u8], row: usize, place: usize, listed: bool, out: &mut [u8]) -> Answer
    requires { RowPlace csv.now place }
    ensures { said result out.new
        ≡ shown_of listed row (resolved_at csv.now place) out.old }
{
    if listed {
        return item_at(csv, row, place, out);
    }
    label_at(csv, place, out)
}
