// What is written of each view of a pair of accepted files, which are not judged again.
ghost use Rattle.std.specs.Prelude.{◌≤◌, length, ◌≡◌};
ghost use Rattle.file.specs.Accepted.{Accepted};
ghost use Rattle.file.specs.Formats.{table_format, point_format};
ghost use Rattle.refusal.specs.Outcome.{said};
ghost use Rattle.label_print.proofs.Unique.{zeros};
ghost use Rattle.changes_label.specs.Places.{ViewPlace, place_label};
ghost use Rattle.report.specs.Fed.{Fed};
ghost use Rattle.report_write.specs.Fresh.{TailZero};
ghost use Rattle.report.specs.Report.{view_text, block, blocks};

use refusal::Answer;
use report::inner::{line_at, refused_at, text_at};

// What asking for a label comes to, with the buffer that it was printed into.
#[derive(Clone, Copy)]
pub struct Fresh {
    pub answer: Answer,
    pub bytes: [u8; 499],
}

// The label of the view at a place, printed into a fresh buffer: what it leaves untouched is still zero.
fn fresh_label<'a>(table: &'a [u8], points: &'a [u8], place: usize) -> Fresh
    requires { ViewPlace table.now points.now place }
    ensures bytes_value { said result.answer result.bytes
        ≡ place_label table.now points.now place (zeros 499) }
    ensures tail { TailZero result.answer result.bytes }
{
    let mut bytes = [0u8; 499];
    let answer = changes_label::inner::label_at(table, points, place, &mut bytes);
    Fresh { answer, bytes }
}

// The label of the view at a place, or its refusal.
fn view_at<'a>(table: &'a [u8], points: &'a [u8], place: usize, at: usize, out: &mut [u8]) -> usize
    requires { (at ≤ length out.old) × ViewPlace table.now points.now place }
    ensures { Fed (view_text table.now points.now place) out.old at result
        out.new }
{
    let fresh = fresh_label(table, points, place);
    let label = fresh.bytes;
    let answer = fresh.answer;
    match answer {
        Ok(n) => text_at(&label[..n], at, out),
        Err(refused) => refused_at(refused.reason, at, out),
    }
}

// `view`, number, letter; then the label.
fn block_at<'a>(table: &'a [u8], points: &'a [u8], view: usize, at: usize, out: &mut [u8]) -> usize
    requires { (at ≤ length out.old) × Accepted table_format table.now × Accepted point_format points.now }
    ensures { Fed (block table.now points.now view) out.old at result
        out.new }
{
    let place = changes_views::wanted_at(points, &points[..0], view);
    let letter = file_record::byte_of(
        file_record::point_record(points, place),
        file_record::Point::LETTER,
    );
    let i = line_at(item_write::view_line(view, letter), at, out);
    view_at(table, points, place, i, out)
}

// The views from 1 on.
pub fn blocks_at<'a>(
    table: &'a [u8],
    points: &'a [u8],
    views: usize,
    at: usize,
    out: &mut [u8],
) -> usize
    requires { (at ≤ length out.old) × Accepted table_format table.now × Accepted point_format points.now }
    ensures { Fed (blocks table.now points.now views) out.old at result
        out.new }
{
    let mut i = at;
    for view in 0..views {
        i = block_at(table, points, view + 1, i, out);
    }
    i
}
