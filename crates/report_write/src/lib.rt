// What is printed of a pair of files, of at most 300 records each: document 01's "One run".
#![tactic(auto)]

mod blocks;

ghost use Rattle.std.specs.Prelude.{◌≡◌, [], ◌∷◌, ◌++◌};
ghost use Rattle.file.specs.Accepted.{Accepted};
ghost use Rattle.file.specs.Check.{checked};
ghost use Rattle.file.specs.Formats.{table_format, point_format};
ghost use Rattle.label.specs.Put.{Wrote};
ghost use Rattle.report.specs.Fed.{Fed, fitting};
ghost use Rattle.item.specs.Lines.{refused_line};
ghost use Rattle.report.specs.Report.{pair_text, points_text, report_of};
ghost use Rattle.std.specs.Prelude.{Ok};

use blocks::blocks_at;
use refusal::Reason;
use report::inner::{number_at, refused_at, text_at};

// 300 records.
const TABLE_MOST: usize = 50700;

const POINTS_MOST: usize = 50400;

// `pair`, table records, point records, views; then each view.
fn write_pair<'a>(table: &'a [u8], points: &'a [u8], t: usize, p: usize, out: &mut [u8]) -> usize
    requires { Accepted table_format table.now × Accepted point_format points.now }
    ensures { Fed (pair_text table.now points.now t p) out.old 0 result
        out.new }
{
    let views = changes_views::count_wanted(points, &points[..0]);
    let i = text_at(b"pair", 0, out);
    let j = number_at(t, i, out);
    let k = number_at(p, j, out);
    let l = number_at(views, k, out);
    let m = text_at(b"\n", l, out);
    blocks_at(table, points, views, m, out)
}

// The one line of a refused file.
fn write_refused(word: &[u8], reason: Reason, out: &mut [u8]) -> usize
    ensures { Fed (word.now ++ ((32 ∷ []) ++ refused_line reason)) out.old 0 result
        out.new }
{
    let i = text_at(word, 0, out);
    let j = text_at(b" ", i, out);
    refused_at(reason, j, out)
}

// What is written once the table file is taken.
fn write_points<'a>(table: &'a [u8], points: &'a [u8], t: usize, out: &mut [u8]) -> usize
    requires { checked table_format table.now ≡ Ok t }
    ensures { Fed (points_text table.now points.now t) out.old 0 result
        out.new }
{
    if POINTS_MOST < points.len() {
        return text_at(b"points long\n", 0, out);
    }
    match file_check::check_points(points) {
        Ok(p) => write_pair(table, points, t, p, out),
        Err(refused) => write_refused(b"points", refused.reason, out),
    }
}

// The report of a pair of files, as far as the buffer goes; the answer is how many bytes were written.
pub fn write_report<'a>(table: &'a [u8], points: &'a [u8], out: &mut [u8]) -> usize
    ensures { Wrote (fitting (report_of table.now points.now) out.old)
        out.old result out.new }
{
    if TABLE_MOST < table.len() {
        return text_at(b"table long\n", 0, out);
    }
    match file_check::check_table(table) {
        Ok(t) => write_points(table, points, t, out),
        Err(refused) => write_refused(b"table", refused.reason, out),
    }
}
