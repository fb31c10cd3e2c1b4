// Labels asked of files or a pack and folded for the van printer: each is printed into a buffer of its own first, so that
// the lower library's refusals come first.
#![tactic(auto)]

mod sets;

ghost use Rattle.std.specs.Prelude.{◌≡◌};
ghost use Rattle.refusal.specs.Outcome.{said};
ghost use Rattle.ask.specs.Labels.{view_label, code_label};
ghost use Rattle.changes_pair.specs.Pair.{pair_of};
ghost use Rattle.pack.specs.Points.{pack_label};
ghost use Rattle.van.specs.Said.{label_folded, folding};

pub use sets::{main_label_in_code, main_label_view};
use van::Answer;

// What the lower library answered with a label's buffer, folded.
fn fold_label(answer: refusal::Answer, label: &[u8], out: &mut [u8]) -> Answer
    ensures { said result out.new ≡ label_folded answer label.now out.old }
{
    let n = answer?;
    van_fold::fold(file_record::part_of(label, 0, n), out)
}

// The label of a view of a pair of files.
pub fn label_view<'a>(table: &'a [u8], points: &'a [u8], view: usize, out: &mut [u8]) -> Answer
    ensures { said result out.new
        ≡ folding (view_label (pair_of table.now points.now) view) out.old }
{
    let mut label = [0u8; 499];
    let answer = changes_label::label_view(table, points, view, &mut label);
    fold_label(answer, &label, out)
}

// The label of the k-th live view in a code.
pub fn label_in_code<'a>(
    table: &'a [u8],
    points: &'a [u8],
    code: &[u8],
    k: usize,
    out: &mut [u8],
) -> Answer
    ensures { said result out.new
        ≡ folding (code_label (pair_of table.now points.now) code.now k)
        out.old }
{
    let mut label = [0u8; 499];
    let answer = changes_label::label_in_code(table, points, code, k, &mut label);
    fold_label(answer, &label, out)
}

// The label of point k of a pack.
pub fn label_of_point<'a>(pack: &'a [u8], k: usize, out: &mut [u8]) -> Answer
    ensures { said result out.new ≡ folding (pack_label pack.now k) out.old }
{
    let mut label = [0u8; 499];
    let answer = pack_label::label_of_point(pack, k, &mut label);
    fold_label(answer, &label, out)
}
