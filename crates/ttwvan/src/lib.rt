// The calls that a C program makes for the van printer. Each answers one number, which packs the answer of the crate
// below; see the header, include/ttwvan.h.
#![tactic(auto)]

mod sets;

ghost use Rattle.std.specs.Prelude.{◌≡◌};
ghost use Rattle.refusal.specs.Outcome.{said};
ghost use Rattle.ask.specs.Labels.{view_label, code_label};
ghost use Rattle.changes_pair.specs.Pair.{pair_of};
ghost use Rattle.pack.specs.Points.{pack_label};
ghost use Rattle.van.specs.Said.{fold_outcome, folding, told};

// Any bytes, folded into `out`.
#[unsafe(no_mangle)]
pub extern "C" fn ttwvan_fold(label: &[u8], out: &mut [u8]) -> u64
    ensures { said result out.new ≡ told (fold_outcome label.now out.old) }
{
    van::packed_answer(van_fold::fold(label, out)) as u64
}

// The label of a view, folded into `out`.
#[unsafe(no_mangle)]
pub extern "C" fn ttwvan_label<'a>(
    table: &'a [u8],
    points: &'a [u8],
    view: u64,
    out: &mut [u8],
) -> u64
    ensures { said result out.new
        ≡ told (folding (view_label (pair_of table.now points.now) view) out.old) }
{
    van::packed_answer(van_label::label_view(table, points, view as usize, out)) as u64
}

// The label of the k-th live view in a code, folded into `out`.
#[unsafe(no_mangle)]
pub extern "C" fn ttwvan_code_label<'a>(
    table: &'a [u8],
    points: &'a [u8],
    code: &[u8],
    k: u64,
    out: &mut [u8],
) -> u64
    ensures { said result out.new
        ≡ told (folding (code_label (pair_of table.now points.now) code.now k)
        out.old) }
{
    van::packed_answer(van_label::label_in_code(table, points, code, k as usize, out)) as u64
}

// The label of point k of a pack, folded into `out`.
#[unsafe(no_mangle)]
pub extern "C" fn ttwvan_pack_label<'a>(pack: &'a [u8], k: u64, out: &mut [u8]) -> u64
    ensures { said result out.new ≡ told (folding (pack_label pack.now k) out.old) }
{
    van::packed_answer(van_label::label_of_point(pack, k as usize, out)) as u64
}
