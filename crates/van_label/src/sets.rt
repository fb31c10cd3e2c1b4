// The same of a Mainfile set, whose seven files stand first.
ghost use Rattle.std.specs.Prelude.{◌≡◌};
ghost use Rattle.refusal.specs.Outcome.{said};
ghost use Rattle.ask.specs.Labels.{view_label, code_label};
ghost use Rattle.mainfile.specs.Set.{set_of};
ghost use Rattle.mainfile.specs.Main.{main_of};
ghost use Rattle.van.specs.Said.{folding};

use crate::fold_label;
use van::Answer;

// The label of a view.
pub fn main_label_view(
    localities: &[u8],
    thoroughfares: &[u8],
    descriptors: &[u8],
    buildings: &[u8],
    subs: &[u8],
    organisations: &[u8],
    addresses: &[u8],
    view: usize,
    out: &mut [u8],
) -> Answer
    ensures { said result out.new ≡ folding (view_label (main_of (set_of localities.now
        thoroughfares.now descriptors.now buildings.now subs.now
        organisations.now addresses.now)) view) out.old }
{
    let mut label = [0u8; 499];
    let answer = mainfile_label::label_view(
        localities,
        thoroughfares,
        descriptors,
        buildings,
        subs,
        organisations,
        addresses,
        view,
        &mut label,
    );
    fold_label(answer, &label, out)
}

// The label of the k-th address in a code.
pub fn main_label_in_code(
    localities: &[u8],
    thoroughfares: &[u8],
    descriptors: &[u8],
    buildings: &[u8],
    subs: &[u8],
    organisations: &[u8],
    addresses: &[u8],
    code: &[u8],
    k: usize,
    out: &mut [u8],
) -> Answer
    ensures { said result out.new ≡ folding (code_label (main_of (set_of localities.now
        thoroughfares.now descriptors.now buildings.now subs.now
        organisations.now addresses.now)) code.now k) out.old }
{
    let mut label = [0u8; 499];
    let answer = mainfile_label::label_in_code(
        localities,
        thoroughfares,
        descriptors,
        buildings,
        subs,
        organisations,
        addresses,
        code,
        k,
        &mut label,
    );
    fold_label(answer, &label, out)
}
