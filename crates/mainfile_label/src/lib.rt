// Labels asked of a Mainfile set, by view and by code: the seven files are judged first, then the code, then the view.
#![tactic(auto)]

pub mod inner;

ghost use Rattle.std.specs.Prelude.{◌≡◌};
ghost use Rattle.refusal.specs.Outcome.{said};
ghost use Rattle.ask.specs.Labels.{view_label, code_label};
ghost use Rattle.mainfile.specs.Set.{set_of};
ghost use Rattle.mainfile.specs.Main.{main_of};

use inner::{label_at, place_among};
use mainfile_check::check_set;
use refusal::{Answer, Reason};

// The label of a view.
pub fn label_view(
    localities: &[u8],
    thoroughfares: &[u8],
    descriptors: &[u8],
    buildings: &[u8],
    subs: &[u8],
    organisations: &[u8],
    addresses: &[u8],
    view: usize,
    out: &mut [u8],
) -> Answer
    ensures { said result out.new ≡ view_label (main_of (set_of localities.now
        thoroughfares.now descriptors.now buildings.now subs.now
        organisations.now addresses.now)) view out.old }
{
    check_set(
        localities,
        thoroughfares,
        descriptors,
        buildings,
        subs,
        organisations,
        addresses,
    )?;
    let place = place_among(mainfile_views::all_in(addresses), view);
    label_at(
        localities,
        thoroughfares,
        descriptors,
        buildings,
        subs,
        organisations,
        addresses,
        place,
        out,
    )
}

// The label of the k-th address in a code.
pub fn label_in_code(
    localities: &[u8],
    thoroughfares: &[u8],
    descriptors: &[u8],
    buildings: &[u8],
    subs: &[u8],
    organisations: &[u8],
    addresses: &[u8],
    code: &[u8],
    k: usize,
    out: &mut [u8],
) -> Answer
    ensures { said result out.new ≡ code_label (main_of (set_of localities.now
        thoroughfares.now descriptors.now buildings.now subs.now
        organisations.now addresses.now)) code.now k out.old }
{
    check_set(
        localities,
        thoroughfares,
        descriptors,
        buildings,
        subs,
        organisations,
        addresses,
    )?;
    if field_outward::outward_fault(code) != 0 {
        return Err(Reason::BadCode.into());
    }
    let place = place_among(mainfile_views::stretch_in(addresses, code), k);
    label_at(
        localities,
        thoroughfares,
        descriptors,
        buildings,
        subs,
        organisations,
        addresses,
        place,
        out,
    )
}
