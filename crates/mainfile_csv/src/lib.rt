// Rows of CSV PAF of a Mainfile set, by view.
#![tactic(auto)]

mod places;
mod walk;

ghost use Rattle.std.specs.Prelude.{◌≡◌};
ghost use Rattle.refusal.specs.Outcome.{said};
ghost use Rattle.mainfile.specs.Set.{set_of};
ghost use Rattle.mainfile.specs.Main.{main_of};
ghost use Rattle.csv_paf.specs.Row.{view_row, view_rows};

use mainfile_check::check_set;
use mainfile_label::inner::place_among;
use mainfile_views::all_in;
use places::row_at;
use refusal::Answer;
use run::Series;
use walk::walk;

// The row of a view.
pub fn row_of_view(
    localities: &[u8],
    thoroughfares: &[u8],
    descriptors: &[u8],
    buildings: &[u8],
    subs: &[u8],
    organisations: &[u8],
    addresses: &[u8],
    view: usize,
    out: &mut [u8],
) -> Answer
    ensures { said result out.new ≡ view_row (main_of (set_of localities.now thoroughfares.now
        descriptors.now buildings.now subs.now organisations.now
        addresses.now)) view out.old }
{
    check_set(
        localities,
        thoroughfares,
        descriptors,
        buildings,
        subs,
        organisations,
        addresses,
    )?;
    let place = place_among(all_in(addresses), view);
    row_at(
        localities,
        thoroughfares,
        descriptors,
        buildings,
        subs,
        organisations,
        addresses,
        place,
        out,
    )
}

// So many rows from a view on.
pub fn rows_of_views(
    localities: &[u8],
    thoroughfares: &[u8],
    descriptors: &[u8],
    buildings: &[u8],
    subs: &[u8],
    organisations: &[u8],
    addresses: &[u8],
    first: usize,
    count: usize,
    out: &mut [u8],
) -> Series
    ensures { said result out.new ≡ view_rows (main_of (set_of localities.now thoroughfares.now
        descriptors.now buildings.now subs.now organisations.now
        addresses.now)) first count out.old }
{
    check_set(
        localities,
        thoroughfares,
        descriptors,
        buildings,
        subs,
        organisations,
        addresses,
    )?;
    walk(
        localities,
        thoroughfares,
        descriptors,
        buildings,
        subs,
        organisations,
        addresses,
        all_in(addresses),
        first,
        count,
        out,
    )
}
