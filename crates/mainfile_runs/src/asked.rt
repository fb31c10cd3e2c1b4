// What is asked of a set, by view and by code: its files are judged first and once, then the code, then comes the walk.
ghost use Rattle.std.specs.Prelude.{◌≡◌};
ghost use Rattle.refusal.specs.Outcome.{said};
ghost use Rattle.ask.specs.Shown.{views_shown, code_shown};
ghost use Rattle.mainfile.specs.Set.{set_of};
ghost use Rattle.mainfile.specs.Main.{main_of};

use crate::walk::walk;
use mainfile_check::check_set;
use mainfile_views::{all_in, stretch_in};
use refusal::Reason;
use run::Series;

// So many views from one on.
pub fn of_views(
    localities: &[u8],
    thoroughfares: &[u8],
    descriptors: &[u8],
    buildings: &[u8],
    subs: &[u8],
    organisations: &[u8],
    addresses: &[u8],
    listed: bool,
    first: usize,
    count: usize,
    out: &mut [u8],
) -> Series
    ensures { said result out.new ≡ views_shown listed (main_of (set_of localities.now
        thoroughfares.now descriptors.now buildings.now subs.now
        organisations.now addresses.now)) first count out.old }
{
    check_set(
        localities,
        thoroughfares,
        descriptors,
        buildings,
        subs,
        organisations,
        addresses,
    )?;
    walk(
        localities,
        thoroughfares,
        descriptors,
        buildings,
        subs,
        organisations,
        addresses,
        all_in(addresses),
        listed,
        first,
        count,
        out,
    )
}

// So many addresses of a code from the k-th on.
pub fn in_code(
    localities: &[u8],
    thoroughfares: &[u8],
    descriptors: &[u8],
    buildings: &[u8],
    subs: &[u8],
    organisations: &[u8],
    addresses: &[u8],
    code: &[u8],
    listed: bool,
    first: usize,
    count: usize,
    out: &mut [u8],
) -> Series
    ensures { said result out.new ≡ code_shown listed (main_of (set_of localities.now
        thoroughfares.now descriptors.now buildings.now subs.now
        organisations.now addresses.now)) code.now first count out.old }
{
    check_set(
        localities,
        thoroughfares,
        descriptors,
        buildings,
        subs,
        organisations,
        addresses,
    )?;
    if field_outward::outward_fault(code) != 0 {
        return Err(Reason::BadCode.into());
    }
    let s = stretch_in(addresses, code);
    walk(
        localities,
        thoroughfares,
        descriptors,
        buildings,
        subs,
        organisations,
        addresses,
        s,
        listed,
        first,
        count,
        out,
    )
}
