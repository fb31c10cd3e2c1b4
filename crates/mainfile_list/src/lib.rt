// What a set lists: its views.
#![tactic(auto)]

ghost use Rattle.std.specs.Prelude.{◌≡◌};
ghost use Rattle.mainfile.specs.Set.{set_of};
ghost use Rattle.mainfile_list.specs.Listing.{views_answer};

use refusal::Answer;

// How many views a set has.
pub fn views_in(
    localities: &[u8],
    thoroughfares: &[u8],
    descriptors: &[u8],
    buildings: &[u8],
    subs: &[u8],
    organisations: &[u8],
    addresses: &[u8],
) -> Answer
    ensures { result ≡ views_answer (set_of localities.now thoroughfares.now
        descriptors.now buildings.now subs.now
        organisations.now addresses.now) }
{
    mainfile_check::check_set(
        localities,
        thoroughfares,
        descriptors,
        buildings,
        subs,
        organisations,
        addresses,
    )?;
    let all = mainfile_views::all_in(addresses);
    Ok(all.many)
}
