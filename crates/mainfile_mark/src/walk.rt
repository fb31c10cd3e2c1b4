// The walk over address records that marks their rows: the caller knows that the files are accepted, and that there is
// a bit for each row.
ghost use Rattle.std.specs.Prelude.{◌+◌, ◌≤◌, ◌<◌};
ghost use Rattle.mainfile.specs.Set.{set_of};
ghost use Rattle.mainfile_views.specs.Range.{last_of};
ghost use Rattle.mainfile_mark.specs.Marks.{set_marks};
ghost use Rattle.mainfile_mark.specs.Packed.{Markable, MarksAddress, MarksAddresses};

use crate::marking::mark_point;
use mainfile_source::{delivery_at, kind_rows};
use refusal::{Verdict, with_view};

// Refusal 8 or 9 of an address record; where there is none, its rows are marked.
fn mark_address(
    localities: &[u8],
    thoroughfares: &[u8],
    descriptors: &[u8],
    buildings: &[u8],
    sub_buildings: &[u8],
    organisations: &[u8],
    addresses: &[u8],
    i: usize,
    of_localities: &mut [u32],
    of_thoroughfares: &mut [u32],
    of_descriptors: &mut [u32],
    of_buildings: &mut [u32],
    of_sub_buildings: &mut [u32],
) -> Verdict
    requires markable { Markable (set_of localities.now thoroughfares.now descriptors.now buildings.now
        sub_buildings.now organisations.now addresses.now) of_localities.old of_thoroughfares.old
        of_descriptors.old of_buildings.old of_sub_buildings.old }
    requires i_bound { i < last_of addresses.now }
    ensures { MarksAddress (set_of localities.now thoroughfares.now
        descriptors.now buildings.now sub_buildings.now
        organisations.now addresses.now) i
        (set_marks (set_of localities.now thoroughfares.now descriptors.now
        buildings.now sub_buildings.now organisations.now addresses.now)
        of_localities.old of_thoroughfares.old of_descriptors.old
        of_buildings.old of_sub_buildings.old) result
        (set_marks (set_of localities.now thoroughfares.now descriptors.now
        buildings.now sub_buildings.now organisations.now addresses.now)
        of_localities.new of_thoroughfares.new of_descriptors.new
        of_buildings.new of_sub_buildings.new) }
{
    let p = delivery_at(addresses, organisations, i);
    let keys = p.keys;
    let found = kind_rows(
        localities,
        thoroughfares,
        descriptors,
        buildings,
        sub_buildings,
        keys,
    );
    mark_point(
        p,
        found,
        of_localities,
        of_thoroughfares,
        of_descriptors,
        of_buildings,
        of_sub_buildings,
    )
}

// The first refusal of so many address records from one on; where there is none, all their rows are marked.
pub fn mark_addresses(
    localities: &[u8],
    thoroughfares: &[u8],
    descriptors: &[u8],
    buildings: &[u8],
    sub_buildings: &[u8],
    organisations: &[u8],
    addresses: &[u8],
    first: usize,
    many: usize,
    of_localities: &mut [u32],
    of_thoroughfares: &mut [u32],
    of_descriptors: &mut [u32],
    of_buildings: &mut [u32],
    of_sub_buildings: &mut [u32],
) -> Verdict
    requires markable { Markable (set_of localities.now thoroughfares.now descriptors.now buildings.now
        sub_buildings.now organisations.now addresses.now) of_localities.old of_thoroughfares.old
        of_descriptors.old of_buildings.old of_sub_buildings.old }
    requires many_bound { first + many ≤ last_of addresses.now }
    ensures { MarksAddresses (set_of localities.now thoroughfares.now
        descriptors.now buildings.now sub_buildings.now
        organisations.now addresses.now) first many
        (set_marks (set_of localities.now thoroughfares.now descriptors.now
        buildings.now sub_buildings.now organisations.now addresses.now)
        of_localities.old of_thoroughfares.old of_descriptors.old
        of_buildings.old of_sub_buildings.old) result
        (set_marks (set_of localities.now thoroughfares.now descriptors.now
        buildings.now sub_buildings.now organisations.now addresses.now)
        of_localities.new of_thoroughfares.new of_descriptors.new
        of_buildings.new of_sub_buildings.new) }
{
    for i in first..first + many {
        mark_address(
            localities,
            thoroughfares,
            descriptors,
            buildings,
            sub_buildings,
            organisations,
            addresses,
            i,
            of_localities,
            of_thoroughfares,
            of_descriptors,
            of_buildings,
            of_sub_buildings,
        )
        .map_err(|why| with_view(why, i))?;
    }
    Ok(())
}
