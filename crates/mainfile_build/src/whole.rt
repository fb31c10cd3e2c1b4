// The whole pack. Its caller knows what it holds and that there is room for it.
ghost use Rattle.label.specs.Put.{Wrote};
ghost use Rattle.mainfile.specs.Set.{set_of};
ghost use Rattle.mainfile_build.specs.Written.{set_written};
ghost use Rattle.mainfile_build.specs.Ready.{Placed, ReadyFor};

use crate::points::points_at;
use build_trailer::inner::trailer_at;
use mainfile_place::inner::set_rows_at;
use mainfile_points::inner::organisations_at;

// The pack of a code: there are so many rows in all, and so many addresses.
pub fn write_pack(
    localities: &[u8],
    thoroughfares: &[u8],
    descriptors: &[u8],
    buildings: &[u8],
    sub_buildings: &[u8],
    organisations: &[u8],
    addresses: &[u8],
    of_localities: &[u32],
    of_thoroughfares: &[u32],
    of_descriptors: &[u32],
    of_buildings: &[u32],
    of_sub_buildings: &[u32],
    locality_blocks: &[u32],
    thoroughfare_blocks: &[u32],
    descriptor_blocks: &[u32],
    building_blocks: &[u32],
    sub_building_blocks: &[u32],
    first: usize,
    many: usize,
    code: &[u8],
    rows: usize,
    out: &mut [u8],
) -> usize
    requires placed { Placed (set_of localities.now thoroughfares.now descriptors.now buildings.now
        sub_buildings.now organisations.now addresses.now) code.now of_localities.now
        of_thoroughfares.now of_descriptors.now of_buildings.now of_sub_buildings.now
        locality_blocks.now thoroughfare_blocks.now descriptor_blocks.now building_blocks.now
        sub_building_blocks.now first many }
    requires ready_for { ReadyFor (set_of localities.now thoroughfares.now descriptors.now buildings.now
        sub_buildings.now organisations.now addresses.now) code.now of_localities.now
        of_thoroughfares.now of_descriptors.now of_buildings.now of_sub_buildings.now rows many
        out.old }
    ensures { Wrote (set_written (set_of localities.now thoroughfares.now
        descriptors.now buildings.now sub_buildings.now organisations.now
        addresses.now) code.now of_localities.now of_thoroughfares.now
        of_descriptors.now of_buildings.now of_sub_buildings.now)
        out.old result out.new }
{
    let i = set_rows_at(
        localities,
        thoroughfares,
        descriptors,
        buildings,
        sub_buildings,
        of_localities,
        of_thoroughfares,
        of_descriptors,
        of_buildings,
        of_sub_buildings,
        0,
        out,
    );
    let j = organisations_at(organisations, addresses, first, many, i, out);
    let k = points_at(
        localities,
        thoroughfares,
        descriptors,
        buildings,
        sub_buildings,
        organisations,
        addresses,
        of_localities,
        of_thoroughfares,
        of_descriptors,
        of_buildings,
        of_sub_buildings,
        locality_blocks,
        thoroughfare_blocks,
        descriptor_blocks,
        building_blocks,
        sub_building_blocks,
        code,
        first,
        many,
        i,
        j,
        out,
    );
    trailer_at(rows, j, many, code, k, out)
}
