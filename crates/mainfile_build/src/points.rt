// The points of the addresses of a code. The caller knows that their rows are marked and have their starts.
ghost use Rattle.std.specs.Prelude.{◌≡◌, ◌+◌, ◌≤◌, ◌<◌, length};
ghost use Rattle.label.specs.Put.{Put};
ghost use Rattle.mainfile.specs.Set.{set_of};
ghost use Rattle.mainfile_build.specs.Written.{set_offsets, set_organisations, set_points};
ghost use Rattle.mainfile_build.specs.Ready.{Placed};

use build_place::inner::organisation_len;
use build_points::inner::{Offsets, point_at};
use mainfile_place::inner::offsets_of;
use mainfile_source::{delivery_at, kind_rows};

// The offsets of the rows of an address record.
fn offsets_at(
    localities: &[u8],
    thoroughfares: &[u8],
    descriptors: &[u8],
    buildings: &[u8],
    sub_buildings: &[u8],
    organisations: &[u8],
    addresses: &[u8],
    of_localities: &[u32],
    of_thoroughfares: &[u32],
    of_descriptors: &[u32],
    of_buildings: &[u32],
    of_sub_buildings: &[u32],
    locality_blocks: &[u32],
    thoroughfare_blocks: &[u32],
    descriptor_blocks: &[u32],
    building_blocks: &[u32],
    sub_building_blocks: &[u32],
    code: &[u8],
    first: usize,
    many: usize,
    i: usize,
) -> Offsets
    requires placed { Placed (set_of localities.now thoroughfares.now descriptors.now buildings.now
        sub_buildings.now organisations.now addresses.now) code.now of_localities.now
        of_thoroughfares.now of_descriptors.now of_buildings.now of_sub_buildings.now
        locality_blocks.now thoroughfare_blocks.now descriptor_blocks.now building_blocks.now
        sub_building_blocks.now first many }
    requires first_le_i { (first ≤ i) × (i < first + many) }
    ensures { result.of_keys ≡ set_offsets (set_of localities.now thoroughfares.now
        descriptors.now buildings.now sub_buildings.now organisations.now
        addresses.now) of_localities.now of_thoroughfares.now
        of_descriptors.now of_buildings.now of_sub_buildings.now i }
{
    let p = delivery_at(addresses, organisations, i);
    let keys = p.keys;
    let found = kind_rows(
        localities,
        thoroughfares,
        descriptors,
        buildings,
        sub_buildings,
        keys,
    );
    let rows = found.rows;
    offsets_of(
        localities,
        thoroughfares,
        descriptors,
        buildings,
        sub_buildings,
        of_localities,
        of_thoroughfares,
        of_descriptors,
        of_buildings,
        of_sub_buildings,
        locality_blocks,
        thoroughfare_blocks,
        descriptor_blocks,
        building_blocks,
        sub_building_blocks,
        keys,
        rows,
    )
}

// The points of so many address records from one on, the organisations' rows standing from `start` on.
pub fn points_at(
    localities: &[u8],
    thoroughfares: &[u8],
    descriptors: &[u8],
    buildings: &[u8],
    sub_buildings: &[u8],
    organisations: &[u8],
    addresses: &[u8],
    of_localities: &[u32],
    of_thoroughfares: &[u32],
    of_descriptors: &[u32],
    of_buildings: &[u32],
    of_sub_buildings: &[u32],
    locality_blocks: &[u32],
    thoroughfare_blocks: &[u32],
    descriptor_blocks: &[u32],
    building_blocks: &[u32],
    sub_building_blocks: &[u32],
    code: &[u8],
    first: usize,
    many: usize,
    start: usize,
    at: usize,
    out: &mut [u8],
) -> usize
    requires placed { Placed (set_of localities.now thoroughfares.now descriptors.now buildings.now
        sub_buildings.now organisations.now addresses.now) code.now of_localities.now
        of_thoroughfares.now of_descriptors.now of_buildings.now of_sub_buildings.now
        locality_blocks.now thoroughfare_blocks.now descriptor_blocks.now building_blocks.now
        sub_building_blocks.now first many }
    requires code_bound { start + length (set_organisations (set_of localities.now thoroughfares.now descriptors.now
        buildings.now sub_buildings.now organisations.now addresses.now) code.now) ≤ at }
    requires start_in_bounds { at + length (set_points (set_of localities.now thoroughfares.now descriptors.now buildings.now
        sub_buildings.now organisations.now addresses.now) code.now of_localities.now
        of_thoroughfares.now of_descriptors.now of_buildings.now of_sub_buildings.now start) ≤ length
        out.old }
    ensures { Put (set_points (set_of localities.now thoroughfares.now
        descriptors.now buildings.now sub_buildings.now organisations.now
        addresses.now) code.now of_localities.now of_thoroughfares.now
        of_descriptors.now of_buildings.now of_sub_buildings.now start)
        out.old at result out.new }
{
    let mut row = start;
    let mut end = at;
    for i in first..first + many {
        let p = delivery_at(addresses, organisations, i);
        let offsets = offsets_at(
            localities,
            thoroughfares,
            descriptors,
            buildings,
            sub_buildings,
            organisations,
            addresses,
            of_localities,
            of_thoroughfares,
            of_descriptors,
            of_buildings,
            of_sub_buildings,
            locality_blocks,
            thoroughfare_blocks,
            descriptor_blocks,
            building_blocks,
            sub_building_blocks,
            code,
            first,
            many,
            i,
        );
        end = point_at(addresses, p, offsets, row, end, out);
        row += organisation_len(organisations, p.organised, p.organisation);
    }
    end
}
