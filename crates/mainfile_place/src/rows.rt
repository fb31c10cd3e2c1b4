// The marked rows of a set, file by file.
ghost use Rattle.std.specs.Prelude.{◌+◌, ◌≤◌, length};
ghost use Rattle.label.specs.Put.{Put};
ghost use Rattle.mainfile_source.specs.Rows.{row_files};
ghost use Rattle.mainfile_mark.specs.Marks.{used_in_set, Ended};

use build_bits::inner::rows_at;
use mainfile_source::row_shelf;

// The rows of all five files that are marked.
pub fn set_rows_at(
    localities: &[u8],
    thoroughfares: &[u8],
    descriptors: &[u8],
    buildings: &[u8],
    sub_buildings: &[u8],
    of_localities: &[u32],
    of_thoroughfares: &[u32],
    of_descriptors: &[u32],
    of_buildings: &[u32],
    of_sub_buildings: &[u32],
    at: usize,
    out: &mut [u8],
) -> usize
    requires ended { Ended (row_files localities.now thoroughfares.now descriptors.now buildings.now
        sub_buildings.now) }
    requires of_sub_buildings_in_bounds { at + length (used_in_set (row_files localities.now thoroughfares.now descriptors.now
        buildings.now sub_buildings.now) of_localities.now of_thoroughfares.now of_descriptors.now
        of_buildings.now of_sub_buildings.now) ≤ length out.old }
    ensures { Put (used_in_set (row_files localities.now thoroughfares.now
        descriptors.now buildings.now sub_buildings.now)
        of_localities.now of_thoroughfares.now of_descriptors.now
        of_buildings.now of_sub_buildings.now) out.old at result out.new }
{
    let i = rows_at(localities, row_shelf(1), of_localities, at, out);
    let j = rows_at(thoroughfares, row_shelf(2), of_thoroughfares, i, out);
    let k = rows_at(descriptors, row_shelf(3), of_descriptors, j, out);
    let l = rows_at(buildings, row_shelf(4), of_buildings, k, out);
    rows_at(sub_buildings, row_shelf(5), of_sub_buildings, l, out)
}
