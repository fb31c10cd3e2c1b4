// Rows of a set marked, each by a bit of its file.
ghost use Rattle.std.specs.Prelude.{◌≡◌};
ghost use Rattle.source.specs.Delivery.{refusal_in};
ghost use Rattle.build.specs.Plan.{mark_rows};
ghost use Rattle.mainfile.specs.Set.{Set};
ghost use Rattle.mainfile_mark.specs.Marks.{set_marks, set_rows, InFiles, BitsFor};
ghost use Rattle.refusal.specs.Verdict.{fine};

use build_bits::inner::mark_row;
use refusal::Verdict;
use source::{DeliveryPoint, Found};

// Marks the rows of the seven keys of a delivery point, each in the file of its kind; 0 is none.
fn mark_rows(
    rows: [usize; 7],
    localities: &mut [u32],
    thoroughfares: &mut [u32],
    descriptors: &mut [u32],
    buildings: &mut [u32],
    sub_buildings: &mut [u32],
)
    ensures { (s : Set) → InFiles s rows
        → BitsFor s localities.old thoroughfares.old descriptors.old
        buildings.old sub_buildings.old
        → set_marks s localities.new thoroughfares.new descriptors.new
        buildings.new sub_buildings.new
        ≡ mark_rows (set_rows s rows) (set_marks s localities.old thoroughfares.old
        descriptors.old buildings.old sub_buildings.old) }
{
    mark_row(localities, rows[0]);
    mark_row(thoroughfares, rows[1]);
    mark_row(descriptors, rows[2]);
    mark_row(thoroughfares, rows[3]);
    mark_row(descriptors, rows[4]);
    mark_row(buildings, rows[5]);
    mark_row(sub_buildings, rows[6]);
}

// Refusal 8 or 9 of a delivery point by the rows that its keys find, each in the file of its kind; where there is none, its
// rows are marked.
pub fn mark_point(
    p: DeliveryPoint,
    found: Found,
    localities: &mut [u32],
    thoroughfares: &mut [u32],
    descriptors: &mut [u32],
    buildings: &mut [u32],
    sub_buildings: &mut [u32],
) -> Verdict
    ensures said { result ≡ refusal_in p found.rows }
    ensures marked { result ≡ fine → (s : Set) → InFiles s found.rows
        → BitsFor s localities.old thoroughfares.old descriptors.old
        buildings.old sub_buildings.old
        → set_marks s localities.new thoroughfares.new descriptors.new
        buildings.new sub_buildings.new
        ≡ mark_rows (set_rows s found.rows) (set_marks s localities.old thoroughfares.old
        descriptors.old buildings.old sub_buildings.old) }
{
    source_keys::refusal_in(p, found)?;
    let rows = found.rows;
    mark_rows(
        rows,
        localities,
        thoroughfares,
        descriptors,
        buildings,
        sub_buildings,
    );
    Ok(())
}
