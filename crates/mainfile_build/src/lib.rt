// Building the pack of an outward code from a set. The files are judged first, then the code, then the addresses of the code;
// the pack's length is known before its first byte is written, and a refused call writes nothing.
#![tactic(auto)]

mod points;
mod whole;

ghost use Rattle.std.specs.Prelude.{◌≡◌};
ghost use Rattle.refusal.specs.Outcome.{said};
ghost use Rattle.label.specs.Label.{room_outcome};
ghost use Rattle.pack.specs.Cutting.{pack_built};
ghost use Rattle.mainfile.specs.Set.{set_of};
ghost use Rattle.mainfile.specs.Main.{main_of};
ghost use Rattle.mainfile_build.specs.Build.{set_pack, set_cut};
ghost use Rattle.mainfile_build.specs.Ready.{Judged, Stretched, Marked};

use mainfile_place::inner::place_set;
use mainfile_points::inner::organisations_in;
use pack_read::NewestPack;
use refusal::{Answer, Reason};

// Numbers of 32 bits, a bit for each of 1,000,000 records.
const BITS: usize = 31250;

// A start for each 64 of them.
const BLOCKS: usize = 15625;

// The pack, where it fits: how many bytes it has is known before the first is written.
fn write_if_room(
    localities: &[u8],
    thoroughfares: &[u8],
    descriptors: &[u8],
    buildings: &[u8],
    sub_buildings: &[u8],
    organisations: &[u8],
    addresses: &[u8],
    of_localities: &[u32],
    of_thoroughfares: &[u32],
    of_descriptors: &[u32],
    of_buildings: &[u32],
    of_sub_buildings: &[u32],
    first: usize,
    many: usize,
    code: &[u8],
    out: &mut [u8],
) -> Answer
    requires marked { Marked (set_of localities.now thoroughfares.now descriptors.now buildings.now
        sub_buildings.now organisations.now addresses.now) code.now of_localities.now
        of_thoroughfares.now of_descriptors.now of_buildings.now of_sub_buildings.now }
    requires stretched { Stretched (set_of localities.now thoroughfares.now descriptors.now buildings.now
        sub_buildings.now organisations.now addresses.now) code.now first many }
    ensures { said result out.new ≡ room_outcome (set_pack (set_of localities.now
        thoroughfares.now descriptors.now buildings.now sub_buildings.now
        organisations.now addresses.now) code.now) out.old }
{
    let mut locality_blocks = [0u32; BLOCKS];
    let mut thoroughfare_blocks = [0u32; BLOCKS];
    let mut descriptor_blocks = [0u32; BLOCKS];
    let mut building_blocks = [0u32; BLOCKS];
    let mut sub_building_blocks = [0u32; BLOCKS];
    let of_rows = place_set(
        localities,
        thoroughfares,
        descriptors,
        buildings,
        sub_buildings,
        of_localities,
        of_thoroughfares,
        of_descriptors,
        of_buildings,
        of_sub_buildings,
        &mut locality_blocks,
        &mut thoroughfare_blocks,
        &mut descriptor_blocks,
        &mut building_blocks,
        &mut sub_building_blocks,
    );
    let of_own = organisations_in(organisations, addresses, first, many);
    let needed = of_rows.bytes + of_own.bytes + NewestPack::POINT * many + NewestPack::TRAILER;
    if out.len() < needed {
        return Err(Reason::Room { needed }.into());
    }
    let rows = of_rows.rows + of_own.rows;
    Ok(whole::write_pack(
        localities,
        thoroughfares,
        descriptors,
        buildings,
        sub_buildings,
        organisations,
        addresses,
        of_localities,
        of_thoroughfares,
        of_descriptors,
        of_buildings,
        of_sub_buildings,
        &locality_blocks,
        &thoroughfare_blocks,
        &descriptor_blocks,
        &building_blocks,
        &sub_building_blocks,
        first,
        many,
        code,
        rows,
        out,
    ))
}

// The pack of a code from files that are accepted.
fn cut(
    localities: &[u8],
    thoroughfares: &[u8],
    descriptors: &[u8],
    buildings: &[u8],
    sub_buildings: &[u8],
    organisations: &[u8],
    addresses: &[u8],
    code: &[u8],
    out: &mut [u8],
) -> Answer
    requires { Judged (set_of localities.now thoroughfares.now descriptors.now buildings.now
        sub_buildings.now organisations.now addresses.now) code.now }
    ensures { said result out.new ≡ set_cut (set_of localities.now thoroughfares.now
        descriptors.now buildings.now sub_buildings.now organisations.now
        addresses.now) code.now out.old }
{
    let mut of_localities = [0u32; BITS];
    let mut of_thoroughfares = [0u32; BITS];
    let mut of_descriptors = [0u32; BITS];
    let mut of_buildings = [0u32; BITS];
    let mut of_sub_buildings = [0u32; BITS];
    let found = mainfile_views::stretch_in(addresses, code);
    mainfile_mark::inner::mark_addresses(
        localities,
        thoroughfares,
        descriptors,
        buildings,
        sub_buildings,
        organisations,
        addresses,
        found.first,
        found.many,
        &mut of_localities,
        &mut of_thoroughfares,
        &mut of_descriptors,
        &mut of_buildings,
        &mut of_sub_buildings,
    )?;
    write_if_room(
        localities,
        thoroughfares,
        descriptors,
        buildings,
        sub_buildings,
        organisations,
        addresses,
        &of_localities,
        &of_thoroughfares,
        &of_descriptors,
        &of_buildings,
        &of_sub_buildings,
        found.first,
        found.many,
        code,
        out,
    )
}

// The pack of a code, for any bytes given as files and code.
pub fn build_pack(
    localities: &[u8],
    thoroughfares: &[u8],
    descriptors: &[u8],
    buildings: &[u8],
    subs: &[u8],
    organisations: &[u8],
    addresses: &[u8],
    code: &[u8],
    out: &mut [u8],
) -> Answer
    ensures { said result out.new ≡ pack_built (main_of (set_of localities.now
        thoroughfares.now descriptors.now buildings.now subs.now
        organisations.now addresses.now)) code.now out.old }
{
    mainfile_check::check_set(
        localities,
        thoroughfares,
        descriptors,
        buildings,
        subs,
        organisations,
        addresses,
    )?;
    if field_outward::outward_fault(code) != 0 {
        return Err(Reason::BadCode.into());
    }
    cut(
        localities,
        thoroughfares,
        descriptors,
        buildings,
        subs,
        organisations,
        addresses,
        code,
        out,
    )
}
