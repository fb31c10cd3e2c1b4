// Where the marked rows of a set start, file by file.
ghost use Rattle.std.specs.Prelude.{◌≡◌, ◌*◌, ◌≤◌, length};
ghost use Rattle.build.specs.Rows.{all_bytes, all_count};
ghost use Rattle.build_bits.specs.Marks.{Blocks};
ghost use Rattle.mainfile.specs.Rows.{set_stock};
ghost use Rattle.mainfile.specs.Accepted.{AcceptedRows};
ghost use Rattle.mainfile_source.specs.Rows.{row_files};
ghost use Rattle.mainfile_mark.specs.Marks.{set_marks};
ghost use Rattle.mainfile_place.specs.Blocks.{file_stock, file_marks, BlocksFor, SetBlocks};

use build_bits::inner::place_rows;
use build_place::inner::Sums;
use mainfile_source::row_shelf;

// Gives each block of one file its start, were its marked rows written one after the other from `start` on.
fn place_kind(file: &[u8], kind: u8, bits: &[u32], blocks: &mut [u32], start: usize) -> Sums
    requires file_bound { ((file_stock kind file.now).last ≤ 64 * length blocks.old)
        × ((file_stock kind file.now).last ≤ 1_000_000) }
    requires start_bound { start ≤ 1_000_000_000 }
    ensures rows { result.rows
        ≡ all_count (file_stock kind file.now) (file_marks kind file.now bits.now) }
    ensures bytes { result.bytes
        ≡ all_bytes (file_stock kind file.now) (file_marks kind file.now bits.now) }
    ensures placed { Blocks (file_stock kind file.now)
        (file_marks kind file.now bits.now) start blocks.new }
    ensures small { (result.rows ≤ 1_000_000) × (result.bytes ≤ 104_000_000) }
{
    place_rows(file, row_shelf(kind), bits, blocks, start)
}

// Gives each block of the five files its start, were all marked rows written one after the other. Bits and blocks are
// named by the first letter of their file.
pub fn place_set(
    localities: &[u8],
    thoroughfares: &[u8],
    descriptors: &[u8],
    buildings: &[u8],
    sub_buildings: &[u8],
    l_bits: &[u32],
    t_bits: &[u32],
    d_bits: &[u32],
    b_bits: &[u32],
    s_bits: &[u32],
    l_blocks: &mut [u32],
    t_blocks: &mut [u32],
    d_blocks: &mut [u32],
    b_blocks: &mut [u32],
    s_blocks: &mut [u32],
) -> Sums
    requires accepted_rows { AcceptedRows (row_files localities.now thoroughfares.now descriptors.now buildings.now
        sub_buildings.now) }
    requires blocks_for { BlocksFor (row_files localities.now thoroughfares.now descriptors.now buildings.now
        sub_buildings.now) l_blocks.old t_blocks.old d_blocks.old b_blocks.old s_blocks.old }
    ensures rows { result.rows ≡ all_count (set_stock (row_files localities.now
        thoroughfares.now descriptors.now buildings.now
        sub_buildings.now))
        (set_marks (row_files localities.now thoroughfares.now descriptors.now
        buildings.now sub_buildings.now) l_bits.now t_bits.now
        d_bits.now b_bits.now s_bits.now) }
    ensures bytes { result.bytes ≡ all_bytes (set_stock (row_files localities.now
        thoroughfares.now descriptors.now buildings.now
        sub_buildings.now))
        (set_marks (row_files localities.now thoroughfares.now descriptors.now
        buildings.now sub_buildings.now) l_bits.now t_bits.now
        d_bits.now b_bits.now s_bits.now) }
    ensures placed { SetBlocks (row_files localities.now thoroughfares.now
        descriptors.now buildings.now sub_buildings.now)
        l_bits.now t_bits.now d_bits.now b_bits.now
        s_bits.now l_blocks.new t_blocks.new d_blocks.new
        b_blocks.new s_blocks.new }
{
    let first = place_kind(localities, 1, l_bits, l_blocks, 0);
    let one = first.bytes;
    let second = place_kind(thoroughfares, 2, t_bits, t_blocks, one);
    let two = one + second.bytes;
    let third = place_kind(descriptors, 3, d_bits, d_blocks, two);
    let three = two + third.bytes;
    let fourth = place_kind(buildings, 4, b_bits, b_blocks, three);
    let four = three + fourth.bytes;
    let fifth = place_kind(sub_buildings, 5, s_bits, s_blocks, four);
    Sums {
        rows: first.rows + second.rows + third.rows + fourth.rows + fifth.rows,
        bytes: four + fifth.bytes,
    }
}
