// The offsets of the rows of one delivery point, by the starts of the blocks in which they stand.
ghost use Rattle.std.specs.Prelude.{◌≡◌, ℕ, ◌*◌, ◌≤◌, ◌<◌, length};
ghost use Rattle.build.specs.Placed.{starts_of};
ghost use Rattle.build.specs.Bytes.{offsets_for};
ghost use Rattle.build_bits.specs.Marks.{Blocks};
ghost use Rattle.mainfile.specs.Rows.{set_stock};
ghost use Rattle.mainfile_source.specs.Rows.{row_files};
ghost use Rattle.mainfile_mark.specs.Marks.{set_marks, set_rows};
ghost use Rattle.mainfile_place.specs.Blocks.{file_stock, file_marks, offset_from, RowsPlaced};

use build_bits::inner::start_in;
use build_points::inner::Offsets;
use mainfile_source::row_shelf;
use pack_read::PackPoint;

// Where the row of a key stands, in the file of its kind; `PackPoint::ABSENT` where the key is zero.
fn offset_in(file: &[u8], kind: u8, bits: &[u32], blocks: &[u32], key: u32, row: usize) -> usize
    requires file_bound { ((file_stock kind file.now).last ≤ 64 * length blocks.now)
        × ((file_stock kind file.now).last ≤ 1_000_000) }
    requires row_bound { row < (file_stock kind file.now).last }
    ensures { (start : ℕ)
        → Blocks (file_stock kind file.now) (file_marks kind file.now bits.now) start
        blocks.now
        → result ≡ offset_from (file_stock kind file.now)
        (file_marks kind file.now bits.now) start key row }
{
    if key == 0 {
        return PackPoint::ABSENT;
    }
    if row == 0 {
        return 0;
    }
    start_in(file, row_shelf(kind), bits, blocks, row)
}

// Where the rows of the seven keys of a delivery point stand. Bits and blocks are named by the first letter of their
// file.
pub fn offsets_of(
    localities: &[u8],
    thoroughfares: &[u8],
    descriptors: &[u8],
    buildings: &[u8],
    sub_buildings: &[u8],
    l_bits: &[u32],
    t_bits: &[u32],
    d_bits: &[u32],
    b_bits: &[u32],
    s_bits: &[u32],
    l_blocks: &[u32],
    t_blocks: &[u32],
    d_blocks: &[u32],
    b_blocks: &[u32],
    s_blocks: &[u32],
    keys: [u32; 7],
    rows: [usize; 7],
) -> Offsets
    requires { RowsPlaced (row_files localities.now thoroughfares.now descriptors.now buildings.now
        sub_buildings.now) l_bits.now t_bits.now d_bits.now b_bits.now s_bits.now
        l_blocks.now t_blocks.now d_blocks.now b_blocks.now s_blocks.now rows }
    ensures { result.of_keys ≡ offsets_for (starts_of (set_stock (row_files localities.now
        thoroughfares.now descriptors.now buildings.now
        sub_buildings.now))
        (set_marks (row_files localities.now thoroughfares.now descriptors.now
        buildings.now sub_buildings.now) l_bits.now t_bits.now
        d_bits.now b_bits.now s_bits.now)) keys
        (set_rows (row_files localities.now thoroughfares.now descriptors.now
        buildings.now sub_buildings.now) rows) }
{
    let l = offset_in(localities, 1, l_bits, l_blocks, keys[0], rows[0]);
    let t = offset_in(thoroughfares, 2, t_bits, t_blocks, keys[1], rows[1]);
    let d = offset_in(descriptors, 3, d_bits, d_blocks, keys[2], rows[2]);
    let dependent = offset_in(thoroughfares, 2, t_bits, t_blocks, keys[3], rows[3]);
    let second = offset_in(descriptors, 3, d_bits, d_blocks, keys[4], rows[4]);
    let b = offset_in(buildings, 4, b_bits, b_blocks, keys[5], rows[5]);
    let s = offset_in(sub_buildings, 5, s_bits, s_blocks, keys[6], rows[6]);
    Offsets {
        of_keys: [l, t, d, dependent, second, b, s],
    }
}
