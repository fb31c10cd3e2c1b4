// Counting the points of a pack whose points end at its trailer.
ghost use Rattle.std.specs.Prelude.{◌≡◌, true, ◌+◌, ◌*◌, ◌≤◌, ◌<◌, length};
ghost use Rattle.pack.specs.Names.{has_counts, inward_at};
ghost use Rattle.pack.specs.Sectors.{sector_counts};
ghost use Rattle.pack.specs.Opening.{edition, digits_from, count_said, counts_said, all_counts_good};
ghost use Rattle.pack_read.specs.Laid.{LaidIn, Trailed};
ghost use Rattle.pack_points.specs.Ready.{Sized};
ghost use Rattle.pack_counts.specs.Counted.{one_more, Below};

use crate::Counts;
use pack_read::inner::{number_within, trailer_number};
use pack_read::{Layout, PackPoint, PackTrailer, has_counts};

// One more for a digit; any other byte is counted nowhere.
fn count_byte(counts: &mut [usize; 10], b: u8)
    requires { Below counts.old }
    ensures { counts.new ≡ one_more counts.old b }
{
    if field::is_digit(b) {
        counts[(b - b'0') as usize] += 1;
    }
}

// So many points of one width, from a place on, counted.
pub fn count_digits(points: &[u8], start: usize, width: usize, n: usize) -> Counts
    requires { (inward_at < width) × (start + width * n ≤ length points.now) }
    ensures { result.of_digits ≡ sector_counts (digits_from points.now width n start) }
{
    let mut of_digits = [0; 10];
    for i in 0..n {
        let first = points[start + width * i + PackPoint::INWARD];
        count_byte(&mut of_digits, first);
    }
    Counts { of_digits }
}

// The count of a digit that the trailer says, of an edition that has them.
pub fn count_said(pack: &[u8], layout: Layout, digit: usize) -> usize
    requires { Trailed pack.now layout × ((has_counts (edition pack.now) ≡ true) × (digit < 10)) }
    ensures { result ≡ count_said pack.now digit }
{
    let at = pack.len() - layout.trailer + PackTrailer::COUNTS;
    number_within(pack, at + PackTrailer::COUNT * digit, 4)
}

// Whether the trailer says these counts.
fn counts_said(pack: &[u8], layout: Layout, counts: [usize; 10]) -> bool
    requires { Trailed pack.now layout × (has_counts (edition pack.now) ≡ true) }
    ensures { result ≡ counts_said pack.now 0 counts }
{
    for (digit, &n) in counts.iter().enumerate() {
        if count_said(pack, layout, digit) != n {
            return false;
        }
    }
    true
}

// Step 4: whether the counts of the trailer are those of the points, in an edition that has them.
pub fn counts_good(pack: &[u8], layout: Layout) -> bool
    requires { Sized pack.now × LaidIn pack.now layout }
    ensures { result ≡ all_counts_good pack.now }
{
    if !has_counts(layout.edition) {
        return true;
    }
    let start = trailer_number(pack, layout, PackTrailer::START);
    let n = trailer_number(pack, layout, PackTrailer::POINTS);
    let counts = count_digits(pack, start, layout.point, n);
    counts_said(pack, layout, counts.of_digits)
}
