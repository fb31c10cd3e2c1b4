// Opening any bytes as a pack.
#![tactic(auto)]

ghost use Rattle.std.specs.Prelude.{◌≡◌, true};
ghost use Rattle.refusal.specs.declared.Reason.TheVariants.{BadPack};
ghost use Rattle.pack.specs.Opening.{trailer_good, rows_good, all_points_good, opened};
ghost use Rattle.pack_read.specs.Laid.{LaidIn};
ghost use Rattle.pack_points.specs.Ready.{Sized, Kept};
ghost use Rattle.refusal.specs.Answer.{refusal};
ghost use Rattle.refusal.specs.Verdict.{fine};

use pack_counts::inner::counts_good;
use pack_points::inner::{fields_good, offsets_marked, offsets_told};
use pack_read::inner::{outward_of, trailer_number};
use pack_read::{Layout, PackTrailer, is_known, layout_in};
use pack_rows::inner::{keep_starts, rows_fine, rows_good};
use refusal::{Answer, Reason};

// The numbers in which the starts of rows are kept: a bit for each byte of a row area of at most half a megabyte, or for
// each stretch of a larger one its first start.
const WORDS: usize = 16384;

// Step 1: whether the trailer is good.
fn trailer_good(pack: &[u8], layout: Layout) -> bool
    requires { LaidIn pack.now layout }
    ensures { result ≡ trailer_good pack.now }
{
    let n = pack.len();
    if n < layout.trailer {
        return false;
    }
    let known = is_known(layout.edition);
    let said = trailer_number(pack, layout, PackTrailer::LENGTH);
    let fault = field_outward::outward_fault(outward_of(pack, layout));
    let start = trailer_number(pack, layout, PackTrailer::START);
    let count = trailer_number(pack, layout, PackTrailer::POINTS);
    let end = start + layout.point * count + layout.trailer;
    known & ((said == n) & ((fault == 0) & (end == n)))
}

// Step 2: whether the rows are good; those that are not fine at first sight are judged one by one.
fn all_rows_good(rows: &[u8], count: usize, fine: bool) -> bool
    requires { fine ≡ true → rows_good rows.now count 1 0 ≡ true }
    ensures { result ≡ rows_good rows.now count 1 0 }
{
    if fine {
        return true;
    }
    rows_good(rows, count)
}

// Step 3: whether the points are good, the rows being so. Row starts are told by bits where rows that are fine at first
// sight are short enough, else by walks.
fn all_points_good(pack: &[u8], rows: &[u8], fine: bool, layout: Layout, kept: &mut [u32]) -> bool
    requires { Sized pack.now × (LaidIn pack.now layout × Kept pack.now rows.now fine kept.old) }
    ensures { result ≡ all_points_good pack.now }
{
    if !fields_good(pack, rows, layout) {
        return false;
    }
    let n = rows.len();
    if fine & (n <= 32 * WORDS) {
        return offsets_marked(pack, rows, kept, layout);
    }
    let width = n / WORDS + 1;
    keep_starts(rows, width, kept);
    offsets_told(pack, rows, width, kept, layout)
}

fn bad_pack(step: usize) -> Answer
    ensures { result ≡ refusal 0 (BadPack step) }
{
    Err(Reason::BadPack { step }.into())
}

// How many points the pack has, or the first step that fails.
pub fn open_pack(pack: &[u8]) -> Answer
    ensures { result ≡ opened pack.now }
{
    let layout = layout_in(pack);
    if !trailer_good(pack, layout) {
        return bad_pack(1);
    }
    let start = trailer_number(pack, layout, PackTrailer::START);
    let rows = &pack[..start];
    let count = trailer_number(pack, layout, PackTrailer::ROWS);
    let mut kept = [0u32; WORDS];
    let fine = rows_fine(rows, count, &mut kept);
    if !all_rows_good(rows, count, fine) {
        return bad_pack(2);
    }
    if !all_points_good(pack, rows, fine, layout, &mut kept) {
        return bad_pack(3);
    }
    if !counts_good(pack, layout) {
        return bad_pack(4);
    }
    Ok(trailer_number(pack, layout, PackTrailer::POINTS))
}
