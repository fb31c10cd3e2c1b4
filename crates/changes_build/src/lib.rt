// Building the pack of an outward code from a pair of files. Both files are judged first, then the code, then the views
// of the code; the pack's length is known before its first byte is written, and a refused call writes nothing.
#![tactic(auto)]

mod walks;
mod whole;

ghost use Rattle.std.specs.Prelude.{◌≡◌};
ghost use Rattle.refusal.specs.Outcome.{said};
ghost use Rattle.label.specs.Label.{room_outcome};
ghost use Rattle.pack.specs.Cutting.{cut_outcome, pack_built};
ghost use Rattle.changes_source.specs.Rows.{table_lookup};
ghost use Rattle.changes_pair.specs.Live.{live_in};
ghost use Rattle.changes_pair.specs.Pair.{pair_of};
ghost use Rattle.changes_build.specs.Build.{live_pack};
ghost use Rattle.changes_build.specs.Ready.{Judged, Marked};
ghost use Rattle.changes_build.specs.Views.{Known};

use pack_read::NewestPack;
use refusal::{Answer, Reason};

// The most records of a table file.
const RECORDS: usize = 20000;

// The pack, where it fits: how many bytes it has is known before the first is written.
fn write_if_room(
    table: &[u8],
    refs: &[u32],
    points: &[u8],
    code: &[u8],
    starts: &mut [u32],
    out: &mut [u8],
) -> Answer
    requires known { Known table.now refs.now points.now }
    requires marked { Marked table.now points.now code.now starts.old }
    ensures { said result out.new ≡ room_outcome
        (live_pack table.now points.now code.now) out.old }
{
    let of_table = build_place::inner::place_rows(table, changes_source::table_shelf(), starts);
    let of_points = walks::organisations_in(points, code);
    let count = changes_views::count_wanted(points, code);
    let needed = of_table.bytes + of_points.bytes + NewestPack::POINT * count + NewestPack::TRAILER;
    if out.len() < needed {
        return Err(Reason::Room { needed }.into());
    }
    let rows = of_table.rows + of_points.rows;
    Ok(whole::write_pack(table, refs, points, starts, code, rows, count, out))
}

// The pack of a code from files that are accepted.
fn cut(table: &[u8], points: &[u8], code: &[u8], out: &mut [u8]) -> Answer
    requires { Judged table.now points.now code.now }
    ensures { said result out.new ≡ cut_outcome (table_lookup table.now)
        (live_in points.now code.now) code.now out.old }
{
    let mut refs = [0u32; RECORDS];
    shelf_find::inner::fill_refs(table, changes_source::table_shelf(), &mut refs);
    let mut starts = [0u32; RECORDS];
    walks::mark_views(table, &refs, points, code, &mut starts)?;
    write_if_room(table, &refs, points, code, &mut starts, out)
}

// The pack of a code, for any bytes given as files and code.
pub fn build_pack(table: &[u8], points: &[u8], code: &[u8], out: &mut [u8]) -> Answer
    ensures { said result out.new
        ≡ pack_built (pair_of table.now points.now) code.now out.old }
{
    changes_label::check_pair(table, points)?;
    if field_outward::outward_fault(code) != 0 {
        return Err(Reason::BadCode.into());
    }
    cut(table, points, code, out)
}
