// The outward codes of a point file's live views, rising, each with how many live views it has. The file is judged first;
// then its records are gone through once, the codes of the live views are put in order and counted, and how many bytes are
// needed is known before the first is written.
#![tactic(auto)]

mod entries;
mod gather;

ghost use Rattle.std.specs.Prelude.{◌≡◌};
ghost use Rattle.file.specs.Formats.{point_format};
ghost use Rattle.file.specs.Accepted.{Accepted};
ghost use Rattle.refusal.specs.Outcome.{said};
ghost use Rattle.tally_bytes.specs.Entries.{entries_outcome};
ghost use Rattle.changes_codes.specs.Codes.{codes_in, codes_outcome};

use refusal::Answer;

// The most records of a point file.
const RECORDS: usize = 20000;

// The codes of an accepted file.
fn list_codes(points: &[u8], out: &mut [u8]) -> Answer
    requires { Accepted point_format points.now }
    ensures { said result out.new ≡ entries_outcome (codes_in points.now) out.old }
{
    let mut codes = [0u32; RECORDS];
    let n = gather::live_codes(points, &mut codes);
    let mut counts = [0u32; RECORDS];
    let k = tally_count::inner::count_codes(&mut codes[..n], &mut counts);
    entries::write_if_room(&codes[..k], &counts[..k], out)
}

// The outward codes of any bytes given as a point file.
pub fn codes_in(points: &[u8], out: &mut [u8]) -> Answer
    ensures { said result out.new ≡ codes_outcome points.now out.old }
{
    file_check::check_points(points)?;
    list_codes(points, out)
}
