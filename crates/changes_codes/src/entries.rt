// Entries of two lists, as bytes.
ghost use Rattle.std.specs.Prelude.{◌≡◌, ◌*◌, ◌≤◌, length};
ghost use Rattle.label.specs.Put.{Wrote};
ghost use Rattle.refusal.specs.Outcome.{said};
ghost use Rattle.tally_bytes.specs.Entries.{roomed};
ghost use Rattle.changes_codes.specs.Codes.{pair_bytes};

use refusal::{Answer, Reason};
use tally_bytes::Entry;
use tally_bytes::inner::entry_at;

// Entries at the front of a lent buffer that has room for them.
fn write_entries(codes: &[u32], counts: &[u32], out: &mut [u8]) -> usize
    requires counts_len { length counts.now ≡ length codes.now }
    requires counts_in_bounds { length (pair_bytes codes.now counts.now) ≤ length out.old }
    ensures { Wrote (pair_bytes codes.now counts.now) out.old result
        out.new }
{
    let mut at = 0;
    for (&code, &count) in codes.iter().zip(counts) {
        at = entry_at(code as usize, count as usize, at, out);
    }
    at
}

// The same where there is room; how many entries there are.
pub fn write_if_room(codes: &[u32], counts: &[u32], out: &mut [u8]) -> Answer
    requires { (length counts.now ≡ length codes.now) × (length codes.now ≤ 20000) }
    ensures { said result out.new ≡ roomed (length codes.now)
        (pair_bytes codes.now counts.now) out.old }
{
    let needed = Entry::WIDTH * codes.len();
    if out.len() < needed {
        return Err(Reason::Room { needed }.into());
    }
    write_entries(codes, counts, out);
    Ok(codes.len())
}
