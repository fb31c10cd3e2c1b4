// One entry, written at a place of a lent buffer. All else stays as it was.
ghost use Rattle.std.specs.Prelude.{◌+◌, ◌≤◌, length};
ghost use Rattle.label.specs.Put.{Put};
ghost use Rattle.tally_bytes.specs.Entries.{one_entry};

use build_bytes::inner::word_at;

// The last four bytes of a code and of its count, the most significant first.
pub fn entry_at(code: usize, count: usize, at: usize, out: &mut [u8]) -> usize
    requires { at + 8 ≤ length out.old }
    ensures { Put (one_entry code count) out.old at result out.new }
{
    let end = word_at(code, at, out);
    word_at(count, end, out)
}
