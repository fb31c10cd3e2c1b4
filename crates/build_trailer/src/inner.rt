// The trailer of a pack.
ghost use Rattle.std.specs.Prelude.{◌+◌, ◌≤◌, length};
ghost use Rattle.label.specs.Put.{Put};
ghost use Rattle.pack.specs.Names.{newest};
ghost use Rattle.pack.specs.Sectors.{counts_bytes};
ghost use Rattle.pack.specs.Layout.{trailer_bytes};
ghost use Rattle.build.specs.Bytes.{counts_at_in, trailer_end};
ghost use Rattle.build_trailer.specs.Room.{TrailerFits};

use build_bytes::inner::{word_at, words_at};
use label_pieces::inner::{byte_at, bytes_at};
use pack_counts::inner::count_digits;
use pack_read::NewestPack;

// The outward code, the length of the pack, the counts and the edition.
fn trailer_end_at(
    code: &[u8],
    bytes: usize,
    of_digits: [usize; 10],
    at: usize,
    out: &mut [u8],
) -> usize
    requires { at + length (trailer_end code.now bytes (counts_bytes of_digits)) ≤ length out.old }
    ensures { Put (trailer_end code.now bytes (counts_bytes of_digits))
        out.old at result out.new }
{
    let i = bytes_at(code, at, out);
    let j = word_at(bytes, i, out);
    let k = words_at(&of_digits, j, out);
    byte_at(NewestPack::EDITION, k, out)
}

// The trailer of a pack of so many rows, whose so many points stand from `start` on.
pub fn trailer_at(
    rows: usize,
    start: usize,
    count: usize,
    code: &[u8],
    at: usize,
    out: &mut [u8],
) -> usize
    requires { TrailerFits rows start count code.now at out.old }
    ensures { Put (trailer_bytes newest rows start count code.now
        (counts_at_in out.old count start)) out.old at result out.new }
{
    let bytes = start + NewestPack::POINT * count + NewestPack::TRAILER;
    let counts = count_digits(&out[..], start, NewestPack::POINT, count);
    let of_digits = counts.of_digits;
    let i = word_at(rows, at, out);
    let j = word_at(start, i, out);
    let k = word_at(count, j, out);
    trailer_end_at(code, bytes, of_digits, k, out)
}
