// Fields of a pack, written at a place of a lent buffer. All else stays as it was.
ghost use Rattle.std.specs.Prelude.{[], ◌∷◌, ◌+◌, ◌-◌, ◌≤◌, length};
ghost use Rattle.field.specs.Text.{part, text_in};
ghost use Rattle.label.specs.Put.{Put};
ghost use Rattle.pack.specs.Layout.{texts_bytes};
ghost use Rattle.pack.specs.Numbers.{bytes_of};
ghost use Rattle.pack.specs.Sectors.{counts_bytes};
ghost use Rattle.build.specs.Bytes.{sized, two_texts};

use label_pieces::inner::{byte_at, bytes_at};

// The last two bytes of a number, the most significant first.
pub fn short_at(n: usize, at: usize, out: &mut [u8]) -> usize
    requires { at + 2 ≤ length out.old }
    ensures { Put (bytes_of 2 n) out.old at result out.new }
{
    let i = byte_at((n / 256 % 256) as u8, at, out);
    byte_at((n % 256) as u8, i, out)
}

// The last four.
pub fn word_at(n: usize, at: usize, out: &mut [u8]) -> usize
    requires { at + 4 ≤ length out.old }
    ensures { Put (bytes_of 4 n) out.old at result out.new }
{
    let i = short_at(n / 65536, at, out);
    short_at(n, i, out)
}

// The last four of each of these, one behind the other.
pub fn words_at(ns: &[usize], at: usize, out: &mut [u8]) -> usize
    requires { at + length (counts_bytes ns.now) ≤ length out.old }
    ensures { Put (counts_bytes ns.now) out.old at result out.new }
{
    let mut end = at;
    for &n in ns {
        end = word_at(n, end, out);
    }
    end
}

// The bytes that a record has from `start` up to `end`.
pub fn part_at(rec: &[u8], start: usize, end: usize, at: usize, out: &mut [u8]) -> usize
    requires { at + length (part rec.now start end) ≤ length out.old }
    ensures { Put (part rec.now start end) out.old at result out.new }
{
    let t = file_record::part_of(rec, start, end);
    bytes_at(t, at, out)
}

// A length byte and the text behind it.
fn sized_at(t: &[u8], at: usize, out: &mut [u8]) -> usize
    requires { (length t.now ≤ 255) × (at + length (sized t.now) ≤ length out.old) }
    ensures { Put (sized t.now) out.old at result out.new }
{
    let i = byte_at(t.len() as u8, at, out);
    bytes_at(t, i, out)
}

// The same of the text that a record has from `start` up to `end`.
pub fn text_at(rec: &[u8], start: usize, end: usize, at: usize, out: &mut [u8]) -> usize
    requires { (end - start ≤ 255) × (at + length (sized (text_in rec.now start end)) ≤ length out.old) }
    ensures { Put (sized (text_in rec.now start end)) out.old at result out.new }
{
    let t = field_read::read_text(rec, start, end);
    sized_at(t, at, out)
}

// Two texts, of which the second begins where the first ends.
pub fn two_texts_at(
    rec: &[u8],
    start: usize,
    middle: usize,
    end: usize,
    at: usize,
    out: &mut [u8],
) -> usize
    requires { ((middle - start ≤ 255) × (end - middle ≤ 255)) × (at + length
        (texts_bytes (two_texts rec.now start middle end)) ≤ length out.old) }
    ensures { Put (texts_bytes (two_texts rec.now start middle end)) out.old at result
        out.new }
{
    let i = text_at(rec, start, middle, at, out);
    text_at(rec, middle, end, i, out)
}
