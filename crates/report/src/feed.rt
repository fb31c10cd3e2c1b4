// Pieces of a report, written at a place of a lent buffer as far as it goes. All else stays as it was.
ghost use Rattle.std.specs.Prelude.{◌≤◌, length, take};
ghost use Rattle.report.specs.Fed.{Fed};
ghost use Rattle.item.specs.Lines.{spaced_number, refused_line};

use item_write::Line;
use label_pieces::inner::bytes_at;
use refusal::Reason;

// A text.
pub fn text_at(t: &[u8], at: usize, out: &mut [u8]) -> usize
    requires { at ≤ length out.old }
    ensures { Fed t.now out.old at result out.new }
{
    let room = out.len() - at;
    if t.len() <= room {
        return bytes_at(t, at, out);
    }
    bytes_at(&t[..room], at, out)
}

// A line.
pub fn line_at(line: Line, at: usize, out: &mut [u8]) -> usize
    requires { (at ≤ length out.old) × (line.len ≤ length line.bytes) }
    ensures { Fed (take line.len line.bytes) out.old at result out.new }
{
    let bytes = line.bytes;
    let n = line.len;
    text_at(&bytes[..n], at, out)
}

// A space and a number.
pub fn number_at(n: usize, at: usize, out: &mut [u8]) -> usize
    requires { at ≤ length out.old }
    ensures { Fed (spaced_number n) out.old at result out.new }
{
    line_at(item_write::number_line(n), at, out)
}

// `refused`, number, detail, and the byte of a malformed record.
pub fn refused_at(reason: Reason, at: usize, out: &mut [u8]) -> usize
    requires { at ≤ length out.old }
    ensures { Fed (refused_line reason) out.old at result out.new }
{
    line_at(item_write::refused_line(reason), at, out)
}
