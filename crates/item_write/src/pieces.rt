// The pieces of a line, written at a place of a lent buffer. All else stays as it was.
ghost use Rattle.std.specs.Prelude.{◌+◌, ◌≤◌, length};
ghost use Rattle.label.specs.Put.{Put};
ghost use Rattle.item.specs.Lines.{decimal, spaced_number, view_line, point_line, byte_text, refused_text};

use label_pieces::inner::{byte_at, bytes_at};

// A number in decimal digits: the digits of its tens, then the last.
fn decimal_at(n: usize, at: usize, out: &mut [u8]) -> usize
    requires { at + length (decimal n) ≤ length out.old }
    ensures { Put (decimal n) out.old at result out.new }
{
    if n < 10 {
        return byte_at(48 + (n as u8), at, out);
    }
    let i = decimal_at(n / 10, at, out);
    byte_at(48 + ((n % 10) as u8), i, out)
}

// A space and a number.
pub fn spaced_at(n: usize, at: usize, out: &mut [u8]) -> usize
    requires { at + length (spaced_number n) ≤ length out.old }
    ensures { Put (spaced_number n) out.old at result out.new }
{
    let i = byte_at(b' ', at, out);
    decimal_at(n, i, out)
}

// `view`, number, letter.
pub fn view_at(view: usize, letter: u8, at: usize, out: &mut [u8]) -> usize
    requires { at + length (view_line view letter) ≤ length out.old }
    ensures { Put (view_line view letter) out.old at result out.new }
{
    let ending = [b' ', letter, b'\n'];
    let i = bytes_at(b"view", at, out);
    let j = spaced_at(view, i, out);
    bytes_at(&ending, j, out)
}

// `point`, number.
pub fn point_at(k: usize, at: usize, out: &mut [u8]) -> usize
    requires { at + length (point_line k) ≤ length out.old }
    ensures { Put (point_line k) out.old at result out.new }
{
    let i = bytes_at(b"point", at, out);
    let j = spaced_at(k, i, out);
    byte_at(b'\n', j, out)
}

// A space and the byte, where a record is malformed.
fn fault_at(number: usize, second: usize, at: usize, out: &mut [u8]) -> usize
    requires { at + length (byte_text number second) ≤ length out.old }
    ensures { Put (byte_text number second) out.old at result out.new }
{
    if number != 4 {
        return at;
    }
    spaced_at(second, at, out)
}

// `refused`, number, detail, and the byte of a malformed record.
pub fn refused_at(number: usize, detail: usize, second: usize, at: usize, out: &mut [u8]) -> usize
    requires { at + length (refused_text number detail second) ≤ length out.old }
    ensures { Put (refused_text number detail second) out.old at result out.new }
{
    let i = bytes_at(b"refused", at, out);
    let j = spaced_at(number, i, out);
    let k = spaced_at(detail, j, out);
    let l = fault_at(number, second, k, out);
    byte_at(b'\n', l, out)
}
