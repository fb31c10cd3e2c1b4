// Pieces of a line, written at a place of a lent buffer. All else stays as it was.
ghost use Rattle.std.specs.Prelude.{[], ◌∷◌, ◌+◌, ◌/◌, ◌%◌, ◌≤◌, length};
ghost use Rattle.label.specs.Lines.{number_text};
ghost use Rattle.label.specs.Put.{Wrote, Put, tail_text, tail_in, front_text, lead_in};
ghost use Rattle.label.specs.Spans.{text_in2};

use label::{Front, Span, text_of};
use label_length::inner::front_len;

// A text at the front of what is lent. By the library's `copy_from_slice` C would have to bring `memmove`.
fn put_bytes(t: &[u8], out: &mut [u8]) -> usize
    requires { length t.now ≤ length out.old }
    ensures { Wrote t.now out.old result out.new }
{
    for (i, &b) in t.iter().enumerate() {
        out[i] = b;
    }
    t.len()
}

pub fn bytes_at(t: &[u8], at: usize, out: &mut [u8]) -> usize
    requires { at + length t.now ≤ length out.old }
    ensures { Put t.now out.old at result out.new }
{
    at + put_bytes(t, &mut out[at..])
}

pub fn byte_at(b: u8, at: usize, out: &mut [u8]) -> usize
    requires { at + 1 ≤ length out.old }
    ensures { Put (b ∷ []) out.old at result out.new }
{
    out[at] = b;
    at + 1
}

// The text at a span.
pub fn text_at<'a>(a: &'a [u8], b: &'a [u8], s: Span, at: usize, out: &mut [u8]) -> usize
    requires { at + length (text_in2 a.now b.now s) ≤ length out.old }
    ensures { Put (text_in2 a.now b.now s) out.old at result out.new }
{
    let t = text_of(a, b, s);
    bytes_at(t, at, out)
}

// A space and the text, where there is one.
fn tail_bytes_at(t: &[u8], at: usize, out: &mut [u8]) -> usize
    requires { at + length (tail_text t.now) ≤ length out.old }
    ensures { Put (tail_text t.now) out.old at result out.new }
{
    if t.len() == 0 {
        return at;
    }
    let i = byte_at(32, at, out);
    bytes_at(t, i, out)
}

pub fn tail_at<'a>(a: &'a [u8], b: &'a [u8], s: Span, at: usize, out: &mut [u8]) -> usize
    requires { at + length (tail_in a.now b.now s) ≤ length out.old }
    ensures { Put (tail_in a.now b.now s) out.old at result out.new }
{
    let t = text_of(a, b, s);
    tail_bytes_at(t, at, out)
}

// A digit, or of a number above 9999 what stands for its thousands.
fn digit_at(d: u16, at: usize, out: &mut [u8]) -> usize
    requires { (d ≤ 99) × (at + 1 ≤ length out.old) }
    ensures { Put ((48 + d) ∷ []) out.old at result out.new }
{
    byte_at(48 + (d as u8), at, out)
}

// The tens and the ones.
fn tens_at(n: u16, at: usize, out: &mut [u8]) -> usize
    requires { at + 2 ≤ length out.old }
    ensures { Put ((48 + n / 10 % 10) ∷ (48 + n % 10) ∷ []) out.old at result out.new }
{
    let i = digit_at(n / 10 % 10, at, out);
    digit_at(n % 10, i, out)
}

// The number without leading zeros; nothing for 0.
pub fn number_at(n: u16, at: usize, out: &mut [u8]) -> usize
    requires { at + length (number_text n) ≤ length out.old }
    ensures { Put (number_text n) out.old at result out.new }
{
    if n == 0 {
        return at;
    }
    if n < 10 {
        return digit_at(n, at, out);
    }
    if n < 100 {
        return tens_at(n, at, out);
    }
    if n < 1000 {
        let i = digit_at(n / 100, at, out);
        return tens_at(n, i, out);
    }
    let i = digit_at(n / 1000, at, out);
    let j = digit_at(n / 100 % 10, i, out);
    tens_at(n, j, out)
}

// A front.
fn front_text_at<'a>(a: &'a [u8], b: &'a [u8], f: Front, at: usize, out: &mut [u8]) -> usize
    requires { at + length (front_text a.now b.now f) ≤ length out.old }
    ensures { Put (front_text a.now b.now f) out.old at result out.new }
{
    let text = f.text;
    let beside = f.beside;
    let i = number_at(f.number, at, out);
    let j = text_at(a, b, text, i, out);
    tail_at(a, b, beside, j, out)
}

// A front and a space after it, where it is pending and there is one.
pub fn lead_at<'a>(a: &'a [u8], b: &'a [u8], f: Front, at: usize, out: &mut [u8]) -> usize
    requires { at + length (lead_in a.now b.now f) ≤ length out.old }
    ensures { Put (lead_in a.now b.now f) out.old at result out.new }
{
    if f.pending {
        if front_len(a, b, f) == 0 {
            return at;
        }
        let i = front_text_at(a, b, f, at, out);
        return byte_at(32, i, out);
    }
    at
}
