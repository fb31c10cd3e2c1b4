// An item put together: its label is asked first, in what the heading leaves of the buffer, and the heading written then.
ghost use Rattle.std.specs.Prelude.{◌≡◌, ◌++◌, ◌≤◌, length};
ghost use Rattle.refusal.specs.Outcome.{said};
ghost use Rattle.refusal.specs.Refusal.{number, detail};
ghost use Rattle.label.specs.Label.{room_outcome};
ghost use Rattle.item.specs.Lines.{worded};
ghost use Rattle.item_write.specs.Line.{Holds};
ghost use Rattle.item_write.specs.Headed.{before, over_label, over_refusal, headed, Small};

use crate::pieces::spaced_at;
use crate::{Line, refused_line};
use label_pieces::inner::{byte_at, bytes_at};
use refusal::{Answer, Reason, Refusal};

// A word and a number.
pub fn worded_line(word: &[u8], n: usize) -> Line
    requires { length word.now ≤ 20 }
    ensures { Holds result (worded word.now n) }
{
    let mut bytes = [0u8; 80];
    let i = bytes_at(word, 0, &mut bytes);
    let j = spaced_at(n, i, &mut bytes);
    let len = byte_at(b'\n', j, &mut bytes);
    Line { bytes, len }
}

// How much of a buffer its heading takes.
pub fn room_before(heading: &[u8], room: usize) -> usize
    ensures { result ≡ before heading.now room }
{
    if heading.len() <= room {
        return heading.len();
    }
    room
}

// Two short texts, one behind the other.
fn both_texts(first: &[u8], second: &[u8], out: &mut [u8]) -> Answer
    requires { (length first.now ≤ 80) × (length second.now ≤ 80) }
    ensures { said result out.new
        ≡ room_outcome (first.now ++ second.now) out.old }
{
    let needed = first.len() + second.len();
    if out.len() < needed {
        return Err(Reason::Room { needed }.into());
    }
    let i = bytes_at(first, 0, out);
    Ok(bytes_at(second, i, out))
}

// A label of so many bytes has been written behind the heading's place.
fn over_label(heading: &[u8], label: usize, out: &mut [u8]) -> Answer
    requires { (length heading.now ≤ 80) × (label ≤ 4_294_967_295) }
    ensures { said result out.new ≡ over_label heading.now label out.old }
{
    let needed = heading.len() + label;
    if out.len() < heading.len() {
        return Err(Reason::Room { needed }.into());
    }
    Ok(bytes_at(heading, 0, out) + label)
}

// A label has been refused.
#[tactic(auto, using(crate::proofs::Headed::refusal_none))]
fn over_refusal(heading: &[u8], reason: Reason, out: &mut [u8]) -> Answer
    requires { (length heading.now ≤ 80) × (number reason ≡ 10 → detail reason ≤ 4_294_967_295) }
    ensures { said result out.new ≡ over_refusal heading.now reason out.old }
{
    let number = refusal::number_of(reason);
    if number == 10 {
        let needed = heading.len() + refusal::detail_of(reason);
        return Err(Reason::Room { needed }.into());
    }
    if number == 7 {
        return Err(Reason::NoSuchNumber.into());
    }
    let line = refused_line(reason);
    let bytes = line.bytes;
    let n = line.len;
    both_texts(heading, &bytes[..n], out)
}

// The item, once its label was asked.
pub fn headed_item(heading: &[u8], answer: Answer, out: &mut [u8]) -> Answer
    requires { (length heading.now ≤ 80) × Small answer }
    ensures { said result out.new ≡ headed heading.now answer out.old }
{
    match answer {
        Ok(label) => over_label(heading, label, out),
        Err(Refusal { file: _, reason }) => over_refusal(heading, reason, out),
    }
}
