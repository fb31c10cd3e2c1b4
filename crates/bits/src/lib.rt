// Marks for places, a bit for each and 32 in a number: set, asked for, and looked for one after the other.
#![tactic(auto)]

pub mod inner;

ghost use Rattle.std.specs.Prelude.{◌≡◌, ◌≤◌};
ghost use Rattle.bits.specs.Bits.{bits_from, passed_from, next_marked};

// The bits of a place and of those behind it in the same number; none where there is no number.
fn bits_from(bits: &[u32], at: usize) -> u32
    ensures { result ≡ bits_from bits.now at }
{
    bits.get(at / 32).map_or(0, |word| *word >> (at % 32))
}

// How many places are passed from one that is not marked: where no bit is left in its number, all to the number's end.
fn passed(left: u32, at: usize) -> usize
    ensures { (result ≡ passed_from left at) × (1 ≤ result) }
{
    if left == 0 { 32 - at % 32 } else { 1 }
}

// The first marked place from `from` on below `last`; `last` where there is none.
pub fn next_marked(bits: &[u32], from: usize, last: usize) -> usize
    ensures { result ≡ next_marked bits.now from last }
{
    let mut i = from;
    while i < last {
        let left = bits_from(bits, i);
        if left % 2 == 1 {
            return i;
        }
        let step = passed(left, i);
        if last - i <= step {
            return last;
        }
        i += step;
    }
    last
}
