// Codes counted in place: they are put in order, and then each run of equal codes becomes one entry. An entry is a code in
// the front of one list and its count in the front of another.
ghost use Rattle.std.specs.Prelude.{◌≡◌, ◌++◌, ◌+◌, ◌≤◌, ◌<◌, length, drop, get_or};
ghost use Rattle.tally.specs.Order.{sorted, Rises};
ghost use Rattle.tally_count.specs.Counted.{repeats, Counted};

use tally_sort::inner::sort;

// Behind the run of equal codes that begins at `i`.
fn run_end(codes: &[u32], i: usize) -> usize
    requires { i < length codes.now }
    ensures { (result ≡ i + 1 + repeats (get_or codes.now i 0) (drop (i + 1) codes.now))
        × (result ≤ length codes.now) }
{
    let first = codes[i];
    for end in i + 1..codes.len() {
        if codes[end] != first {
            return end;
        }
    }
    codes.len()
}

// The entries of codes that are in order.
fn count_runs(codes: &mut [u32], counts: &mut [u32]) -> usize
    requires { Rises codes.old × (length codes.old ≤ length counts.old) × (length codes.old < 4294967296) }
    ensures { Counted codes.old codes.old counts.old result codes.new
        counts.new }
{
    let mut entries = 0;
    let mut i = 0;
    while i < codes.len() {
        let code = codes[i];
        let end = run_end(codes, i);
        codes[entries] = code;
        counts[entries] = (end - i) as u32;
        entries += 1;
        i = end;
    }
    entries
}

// The entries of any codes. `counts` is at least as long; behind the entries stand the codes in order, in both.
pub fn count_codes(codes: &mut [u32], counts: &mut [u32]) -> usize
    requires { (length codes.old ≤ length counts.old) × (length codes.old < 4294967296) }
    ensures { Counted codes.old (sorted codes.old)
        (sorted codes.old ++ drop (length codes.old) counts.old) result codes.new
        counts.new }
{
    sort(codes, counts);
    count_runs(codes, counts)
}
