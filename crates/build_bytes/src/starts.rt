// The starts of the rows, by row.
ghost use Rattle.std.specs.Prelude.{◌≡◌, ◌-◌, ◌≤◌, get_or};

// What a number is above another, 0 where it is not.
pub fn above(a: usize, b: usize) -> usize
    ensures { (result ≡ a - b) × (result ≤ a) }
{
    if a < b { 0 } else { a - b }
}

// The start that a row has, plus 1; 0 where it has none.
pub fn start_of(starts: &[u32], i: usize) -> usize
    ensures { result ≡ get_or starts.now i 0 }
{
    if i < starts.len() {
        starts[i] as usize
    } else {
        0
    }
}
