// The points of a pack counted by the first byte of their inward code, and whether a trailer says these counts.
#![tactic(auto)]

pub mod inner;

// How many points have each inward digit, 0 to 9.
#[derive(Clone, Copy)]
pub struct Counts {
    pub of_digits: [usize; 10],
}
