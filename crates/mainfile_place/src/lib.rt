// The marked rows of a set, file by file: where each starts in a pack, and its bytes there.
#![tactic(auto)]

pub mod inner;
mod offsets;
mod places;
mod rows;
