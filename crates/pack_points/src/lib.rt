// The points of a pack: whether they are good, where trailer and rows are.
#![tactic(auto)]

pub mod inner;
mod offsets;
mod points;
