// Records of a shelf, and their numbers.
#![tactic(auto)]

pub mod inner;
