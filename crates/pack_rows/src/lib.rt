// The rows of a pack: whether they are good, and whether an offset is the start of one.
#![tactic(auto)]

mod fine;
pub mod inner;
mod marks;
mod rows;
mod starts;
mod sweep;
