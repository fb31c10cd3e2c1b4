// The texts of a delivery point of a set, gathered in one buffer, and where a label finds them there.
#![tactic(auto)]

pub mod inner;
mod places;

pub use places::{Places, spans_from};
