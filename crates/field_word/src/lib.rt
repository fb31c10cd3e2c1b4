// Four or eight bytes at once, read as one number.
#![tactic(auto)]

pub mod inner;
