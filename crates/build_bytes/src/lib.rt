// The fields of a pack, written into a lent buffer that is known to be long enough.
#![tactic(auto)]

mod fields;
pub mod inner;
mod starts;
