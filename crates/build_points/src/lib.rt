// A point of a pack, written into a lent buffer that is known to be long enough.
#![tactic(auto)]

pub mod inner;
