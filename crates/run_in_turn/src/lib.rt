// Labels asked one by one and written one behind the other: one loop for whatever is asked.
#![tactic(auto)]

pub mod inner;
