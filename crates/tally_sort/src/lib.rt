// Numbers put in rising order.
#![tactic(auto)]

pub mod inner;
