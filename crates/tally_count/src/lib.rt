// Codes counted: each once, rising, with how many there are of it.
#![tactic(auto)]

pub mod inner;
