#![tactic(auto)]

// What a reader starts from: the statements that the other crates add up to. This crate has no code.
