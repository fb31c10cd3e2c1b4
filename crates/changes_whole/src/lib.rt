#![tactic(auto)]

// What a builder knows that takes its rows from a table file and its delivery points from one slice. This crate has no code.
