#![tactic(auto)]

// That a book and an accepted table file are what a pack can be cut from. This crate has laws and no code.
