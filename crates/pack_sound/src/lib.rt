#![tactic(auto)]

// What makes addresses and rows what a pack can be cut from, whichever source has them. This crate has laws and no code.
