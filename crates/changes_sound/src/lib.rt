#![tactic(auto)]

// That an accepted pair of files is what a pack can be cut from. This crate has laws and no code.
