#![tactic(auto)]

// That an accepted Mainfile set is what a pack can be cut from. This crate has laws and no code.
