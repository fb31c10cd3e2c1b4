#![tactic(auto)]

// That delivery points and rows of an accepted pair of files say what its addresses say. This crate has laws and no code.
