// The kinds of file, each with the numbers and the tests that the check of a file goes through.
#![tactic(auto)]

pub mod inner;
mod standing;
