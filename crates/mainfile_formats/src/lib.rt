// The files of a Mainfile set, each with the numbers and the tests that the check of a file goes through.
#![tactic(auto)]

pub mod inner;
mod rising;
mod standing;
