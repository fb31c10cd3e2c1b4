// The rows that the addresses of a code refer to: marked by bits, one for each row of the five files of rows.
#![tactic(auto)]

pub mod inner;
mod marking;
mod walk;
