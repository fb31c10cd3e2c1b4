// The rows of one shelf, marked by bits: a bit for each row, and where the rows of each block of 64 start. So a shelf of a
// million records takes 125,000 bytes for its marks and 62,500 for its starts, and only marked rows are looked at.
#![tactic(auto)]

pub mod inner;
