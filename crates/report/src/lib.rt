// What is printed of a pair of files, of at most 300 records each: document 01's "One run" as definitions and laws, and
// the pieces of a report.
#![tactic(auto)]

mod feed;
pub mod inner;
