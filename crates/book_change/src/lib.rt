// What an event and tidying write into a book.
#![tactic(auto)]

mod all;
pub mod inner;
mod slot;
