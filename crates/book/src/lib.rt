// What a running address book is, and what an event does to it: definitions and laws. Where the parts of a book stand.
#![tactic(auto)]

mod layout;

pub use layout::Book;
