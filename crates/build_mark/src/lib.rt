// Whether a packed delivery point is refused, and the marks of the rows that it refers to.
#![tactic(auto)]

pub mod inner;
