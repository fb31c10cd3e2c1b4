// Where the rows of a pack will stand, and how long an organisation's row is.
#![tactic(auto)]

pub mod inner;
