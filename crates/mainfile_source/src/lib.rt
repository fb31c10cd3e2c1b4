// What a Mainfile set says: each file of rows as a shelf, the organisation that an address record is joined to, and the
// record as a delivery point.
#![tactic(auto)]

mod delivery;
pub mod inner;
mod organisations;
mod rows;

pub use delivery::{address_record, delivery_at};
pub use organisations::organisation_row;
pub use rows::{kind_rows, row_shelf};
