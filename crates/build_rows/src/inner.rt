// What the crates that write whole packs have to know.
pub use crate::organisations::organisation_at;
pub use crate::used::{row_at, rows_at};
