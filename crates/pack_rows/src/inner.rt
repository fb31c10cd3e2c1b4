// What the crates that judge points and whole packs have to know of rows.
pub use crate::fine::rows_fine;
pub use crate::marks::offset_marked;
pub use crate::rows::{rows_good, text_empty};
pub use crate::starts::{keep_starts, offset_good};
