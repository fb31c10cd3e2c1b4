// The pieces that the crates of views and of the whole report write.
pub use crate::feed::{line_at, number_at, refused_at, text_at};
