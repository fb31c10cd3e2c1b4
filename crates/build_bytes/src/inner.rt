// What the crates that write rows, points and the whole pack have in common.
pub use crate::fields::{part_at, short_at, text_at, two_texts_at, word_at, words_at};
pub use crate::starts::{above, start_of};
