// The tests that the crates of records go through: field by field with the place of a fault, and fast ones whose yes is a
// promise and whose no is none.
pub use crate::at::{
    byte_fault, digits_at, double_at, filled_at, first_of, inward_at, key_at, outward_at,
    postcode_type_at, suffix_at, text_at, yes_at,
};
pub use crate::fine::{
    is_fine_box, is_fine_organisation, is_fine_outward, is_fine_places, is_fine_text,
};
