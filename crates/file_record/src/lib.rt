// The records of a table file and of a point file: where each field stands, and how a record is read as a part of its file.
#![tactic(auto)]

pub mod inner;
mod layout;
mod parts;

pub use layout::{Cursor, Locality, Organisation, Point, Table, View};
pub use parts::{byte_of, part_of, point_record, table_record};
