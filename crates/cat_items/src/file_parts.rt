//! Reads and writes the parts of files: fields, and segments as they are laid out.

mod columns;
mod cursor;
mod fields;
mod heads;
mod lists;
mod parts;
mod passing;
mod reading;
mod writing;

pub use fields::read_fields;
pub use parts::{ColumnParts, SegmentParts};
pub use reading::{layouts_are_told_by_their_bytes, read_segment};
pub use writing::{
    put_fields, put_head, put_list, put_number, put_numbers, put_posted, put_start, put_texts,
};
