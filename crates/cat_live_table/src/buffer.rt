//! The write buffer: the items put since the last flush, and the segment that a flush makes of them.

mod buffer;
mod record;

pub use buffer::{Buffer, Sealed};
pub use record::Record;
