//! Opening: the state in memory at the newest commit of a directory, or of an empty catalogue.

mod opening;

pub use opening::open;
