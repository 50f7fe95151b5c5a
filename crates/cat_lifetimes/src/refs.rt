//! How many users each file has, and the deletion of those that have none.

mod refs;

pub use refs::FileRefs;
