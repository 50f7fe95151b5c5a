//! Upkeep of the segments that stand: when a merge is due, and its steps, over the state of a ledger in memory and its device.

mod due;
mod forcing;
mod merges;
mod news;
mod policy;

pub use forcing::force;
pub use merges::merge_step;
pub use news::MergeNews;
pub use policy::MergePolicy;
