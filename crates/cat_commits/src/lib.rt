//! Commits and their files, which commits are kept, and snapshots of them; how the files of a commit are written, and how
//! they are read and judged.
#![tactic(auto)]

mod commit;
mod cursor;
mod decoding;
mod encoding;
mod kept;
mod listing;
mod names;
pub mod reading;
mod snapshots;
mod start;
mod text;
pub mod writing;

pub use cat_views::{Hold, Leaf, View};
pub use commit::{Commit, ListedSegment, Version};
pub use kept::KeepLast;
pub use snapshots::Snapshots;
pub use text::{commit_text_ok, judge_commit_text};
