//! The words of one field of a segment: its terms and the postings of each, as Lucene's `Terms` and `PostingsEnum`.

mod build;
mod counting;
mod laying;
mod merge;
mod ordinals;
mod posted;
mod ranges;
mod terms;

pub use merge::MergeInput;
pub use posted::terms_are_told_by_their_postings;
pub use ranges::{is_from, is_up_to};
pub use terms::Terms;
