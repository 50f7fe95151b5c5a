//! Sets of rows that are kept for queries that return: the filter cache, and which queries were noted for it.
#![tactic(auto)]

pub mod cache;
pub mod filters;

pub use cat_query::{DocSet, Query};
pub use cat_views::cat_segment::Segment;
pub use cat_views::{Hold, Leaf, View};
