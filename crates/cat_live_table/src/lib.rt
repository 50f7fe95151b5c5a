//! The two halves of the live table: the write buffer, and the segments that stand, each with its live rows.
#![tactic(auto)]

pub mod buffer;
pub mod current;

pub use cat_items::{Item, Schema};
pub use cat_query::Query;
