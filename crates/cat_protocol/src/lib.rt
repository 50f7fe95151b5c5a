//! What is said and how: lines as they are read, replies and their texts, how these go out to a writer, and a machine of
//! lines that is served over a reader and a writer.
#![tactic(auto)]

pub mod lines;
pub mod replies;
pub mod sending;
pub mod serving;

pub use cat_facets::{
    Ask, Facets, Page, Prepared, ReaderStates, Sort, Wanted, WantedCounts,
    live_rows_are_told_by_their_bytes, segments_are_told_by_their_bytes,
};
