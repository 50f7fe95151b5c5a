//! What a segment holds its rows by: sets of rows, dictionaries with dense ordinals, columns, and the terms of its words
//! with their postings.
#![tactic(auto)]

mod blocks;
mod covering;
mod dictionary;
mod gathering;
mod hashing;
mod hints;
pub mod inverted;
mod keywords;
mod laws;
mod numbers;
mod packed;
mod row_set;
mod scan;
mod sets;
mod union;

pub use dictionary::Dictionary;
pub use hashing::text_hash;
pub use keywords::KeywordColumn;
pub use laws::{columns_are_told_by_their_layouts, sets_are_told_by_their_bytes};
pub use numbers::NumberColumn;
pub use row_set::RowSet;
pub use scan::Rows;
pub use sets::SetColumn;
