//! Queries: how they are read from texts, which items they accept, which rows of a segment they match, and that
//! they compare as what they ask.
#![tactic(auto)]

mod accepting;
mod copies;
mod doc_set;
mod equality;
mod escapes;
mod hashing;
mod matching;
mod meaning;
mod parsing;
mod postings;
mod query;
mod ranges;
mod reading;
mod runs;
mod scanning;
mod values;

pub use accepting::{is_at_least, is_at_most};
pub use doc_set::DocSet;
pub use query::Query;
pub use ranges::NumberRange;
