//! The queries that were noted, and the sets of rows that are at hand for them.

mod filters;
mod looks;
mod making;
mod news;

pub use filters::Filters;
pub use news::WarmNews;
