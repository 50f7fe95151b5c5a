//! The filter cache: sets of the rows of a segment that a query matches, kept in the order of their use, and made step by
//! step.

mod cache;
mod key;
mod warm;

pub use cache::FilterCache;
pub use key::Key;
pub use warm::{Warm, Warming};
