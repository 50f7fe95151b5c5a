//! What is answered to the reads that look for items, over a session's right to a view.

mod asking;
mod counts;
mod pages;
mod preparing;

pub use counts::count_facets;
pub use pages::find;
