//! The pages of hits, each in one pass over the segments of a view, and the sorts that they go by.
#![tactic(auto)]

mod ask;
mod bar;
mod best;
mod blocks;
mod ends;
mod entries;
mod gathering;
mod hits;
mod ids;
mod in_range;
mod keys;
mod leaf_ranks;
mod listed;
mod mark_rows;
mod number_bar;
mod offers;
mod ordinal_bar;
mod prepared;
mod ranges;
mod sort;
mod standings;
mod steps;
mod walk;

pub use ask::{Ask, Wanted};
pub use best::Best;
pub use cat_views::{Leaf, View};
pub use entries::{Entry, Page};
pub use keys::Key;
pub use prepared::{Prepared, views_show_records};
pub use sort::Sort;
