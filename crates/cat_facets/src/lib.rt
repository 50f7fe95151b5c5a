//! Counts over the labels of hits, by the global ordinals of a view.
#![tactic(auto)]

mod column;
mod counting;
mod facets;
mod first;
mod leaf;
mod limits;
mod live;
mod segments;
mod state;
mod states;
mod totals;
mod uncounting;
mod wanted_counts;

pub use cat_search::{Ask, Entry, Key, Page, Prepared, Sort, Wanted};
pub use cat_segment::{live_rows_are_told_by_their_bytes, segments_are_told_by_their_bytes};
pub use facets::{FacetCount, Facets};
pub use limits::MAX_KEPT_STATES;
pub use states::ReaderStates;
pub use wanted_counts::WantedCounts;
