//! The hits of a leaf: its own live set, lent, a test of its rows, or a set that was made of what a query matches.
ghost use Rattle.std.specs.Prelude.{◌≡◌, ◌<◌, IfOk, count_by, length};
ghost use Rattle.cat_model.specs.RowSets.{has_row};
ghost use Rattle.cat_search.specs.Hits.{hit_rows};

use crate::in_range::InRange;
use crate::listed::Listed;
use cat_columns::RowSet;
use cat_views::Leaf;
use std::alloc::{AllocError, Global};

/// How many hits of a list are looked at in the time of one binary search in it.
const SEARCH_COST: usize = 16;

/// Which rows of a leaf are hits.
#[derive(Drop)]
pub(crate) enum Hits<'a> {
    /// All that are live: the live set of the leaf, lent.
    Live(&'a Leaf),
    /// The live rows whose numbers lie in a range.
    InRange(InRange<'a>),
    /// The live rows among those that the segment lists.
    Listed(Listed<'a>),
    /// Those of the set.
    Matched(RowSet),
}

impl<'a> Hits<'a> {
    /// All live rows of the leaf.
    pub(crate) fn live_in(leaf: &'a Leaf) -> Hits<'a>
        ensures rows { hit_rows result ≡ leaf.now.live }
        ensures long { length (hit_rows result) ≡ length leaf.now.segment.rows }
    {
        prove!(leaf.live().len() == leaf.segment().len());
        Hits::Live(leaf)
    }

    /// How many rows there are. Those of a live set are counted already.
    pub(crate) fn count(&self) -> usize
        ensures { result ≡ count_by (λ b. b) (hit_rows self.now) }
    {
        match self {
            Hits::Live(leaf) => leaf.live_count(),
            Hits::InRange(hits) => hits.count(),
            Hits::Listed(hits) => hits.count(),
            Hits::Matched(rows) => rows.count(),
        }
    }

    /// Whether the row is a hit.
    pub(crate) fn contains(&self, row: usize) -> bool
        requires { row < length (hit_rows self.now) }
        ensures { result ≡ has_row (hit_rows self.now) row }
    {
        match self {
            Hits::Live(leaf) => leaf.live().is_live(row),
            Hits::InRange(hits) => hits.contains(row),
            Hits::Listed(hits) => hits.contains(row),
            Hits::Matched(rows) => rows.contains(row),
        }
    }

    /// How many hits are looked at one after another in the time of one test of a row.
    pub(crate) fn test_cost(&self) -> usize {
        match self {
            Hits::Listed(_) => SEARCH_COST,
            Hits::Live(_) | Hits::InRange(_) | Hits::Matched(_) => 1,
        }
    }

    /// Whether so many of these hits, which are so many in all, are met sooner by a look at each of the rows than by a look at
    /// a set that has to be made first: it takes `rows / found` steps to meet one, if they lie anywhere among the rows.
    pub(crate) fn are_met_sooner(&self, found: usize, rows: usize, wanted: usize) -> bool {
        match self {
            Hits::Live(_) | Hits::InRange(_) => {
                wanted.saturating_mul(rows) <= found.saturating_mul(found)
            }
            // What is listed stands in order of addition, so it is met by a look at each of the list.
            Hits::Listed(_) | Hits::Matched(_) => false,
        }
    }

    /// The rows as a set that may be changed. Only what is lent is copied.
    pub(crate) fn into_rows(self, alloc: Global) -> Result<RowSet, AllocError>
        ensures ok { IfOk result (λ s. s ≡ hit_rows self.entry) }
    {
        match self {
            Hits::Live(leaf) => leaf.live().rows().copy(),
            Hits::InRange(hits) => hits.into_rows(alloc),
            Hits::Listed(hits) => hits.to_set(alloc),
            Hits::Matched(rows) => Ok(rows),
        }
    }
}
