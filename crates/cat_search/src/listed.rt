//! The hits of a leaf for a query that is one word, one keyword or one label: the live ones of its postings, of which no set is
//! made.
ghost use Rattle.std.specs.Prelude.{◌≡◌, ◌<◌, ◌≤◌, ◌^◌, ◌++◌, All, Bool, IfOk, IfSome, List, count_by, drop, false, filter, length, replicate};
ghost use Rattle.cat_model.specs.RowSets.{has_row, indices};
ghost use Rattle.cat_model.specs.View.{selected};
ghost use Rattle.cat_query.specs.View.{query_of};
ghost use Rattle.cat_search.specs.Rows.{leaf_hits};

use crate::ranges::count_live;
use cat_columns::RowSet;
use cat_query::Query;
use cat_views::Leaf;
use cat_views::cat_segment::Live;
use std::alloc::{AllocError, Global};
use std::marker::Model;

/// The live rows of a leaf that a query matches, where the segment lists the query's rows: they are its postings (Lucene: a
/// `TermScorer` over a `PostingsEnum`, with the leaf's `liveDocs`).
///
/// Contracts see them as one truth value for each row.
#[derive(Drop)]
pub(crate) struct Listed<'a> {
    query: &'a Query,
    rows: &'a [u32],
    leaf: &'a Leaf,
}

impl<'a> Model for Listed<'a> {
    ghost use Rattle.std.specs.Prelude.{◌≡◌, Bool, List, length, map};
    ghost use Rattle.cat_model.specs.RowSets.{both, indices, joined};
    ghost use Rattle.cat_model.specs.View.{row_matches};
    ghost use Rattle.cat_query.specs.View.{query_of};

    ghost Value = { List Bool };

    ghost view = { λ r. joined both (map (row_matches (query_of r.query.now)) r.leaf.now.segment.rows) r.leaf.now.live };

    ghost invariant = { λ r. (r.rows.now ≡ indices (map (row_matches (query_of r.query.now)) r.leaf.now.segment.rows))
        × (length r.leaf.now.live ≡ length r.leaf.now.segment.rows) };
}

/// Whether the row is one of these, which rise.
fn lists(rows: &[u32], row: usize) -> bool
    requires { row < 2 ^ 32 }
    ensures { (set : List Bool) → rows.now ≡ indices set → result ≡ has_row set row }
{
    rows.binary_search(&(row as u32)).is_ok()
}

/// Those of the rows, which rise, that don't stand before this one.
fn rows_from(rows: &[u32], from: usize) -> &[u32]
    requires { from < 2 ^ 32 }
    ensures { (set : List Bool) → from ≤ length set → rows.now ≡ indices set
        → result.now ≡ indices (replicate from false ++ drop from set) }
{
    match rows.binary_search(&(from as u32)) {
        Ok(place) => &rows[place..],
        Err(place) => &rows[place..],
    }
}

impl<'a> Listed<'a> {
    /// The live rows of the leaf that the query matches, where it is one word, keyword or label of a field of the segment.
    pub(crate) fn of(query: &'a Query, leaf: &'a Leaf) -> Option<Listed<'a>>
        ensures ok { IfSome result (λ h. selected h leaf.now.segment.rows ≡ leaf_hits leaf.now (query_of query.now)) }
        ensures long { IfSome result (λ h. length h ≡ length leaf.now.segment.rows) }
    {
        let rows = query.postings(leaf.segment())?;
        // Its contract says that there are as many truth values as rows.
        let _live = leaf.live();
        Some(Listed { query, rows, leaf })
    }

    /// How many rows these are. They are looked at only where some row of the leaf is dead.
    pub(crate) fn count(&self) -> usize
        ensures { result ≡ count_by (λ b. b) self.now }
    {
        count_live(self.leaf, self.rows)
    }

    /// Whether the row is one of them. It takes a binary search.
    pub(crate) fn contains(&self, row: usize) -> bool
        requires { row < length self.now }
        ensures { result ≡ has_row self.now row }
    {
        let live = self.leaf.live();
        // The rows are fewer than 2^32.
        let _rows = live.len();
        lists(self.rows, row) && live.is_live(row)
    }

    /// The rows from this one on that the query matches, live or dead, rising, and which rows are live.
    pub(crate) fn parts_from(&self, from: usize) -> (&[u32], &Live)
        requires { from ≤ length self.now }
        ensures long { length result.1.now ≡ length self.now }
        ensures within { All (λ row. row < length self.now) result.0.now }
        ensures hits { filter (has_row result.1.now) result.0.now ≡ indices (replicate from false ++ drop from self.now) }
    {
        let live = self.leaf.live();
        // The rows are fewer than 2^32.
        let _rows = live.len();
        (rows_from(self.rows, from), live)
    }

    /// The rows that the query matches, live or dead, rising, and which rows are live.
    pub(crate) fn parts(&self) -> (&[u32], &Live)
        ensures long { length result.1.now ≡ length self.now }
        ensures within { All (λ row. row < length self.now) result.0.now }
        ensures hits { filter (has_row result.1.now) result.0.now ≡ indices self.now }
    {
        (self.rows, self.leaf.live())
    }

    /// These rows as a set.
    pub(crate) fn to_set(&self, alloc: Global) -> Result<RowSet, AllocError>
        ensures ok { IfOk result (λ s. s ≡ self.now) }
    {
        let mut rows = self.query.matches(alloc, self.leaf.segment())?.into_rows();
        rows.and_with(self.leaf.live().rows());
        Ok(rows)
    }
}
