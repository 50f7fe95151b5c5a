//! The hits of a leaf for a query that is one range of numbers, of which no set is made.
ghost use Rattle.std.specs.Prelude.{◌≡◌, ◌<◌, IfOk, IfSome, count_by, length, map};
ghost use Rattle.cat_model.specs.RowSets.{both, has_row, joined};
ghost use Rattle.cat_model.specs.View.{selected};
ghost use Rattle.cat_query.specs.View.{query_of};
ghost use Rattle.cat_search.specs.Rows.{leaf_hits};
ghost use Rattle.cat_views.specs.cat_segment.Ranges.{lies_between};

use crate::ranges::count_live;
use cat_columns::RowSet;
use cat_query::{Query, is_at_least, is_at_most};
use cat_views::Leaf;
use cat_views::cat_segment::{Column, Numbers};
use std::alloc::{AllocError, Global};
use std::marker::Model;

/// The live rows of a leaf whose numbers in a field lie in a range: the number of a row tells whether the row is one of them
/// (Lucene: a `TwoPhaseIterator` over the field's `SortedNumericDocValues`).
///
/// Contracts see them as one truth value for each row.
#[derive(Drop)]
pub(crate) struct InRange<'a> {
    numbers: &'a Numbers,
    low: Option<i64>,
    high: Option<i64>,
    leaf: &'a Leaf,
}

impl<'a> Model for InRange<'a> {
    ghost use Rattle.std.specs.Prelude.{◌≡◌, Bool, List, length, map};
    ghost use Rattle.cat_model.specs.RowSets.{both, joined};
    ghost use Rattle.cat_views.specs.cat_segment.Ranges.{lies_between};

    ghost Value = { List Bool };

    ghost view = { λ r. joined both (map (lies_between r.low r.high) r.numbers.now) r.leaf.now.live };

    ghost invariant = { λ r. length r.numbers.now ≡ length r.leaf.now.live };
}

/// Whether it is a number between the two, both included, where an absent end is open.
fn lies_between(number: Option<i64>, low: Option<i64>, high: Option<i64>) -> bool
    ensures { result ≡ lies_between low high number }
{
    match number {
        Some(number) => is_at_least(low, number) && is_at_most(high, number),
        None => false,
    }
}

/// The live rows of the leaf whose numbers in the column lie between the two.
fn in_column<'a>(
    numbers: &'a Numbers,
    low: Option<i64>,
    high: Option<i64>,
    leaf: &'a Leaf,
) -> InRange<'a>
    requires { length numbers.now ≡ length leaf.now.live }
    ensures { result ≡ joined both (map (lies_between low high) numbers.now) leaf.now.live }
{
    InRange {
        numbers,
        low,
        high,
        leaf,
    }
}

impl<'a> InRange<'a> {
    /// The live rows of the leaf that the query matches, where it is one range of the numbers of a field that the segment has.
    pub(crate) fn of(query: &Query, leaf: &'a Leaf) -> Option<InRange<'a>>
        ensures ok { IfSome result (λ h. selected h leaf.now.segment.rows ≡ leaf_hits leaf.now (query_of query.now)) }
        ensures long { IfSome result (λ h. length h ≡ length leaf.now.segment.rows) }
    {
        let range = query.number_range()?;
        let Column::Number(numbers) = leaf.segment().column(range.field)? else {
            return None;
        };
        // Its contract says that there are as many truth values as rows.
        let _live = leaf.live();
        Some(in_column(numbers, range.low, range.high, leaf))
    }

    /// How many rows these are.
    pub(crate) fn count(&self) -> usize
        ensures { result ≡ count_by (λ b. b) self.now }
    {
        count_live(self.leaf, self.numbers.rising_between(self.low, self.high))
    }

    /// Whether the row is one of them.
    pub(crate) fn contains(&self, row: usize) -> bool
        requires { row < length self.now }
        ensures { result ≡ has_row self.now row }
    {
        let number = self.numbers.values().value(row);
        lies_between(number, self.low, self.high) && self.leaf.live().is_live(row)
    }

    /// These rows as a set.
    pub(crate) fn into_rows(self, alloc: Global) -> Result<RowSet, AllocError>
        ensures ok { IfOk result (λ s. s ≡ self.entry) }
    {
        let mut rows = self.numbers.between(alloc, self.low, self.high)?;
        rows.and_with(self.leaf.live().rows());
        Ok(rows)
    }
}
