//! Pages of a query that is one range of numbers, in the order of its field: its rows stand side by side in that order, so no
//! set of them is made.
ghost use Rattle.std.specs.Prelude.{◌≡◌, ◌<◌, All, IfSome, IsPermutation, IsTrue, List, OnOk, count_by, filter, length, map};
ghost use Rattle.cat_model.specs.RowSets.{has_row};
ghost use Rattle.cat_model.specs.View.{Row};
ghost use Rattle.cat_query.specs.View.{query_of};
ghost use Rattle.cat_views.specs.cat_segment.RowParts.{rows_of_parts};
ghost use Rattle.cat_search.specs.Candidates.{TakesIn, mark_standing};
ghost use Rattle.cat_search.specs.Hits.{hit_rows};
ghost use Rattle.cat_search.specs.Pages.{behind};
ghost use Rattle.cat_search.specs.Rows.{row_standing};
ghost use Rattle.cat_search.specs.Sorts.{GoesBy};
ghost use Rattle.cat_search.specs.Walks.{AreMatchedRows, IsOrderedRun, standing_at};

use crate::best::Best;
use crate::hits::Hits;
use crate::leaf_ranks::{LeafRanks, RangeRows};
use crate::sort::Order;
use crate::standings::Candidate;
use crate::walk::{offer_walk, steps_behind};
use cat_columns::RowSet;
use cat_query::Query;
use cat_views::Leaf;
use cat_views::cat_segment::RowParts;
use std::alloc::AllocError;

/// Whether the order goes by the field of this name.
fn goes_by(order: Order, name: &str) -> bool
    ensures { IsTrue result → GoesBy order.entry name.now }
{
    match order {
        Order::Added => false,
        Order::Rising(field) | Order::Falling(field) => field.name == name,
    }
}

/// The rows that the query matches, live or dead, where it is one range of the numbers of the field that the page goes by.
pub(crate) fn rows_in_order<'a>(
    query: &Query,
    ranks: &LeafRanks<'a>,
    order: Order,
) -> Option<RangeRows<'a>>
    ensures walk { IfSome result (λ range. (rs : List Row) → ranks.now ≡ map (row_standing order.entry) rs
        → AreMatchedRows (query_of query.now) rs ranks.now (rows_of_parts range.walk)) }
    ensures rows { IfSome result (λ range. IsPermutation (rows_of_parts range.walk) range.rows.now) }
{
    let range = query.number_range()?;
    if !goes_by(order, range.field) {
        return None;
    }
    ranks.range(range.low, range.high)
}

/// How many of the rows are in the set.
fn count_among(set: &RowSet, rows: &[u32]) -> usize
    requires { All (λ row. row < length set.now) rows.now }
    ensures { result ≡ count_by (has_row set.now) rows.now }
{
    let mut count = 0;
    for row in rows {
        if set.contains(*row as usize) {
            count += 1;
        }
    }
    count
}

/// How many of the rows are live. They are looked at only where some row of the leaf is dead.
pub(crate) fn count_live(leaf: &Leaf, rows: &[u32]) -> usize
    requires { All (λ row. row < length leaf.now.live) rows.now }
    ensures { result ≡ count_by (has_row leaf.now.live) rows.now }
{
    let live = leaf.live().rows();
    if leaf.live_count() == live.len() {
        return rows.len();
    }
    count_among(live, rows)
}

/// Offers the live ones of the rows of these parts, which stand in the order of the page, as far as the mark comes before them.
pub(crate) fn offer_range<'a>(
    best: &mut Best<Candidate<'a>>,
    ranks: &LeafRanks<'a>,
    range: RowParts<'a>,
    live: &Hits<'_>,
    mark: &Option<Candidate<'a>>,
) -> Result<(), AllocError>
    requires long { length (hit_rows live.now) ≡ length ranks.now }
    requires run { IsOrderedRun ranks.now (rows_of_parts range) }
    ensures limit { best.new.limit ≡ best.old.limit }
    ensures best { OnOk result (TakesIn best.old best.new (behind (mark_standing mark.now)
        (map (standing_at ranks.now) (filter (has_row (hit_rows live.now)) (rows_of_parts range.entry))))) }
{
    let rest = steps_behind(ranks, range, mark);
    offer_walk(best, ranks, rest, live, mark)
}
