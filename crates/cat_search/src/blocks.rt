//! Hits that are offered to a page by blocks of 64 rows: those that the page keeps out by their numbers are told 64 at a time.
ghost use Rattle.std.specs.Prelude.{◌≡◌, ◌<◌, ◌≤◌, ◌+◌, ◌*◌, ℕ, false, true, filter, length, map, None, slice_index_or, OnOk};
ghost use Rattle.std.specs.List.{range_with_len};
ghost use Rattle.cat_model.specs.Page.{Key};
ghost use Rattle.cat_model.specs.RowSets.{has_row};
ghost use Rattle.cat_model.specs.View.{selected};
ghost use Rattle.cat_search.specs.Bars.{HaveRanks, IsBarOf, lets_in};
ghost use Rattle.cat_search.specs.Blocks.{has_bit};
ghost use Rattle.cat_search.specs.Candidates.{TakesIn, mark_standing};
ghost use Rattle.cat_search.specs.Pages.{behind};
ghost use Rattle.cat_search.specs.Walks.{standing_at};

use crate::best::Best;
use crate::leaf_ranks::LeafRanks;
use crate::number_bar::NumberBar;
use crate::offers::offer_hit;
use crate::sort::Order;
use crate::standings::Candidate;
use cat_columns::{NumberColumn, RowSet};
use std::alloc::AllocError;

/// How many of 64 rows have to be hits for a test of all 64 numbers to be worth it. It takes as long as looks at 45 hits do: some
/// 10 instructions a row, hit or not, where a look takes some 22, of which the processor does more at once.
const LEAST_HITS: usize = 48;

/// Whether so many hits among the rows are enough for tests of 64 rows.
pub(crate) fn are_many(hits: usize, rows: usize) -> bool {
    hits.saturating_mul(64) >= rows.saturating_mul(LEAST_HITS)
}

/// How many bits are 0 below the lowest one that is 1, and those above it.
fn first_bit(bits: u64) -> (usize, u64)
    requires { 0 < bits }
    ensures below { (i : ℕ) → i < result.0 → has_bit bits i ≡ false }
    ensures here { has_bit bits result.0 ≡ true }
    ensures above { (i : ℕ) → has_bit result.1 i ≡ has_bit bits (result.0 + 1 + i) }
    ensures within { result.0 < 64 }
{
    let zeros = bits.trailing_zeros() as usize;
    (zeros, (bits >> zeros) >> 1)
}

/// Offers the row to the page, if it is a hit that the bar lets in and the mark comes before it. The bar is that of the page
/// before and after.
fn offer_row<'a>(
    best: &mut Best<Candidate<'a>>,
    ranks: &LeafRanks<'a>,
    numbers: &NumberColumn,
    order: Order<'a>,
    bar: &mut NumberBar,
    hits: &RowSet,
    row: usize,
    mark: &Option<Candidate<'a>>,
) -> Result<(), AllocError>
    requires long { length hits.now ≡ length ranks.now }
    requires ranked { HaveRanks Key.number order numbers.now ranks.now }
    requires bar { IsBarOf order (mark_standing mark.now) best.old bar.old }
    ensures limit { best.new.limit ≡ best.old.limit }
    ensures bar { OnOk result (IsBarOf order.entry (mark_standing mark.now) best.new bar.new) }
    ensures best { OnOk result (TakesIn best.old best.new (behind (mark_standing mark.now)
        (map (standing_at ranks.now) (filter (has_row hits.now) (range_with_len row 1))))) }
{
    if row >= hits.len() {
        return Ok(());
    }
    if !hits.contains(row) {
        return Ok(());
    }
    if !bar.lets_in(numbers.value(row)) {
        return Ok(());
    }
    offer_hit(best, ranks.at(row), mark)?;
    *bar = NumberBar::of(best, order, mark);
    Ok(())
}

/// Offers the hits among 64 rows to the page, as far as the mark comes before them, with no look at those that the page, as it
/// stands before them, keeps out by their numbers.
fn offer_block<'a>(
    best: &mut Best<Candidate<'a>>,
    ranks: &LeafRanks<'a>,
    numbers: &NumberColumn,
    order: Order<'a>,
    hits: &RowSet,
    block: usize,
    mark: &Option<Candidate<'a>>,
) -> Result<(), AllocError>
    requires long { length hits.now ≡ length ranks.now }
    requires within { 64 * block < length ranks.now }
    requires ranked { HaveRanks Key.number order numbers.now ranks.now }
    ensures limit { best.new.limit ≡ best.old.limit }
    ensures best { OnOk result (TakesIn best.old best.new (behind (mark_standing mark.now)
        (map (standing_at ranks.now) (filter (has_row hits.now) (range_with_len (64 * block) 64))))) }
{
    // Its contract says that the rows are fewer than 2^32.
    let _rows = hits.len();
    let mut bar = NumberBar::of(best, order, mark);
    let asked = bar.lets_in_of(numbers, block);
    let mut left = asked;
    let mut passed = 0;
    while left != 0 {
        let (zeros, rest) = first_bit(left);
        let row = 64 * block + passed + zeros;
        offer_row(best, ranks, numbers, order, &mut bar, hits, row, mark)?;
        passed += zeros + 1;
        left = rest;
    }
    Ok(())
}

/// Offers the hits of a segment to the page, as far as the mark comes before them, by blocks of 64 rows.
pub(crate) fn offer_blocks<'a>(
    best: &mut Best<Candidate<'a>>,
    ranks: &LeafRanks<'a>,
    numbers: &NumberColumn,
    order: Order<'a>,
    hits: &RowSet,
    mark: &Option<Candidate<'a>>,
) -> Result<(), AllocError>
    requires long { length hits.now ≡ length ranks.now }
    requires ranked { HaveRanks Key.number order numbers.now ranks.now }
    ensures limit { best.new.limit ≡ best.old.limit }
    ensures best { OnOk result (TakesIn best.old best.new (behind (mark_standing mark.now) (selected hits.now ranks.now))) }
{
    for block in 0..(hits.len() + 63) / 64 {
        offer_block(best, ranks, numbers, order, hits, block, mark)?;
    }
    Ok(())
}
