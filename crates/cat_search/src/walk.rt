//! Hits that are offered to a page in its own order.
ghost use Rattle.std.specs.Prelude.{◌≡◌, ◌<◌, ◌≤◌, ◌+◌, ◌∷◌, [], false, filter, length, map, take, true, All, IfOk, OnOk, IsTrue};
ghost use Rattle.cat_views.specs.cat_segment.RowParts.{parts_of, rows_of_parts, rows_of_parts_before};
ghost use Rattle.cat_model.specs.RowSets.{has_row};
ghost use Rattle.cat_search.specs.Bars.{IsFullBy};
ghost use Rattle.cat_search.specs.Candidates.{TakesIn, mark_standing, standing_of};
ghost use Rattle.cat_search.specs.Hits.{hit_rows};
ghost use Rattle.cat_search.specs.Pages.{behind, beyond};
ghost use Rattle.cat_search.specs.Steps.{IsBehindMisses};
ghost use Rattle.cat_search.specs.Walks.{IsOrderedRun, IsRestOfWalk, is_passed, standing_at};

use crate::best::Best;
use crate::hits::Hits;
use crate::leaf_ranks::LeafRanks;
use crate::offers::{is_beyond, offer_hit};
use crate::standings::Candidate;
use crate::steps::Steps;
use cat_views::cat_segment::RowParts;
use std::alloc::AllocError;

/// By how many times more steps than are expected a walk may take.
const MOST_STEPS: usize = 8;

/// How many rows a walk may pass before its first hit, for each of the hits. To pass one takes a fifth of the time of a look at
/// a hit.
const MOST_MISSES: usize = 2;

/// How many hits a walk in the order of a page has to meet, and in how many steps, to be worth it.
#[derive(Clone, Copy)]
pub(crate) struct Reach {
    hits: usize,
    steps: usize,
    // How many rows may be passed until the first hit is met.
    misses: usize,
}

impl Reach {
    /// For so many hits among the rows, of which so many are wanted, where to test a row takes as long as a look at `cost` hits.
    /// If the hits lie anywhere in the order, it takes `rows / hits` steps to meet one; where these steps take longer than all
    /// hits do, a look at each hit takes less time, and so it does where none is wanted.
    pub(crate) fn of(hits: usize, rows: usize, wanted: usize, cost: usize) -> Option<Reach> {
        if wanted == 0 {
            return None;
        }
        let all = wanted.saturating_mul(rows);
        if all.saturating_mul(cost) > hits.saturating_mul(hits) {
            return None;
        }
        let steps = all.saturating_mul(MOST_STEPS).checked_div(hits)?;
        // Where each row is a hit, nothing has to be looked at to know that.
        let ahead = if hits == rows { 0 } else { wanted };
        Some(Reach {
            hits: ahead,
            steps,
            misses: hits.saturating_mul(MOST_MISSES),
        })
    }

    /// The steps behind those at the head that meet no hit, where the hits are a set: those of a range of the sort's own field
    /// among other clauses may all stand far behind.
    pub(crate) fn behind_misses<'a>(&self, steps: Steps<'a>, hits: &Hits<'_>) -> Steps<'a>
        requires { All (λ row. row < length (hit_rows hits.now)) steps }
        ensures { IsBehindMisses (hit_rows hits.now) steps.entry result }
    {
        match hits {
            Hits::Matched(set) => steps.behind_misses(set, self.misses),
            Hits::Live(_) | Hits::InRange(_) | Hits::Listed(_) => steps,
        }
    }

    /// Whether the first steps of the walk meet these hits, or end it. Hits may lie far behind, as those of a range of greater
    /// numbers do.
    pub(crate) fn covers(&self, steps: Steps<'_>, hits: &Hits<'_>) -> bool
        requires { All (λ row. row < length (hit_rows hits.now)) steps }
    {
        let mut left = self.hits;
        let mut more = self.steps;
        for row in steps {
            if left == 0 {
                return true;
            }
            if more == 0 {
                return false;
            }
            more -= 1;
            if hits.contains(row) {
                left -= 1;
            }
        }
        true
    }
}

/// Whether there is this row, and the mark doesn't come before it.
fn is_passed<'a>(ranks: &LeafRanks<'a>, row: u32, mark: &Option<Candidate<'a>>) -> bool
    ensures { result ≡ is_passed (mark_standing mark.now) ranks.now row }
{
    let row = row as usize;
    row < ranks.len() && !is_beyond(mark, &ranks.at(row))
}

/// How many of these rows, which stand in the order of the page, the mark doesn't come before.
fn rows_passed<'a>(ranks: &LeafRanks<'a>, rows: &[u32], mark: &Option<Candidate<'a>>) -> usize
    requires { IsOrderedRun ranks.now rows.now }
    ensures bound { result ≤ length rows.now }
    ensures passed { All (λ row. beyond (mark_standing mark.now) (standing_at ranks.now row) ≡ false) (take result rows.now) }
{
    if mark.is_none() {
        return 0;
    }
    rows.partition_point(|row| is_passed(ranks, *row, mark))
}

/// Whether the last row of the parts up to this index is known, and the mark doesn't come before it: then it comes before none
/// of their rows.
fn is_passed_through<'a>(
    ranks: &LeafRanks<'a>,
    walk: RowParts<'a>,
    index: usize,
    mark: &Option<Candidate<'a>>,
) -> bool
    requires run { IsOrderedRun ranks.now (rows_of_parts walk) }
    requires part { index < length (parts_of walk) }
    ensures { IsTrue result → All (λ row. beyond (mark_standing mark.now) (standing_at ranks.now row) ≡ false)
        (rows_of_parts_before walk.entry (index + 1)) }
{
    match walk.last_through(index) {
        Some(row) => is_passed(ranks, row, mark),
        None => false,
    }
}

/// How many parts at the head of the walk have no row that the mark comes before.
fn parts_passed<'a>(
    ranks: &LeafRanks<'a>,
    walk: RowParts<'a>,
    mark: &Option<Candidate<'a>>,
) -> usize
    requires { IsOrderedRun ranks.now (rows_of_parts walk) }
    ensures bound { result ≤ length (parts_of walk.entry) }
    ensures passed { All (λ row. beyond (mark_standing mark.now) (standing_at ranks.now row) ≡ false)
        (rows_of_parts_before walk.entry result) }
{
    let mut low = 0;
    let mut high = walk.len();
    while low < high {
        let middle = low + (high - low) / 2;
        if is_passed_through(ranks, walk, middle, mark) {
            low = middle + 1;
        } else {
            high = middle;
        }
    }
    low
}

/// The rows from this part on, but for those at the head of the part that the mark doesn't come before.
fn steps_from<'a>(
    ranks: &LeafRanks<'a>,
    walk: RowParts<'a>,
    index: usize,
    mark: &Option<Candidate<'a>>,
) -> Steps<'a>
    requires run { IsOrderedRun ranks.now (rows_of_parts walk) }
    requires part { index < length (parts_of walk) }
    requires passed { All (λ row. beyond (mark_standing mark.now) (standing_at ranks.now row) ≡ false) (rows_of_parts_before walk index) }
    ensures { IsRestOfWalk (mark_standing mark.now) ranks.now (rows_of_parts walk.entry) result }
{
    let part = walk.part(index);
    let (_, left) = part.split_at(rows_passed(ranks, part, mark));
    // Its contract says that the index behind the last part's fits too.
    let _parts = walk.len();
    Steps::behind(walk, index + 1, left)
}

/// The rows of the parts, which stand in the order of the page, but for those at their head that the mark doesn't come before
/// (Lucene: the rows that `LeafFieldComparator.setTopValue` has a collector leave out). Two binary searches find them.
#[inline(always)]
pub(crate) fn steps_behind<'a>(
    ranks: &LeafRanks<'a>,
    walk: RowParts<'a>,
    mark: &Option<Candidate<'a>>,
) -> Steps<'a>
    requires { IsOrderedRun ranks.now (rows_of_parts walk) }
    ensures { IsRestOfWalk (mark_standing mark.now) ranks.now (rows_of_parts walk.entry) result }
{
    if mark.is_none() {
        return Steps::of(walk);
    }
    let index = parts_passed(ranks, walk, mark);
    if index == walk.len() {
        return Steps::behind(walk, index, &[]);
    }
    steps_from(ranks, walk, index, mark)
}

/// Whether the page is full, and leaves the hit out.
fn is_left_out<'a>(best: &Best<Candidate<'a>>, candidate: &Candidate<'a>) -> bool
    ensures { IsTrue result → IsFullBy best.now (standing_of candidate.now) }
{
    match best.last_if_full() {
        Some(last) => candidate.cmp(last).is_ge(),
        None => false,
    }
}

/// Offers the row to the page, if it is a hit and the mark comes before it; whether a walk goes on behind it, which it doesn't
/// behind a hit that a full page leaves out.
#[inline(always)]
fn offer_step<'a>(
    best: &mut Best<Candidate<'a>>,
    ranks: &LeafRanks<'a>,
    hits: &Hits<'_>,
    row: usize,
    mark: &Option<Candidate<'a>>,
) -> Result<bool, AllocError>
    requires long { length (hit_rows hits.now) ≡ length ranks.now }
    requires within { row < length ranks.now }
    ensures limit { best.new.limit ≡ best.old.limit }
    ensures goes { IfOk result (λ goes. goes ≡ true → TakesIn best.old best.new (behind (mark_standing mark.now)
        (map (standing_at ranks.now) (filter (has_row (hit_rows hits.now)) (row ∷ []))))) }
    ensures ends { IfOk result (λ goes. goes ≡ false → IsFullBy best.new (standing_at ranks.now row) × TakesIn best.old best.new []) }
{
    if !hits.contains(row) {
        return Ok(true);
    }
    let candidate = ranks.at(row);
    best.close()?;
    if is_left_out(best, &candidate) {
        return Ok(false);
    }
    offer_hit(best, candidate, mark)?;
    Ok(true)
}

/// Offers the hits among these rows to the page, as far as the mark comes before them. The rows stand in the order in which a
/// page shows them, so it ends at the first hit that a full page leaves out, and looks at no row behind it.
pub(crate) fn offer_walk<'a>(
    best: &mut Best<Candidate<'a>>,
    ranks: &LeafRanks<'a>,
    walk: Steps<'_>,
    hits: &Hits<'_>,
    mark: &Option<Candidate<'a>>,
) -> Result<(), AllocError>
    requires long { length (hit_rows hits.now) ≡ length ranks.now }
    requires run { IsOrderedRun ranks.now walk }
    ensures limit { best.new.limit ≡ best.old.limit }
    ensures best { OnOk result (TakesIn best.old best.new (behind (mark_standing mark.now)
        (map (standing_at ranks.now) (filter (has_row (hit_rows hits.now)) walk.entry)))) }
{
    for row in walk {
        let goes_on = offer_step(best, ranks, hits, row, mark)?;
        if !goes_on {
            return Ok(());
        }
    }
    Ok(())
}
