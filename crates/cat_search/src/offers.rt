//! Hits that are offered to a page.
ghost use Rattle.std.specs.Prelude.{◌≡◌, ◌<◌, All, filter, length, map, OnOk};
ghost use Rattle.cat_model.specs.RowSets.{has_row};
ghost use Rattle.cat_model.specs.View.{selected};
ghost use Rattle.cat_search.specs.Bars.{HaveRanksOf};
ghost use Rattle.cat_search.specs.Hits.{hit_rows};
ghost use Rattle.cat_search.specs.Pages.{behind, beyond, if_behind};
ghost use Rattle.cat_search.specs.Candidates.{TakesIn, mark_standing, standing_of};
ghost use Rattle.cat_search.specs.Walks.{standing_at};

use crate::bar::Bar;
use crate::best::Best;
use crate::blocks::{are_many, offer_blocks};
use crate::hits::Hits;
use crate::leaf_ranks::LeafRanks;
use crate::listed::Listed;
use crate::number_bar::NumberRows;
use crate::ordinal_bar::KeywordRows;
use crate::standings::Candidate;
use crate::walk::{Reach, offer_walk, steps_behind};
use cat_columns::RowSet;
use cat_views::cat_segment::Live;
use std::alloc::{AllocError, Global};

/// Whether the mark comes before the hit; so it is where there is no mark.
pub(crate) fn is_beyond(mark: &Option<Candidate>, candidate: &Candidate) -> bool
    ensures { result ≡ beyond (mark_standing mark.now) (standing_of candidate.now) }
{
    match mark {
        None => true,
        Some(mark) => mark.cmp(candidate).is_lt(),
    }
}

/// Offers the hit to the page, if the mark comes before it.
pub(crate) fn offer_hit<'a>(
    best: &mut Best<Candidate<'a>>,
    candidate: Candidate<'a>,
    mark: &Option<Candidate<'a>>,
) -> Result<(), AllocError>
    ensures limit { best.new.limit ≡ best.old.limit }
    ensures best { OnOk result (TakesIn best.old best.new (if_behind (mark_standing mark.now) (standing_of candidate.entry))) }
{
    if is_beyond(mark, &candidate) {
        best.offer(candidate)?;
    }
    Ok(())
}

/// Offers each hit of a segment to the page, as far as the mark comes before it.
fn offer_each<'a>(
    best: &mut Best<Candidate<'a>>,
    ranks: &LeafRanks<'a>,
    hits: &RowSet,
    mark: &Option<Candidate<'a>>,
) -> Result<(), AllocError>
    requires { length hits.now ≡ length ranks.now }
    ensures limit { best.new.limit ≡ best.old.limit }
    ensures best { OnOk result (TakesIn best.old best.new (behind (mark_standing mark.now) (selected hits.now ranks.now))) }
{
    for row in hits.iter() {
        offer_hit(best, ranks.at(row), mark)?;
    }
    Ok(())
}

/// Offers the hits of a segment to the page, as far as the mark comes before them, with no look at those that the bar
/// keeps out.
fn offer_by<'a, B: Bar<'a>>(
    best: &mut Best<Candidate<'a>>,
    ranks: &LeafRanks<'a>,
    bar: &mut B,
    hits: &RowSet,
    mark: &Option<Candidate<'a>>,
) -> Result<(), AllocError>
    requires sound { B.is_sound bar.old }
    requires long { length hits.now ≡ length ranks.now }
    requires ranked { HaveRanksOf (B.order bar.old) (B.keys bar.old) ranks.now }
    ensures limit { best.new.limit ≡ best.old.limit }
    ensures best { OnOk result (TakesIn best.old best.new (behind (mark_standing mark.now) (selected hits.now ranks.now))) }
{
    bar.renew(best, mark);
    for row in hits.iter() {
        if bar.lets_in(row) {
            offer_hit(best, ranks.at(row), mark)?;
            bar.renew(best, mark);
        }
    }
    Ok(())
}

/// Offers the hits of a segment, so many, to the page, as far as the mark comes before them, with a look at each of them, or at
/// 64 numbers at a time.
fn offer_rows<'a>(
    best: &mut Best<Candidate<'a>>,
    ranks: &LeafRanks<'a>,
    hits: &RowSet,
    found: usize,
    mark: &Option<Candidate<'a>>,
) -> Result<(), AllocError>
    requires { length hits.now ≡ length ranks.now }
    ensures limit { best.new.limit ≡ best.old.limit }
    ensures best { OnOk result (TakesIn best.old best.new (behind (mark_standing mark.now) (selected hits.now ranks.now))) }
{
    if let Some((numbers, order)) = ranks.numbers() {
        if are_many(found, hits.len()) {
            return offer_blocks(best, ranks, numbers, order, hits, mark);
        }
        return offer_by(
            best,
            ranks,
            &mut NumberRows::open(numbers, order),
            hits,
            mark,
        );
    }
    if let Some((keywords, order)) = ranks.keywords() {
        return offer_by(
            best,
            ranks,
            &mut KeywordRows::open(keywords, order),
            hits,
            mark,
        );
    }
    offer_each(best, ranks, hits, mark)
}

/// Offers the live ones of these rows to the page, as far as the mark comes before them, with no look at those that the bar
/// keeps out.
fn offer_listed_by<'a, B: Bar<'a>>(
    best: &mut Best<Candidate<'a>>,
    ranks: &LeafRanks<'a>,
    bar: &mut B,
    rows: &[u32],
    live: &Live,
    mark: &Option<Candidate<'a>>,
) -> Result<(), AllocError>
    requires sound { B.is_sound bar.old }
    requires long { length live.now ≡ length ranks.now }
    requires within { All (λ row. row < length ranks.now) rows.now }
    requires ranked { HaveRanksOf (B.order bar.old) (B.keys bar.old) ranks.now }
    ensures limit { best.new.limit ≡ best.old.limit }
    ensures best { OnOk result (TakesIn best.old best.new (behind (mark_standing mark.now)
        (map (standing_at ranks.now) (filter (has_row live.now) rows.now)))) }
{
    bar.renew(best, mark);
    for listed in rows {
        let row = *listed as usize;
        if live.is_live(row) && bar.lets_in(row) {
            offer_hit(best, ranks.at(row), mark)?;
            bar.renew(best, mark);
        }
    }
    Ok(())
}

/// Offers the hits of a segment to the page, as far as the mark comes before them, with a look at each row that is listed. No
/// set of them is made where the segment has the sort's field.
fn offer_listed<'a>(
    alloc: Global,
    best: &mut Best<Candidate<'a>>,
    ranks: &LeafRanks<'a>,
    hits: &Listed<'_>,
    mark: &Option<Candidate<'a>>,
) -> Result<(), AllocError>
    requires { length hits.now ≡ length ranks.now }
    ensures limit { best.new.limit ≡ best.old.limit }
    ensures best { OnOk result (TakesIn best.old best.new (behind (mark_standing mark.now) (selected hits.now ranks.now))) }
{
    let (rows, live) = hits.parts();
    if let Some((numbers, order)) = ranks.numbers() {
        let mut bar = NumberRows::open(numbers, order);
        return offer_listed_by(best, ranks, &mut bar, rows, live, mark);
    }
    if let Some((keywords, order)) = ranks.keywords() {
        let mut bar = KeywordRows::open(keywords, order);
        return offer_listed_by(best, ranks, &mut bar, rows, live, mark);
    }
    let set = hits.to_set(alloc)?;
    offer_each(best, ranks, &set, mark)
}

/// Offers the hits of a segment, so many, to the page, as far as the mark comes before them: in the order of the page as far as it
/// takes them, where the reach covers that, and else with a look at each hit.
pub(crate) fn offer_hits<'a>(
    alloc: Global,
    best: &mut Best<Candidate<'a>>,
    ranks: &LeafRanks<'a>,
    hits: Hits<'_>,
    found: usize,
    mark: &Option<Candidate<'a>>,
    reach: Option<Reach>,
) -> Result<(), AllocError>
    requires { length (hit_rows hits) ≡ length ranks.now }
    ensures limit { best.new.limit ≡ best.old.limit }
    ensures best { OnOk result (TakesIn best.old best.new (behind (mark_standing mark.now) (selected (hit_rows hits.entry) ranks.now))) }
{
    if let Some(reach) = reach
        && let Some(walk) = ranks.walk()
    {
        let rest = steps_behind(ranks, walk, mark);
        let left = reach.behind_misses(rest, &hits);
        if reach.covers(left.again(), &hits) {
            return offer_walk(best, ranks, left, &hits, mark);
        }
    }
    if let Hits::Live(leaf) = &hits {
        return offer_rows(best, ranks, leaf.live().rows(), found, mark);
    }
    if let Hits::Listed(listed) = &hits {
        return offer_listed(alloc, best, ranks, listed, mark);
    }
    let rows = hits.into_rows(alloc)?;
    offer_rows(best, ranks, &rows, found, mark)
}
