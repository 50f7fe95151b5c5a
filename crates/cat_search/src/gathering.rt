//! The pass over the segments of a view.
ghost use Rattle.std.specs.Prelude.{◌≡◌, ◌<◌, ◌≤◌, ◌+◌, ◌++◌, All, Bool, filter, false, List, drop, length, replicate, take, map, option_map, AllPairs, IfOk, IfSome, MatchOption, OnOk};
ghost use Rattle.std.specs.List.{flat_map};
ghost use Rattle.cat_model.specs.RowSets.{has_row, joined, both};
ghost use Rattle.cat_model.specs.View.{live_rows, row_matches, selected};
ghost use Rattle.cat_query.specs.View.{query_of};
ghost use Rattle.cat_search.specs.declared.sort.Order.TheVariants.{Added};
ghost use Rattle.cat_search.specs.Asks.{first_shown, first_wanted};
ghost use Rattle.cat_search.specs.Candidates.{TakesIn, mark_standing, standing_of};
ghost use Rattle.cat_search.specs.Hits.{hit_rows};
ghost use Rattle.cat_search.specs.Pages.{behind};
ghost use Rattle.cat_search.specs.Rows.{hits_in, leaf_hits, row_standing};
ghost use Rattle.cat_views.specs.Sets.{AreSets, set_at};
ghost use Rattle.cat_search.specs.Standings.{HitStanding, entry_shown};
ghost use Rattle.cat_search.specs.Walks.{standing_at};

use crate::ask::Wanted;
use crate::best::Best;
use crate::entries::{Entry, entries_of, push_entry};
use crate::hits::Hits;
use crate::in_range::InRange;
use crate::leaf_ranks::LeafRanks;
use crate::listed::Listed;
use crate::offers::{is_beyond, offer_hits};
use crate::ranges::{count_live, offer_range, rows_in_order};
use crate::sort::Order;
use crate::standings::{Candidate, Rank};
use crate::walk::Reach;
use cat_columns::RowSet;
use cat_query::{DocSet, Query};
use cat_views::Leaf;
use cat_views::cat_segment::{Live, Segment};
use std::alloc::{AllocError, Global};
use std::sync::Arc;

/// The set that is at hand for the segment of this index, if one is.
pub(crate) fn set_at(sets: &[Option<Arc<DocSet>>], index: usize) -> Option<&DocSet>
    ensures { option_map (λ s. s.now) result ≡ set_at sets.now index }
{
    match sets.get(index) {
        Some(Some(set)) => Some(set),
        Some(None) => None,
        None => None,
    }
}

/// Takes the rows out that are deleted.
fn keep_live(rows: &mut RowSet, live: &Live)
    requires { length rows.old ≡ length live.now }
    ensures { rows.new ≡ joined both rows.old live.now }
{
    rows.and_with(live.rows());
}

/// The rows of the segment that the query matches, live or dead: those of the set that is at hand, where one is.
fn rows_of(
    alloc: Global,
    query: &Query,
    set: Option<&DocSet>,
    segment: &Segment,
) -> Result<RowSet, AllocError>
    requires { IfSome set (λ s. s.now ≡ map (row_matches (query_of query.now)) segment.now.rows) }
    ensures ok { IfOk result (λ s. s ≡ map (row_matches (query_of query.now)) segment.now.rows) }
{
    match set {
        Some(set) => set.rows().copy(),
        None => Ok(query.matches(alloc, segment)?.into_rows()),
    }
}

/// The live ones of the rows that the query matches, live or dead.
fn matched_rows(
    alloc: Global,
    query: &Query,
    set: Option<&DocSet>,
    leaf: &Leaf,
) -> Result<RowSet, AllocError>
    requires { IfSome set (λ s. s.now ≡ map (row_matches (query_of query.now)) leaf.now.segment.rows) }
    ensures ok { IfOk result (λ s. selected s leaf.now.segment.rows ≡ leaf_hits leaf.now (query_of query.now)) }
    ensures long { IfOk result (λ s. length s ≡ length leaf.now.segment.rows) }
{
    let mut hits = rows_of(alloc, query, set, leaf.segment())?;
    keep_live(&mut hits, leaf.live());
    Ok(hits)
}

/// The live rows of the leaf that the query matches (Lucene: `BulkScorer.score` with the leaf's `liveDocs`). Where it
/// matches everything they are all the live rows, of which no set is made, and none is where it is one range of numbers or one
/// word; where a set of the matching rows is at hand, no postings are looked at either.
pub(crate) fn hits_of<'a>(
    alloc: Global,
    query: &'a Query,
    set: Option<&DocSet>,
    leaf: &'a Leaf,
) -> Result<Hits<'a>, AllocError>
    requires { IfSome set (λ s. s.now ≡ map (row_matches (query_of query.now)) leaf.now.segment.rows) }
    ensures ok { IfOk result (λ h. selected (hit_rows h) leaf.now.segment.rows ≡ leaf_hits leaf.now (query_of query.now)) }
    ensures long { IfOk result (λ h. length (hit_rows h) ≡ length leaf.now.segment.rows) }
{
    if query.is_everything() {
        return Ok(Hits::live_in(leaf));
    }
    if set.is_none()
        && let Some(hits) = InRange::of(query, leaf)
    {
        return Ok(Hits::InRange(hits));
    }
    if set.is_none()
        && let Some(hits) = Listed::of(query, leaf)
    {
        return Ok(Hits::Listed(hits));
    }
    let rows = matched_rows(alloc, query, set, leaf)?;
    Ok(Hits::Matched(rows))
}

/// How many rows at the head of the segment stand before every page behind the mark, in order of addition.
fn rows_passed(segment: &Segment, mark: &Option<Candidate<'_>>) -> usize
    ensures bound { result ≤ length segment.now.rows }
    ensures passed { (hits : List Bool) → length hits ≡ length segment.now.rows
        → behind (mark_standing mark.now) (selected (replicate result false ++ drop result hits) (map (row_standing Added) segment.now.rows))
        ≡ behind (mark_standing mark.now) (selected hits (map (row_standing Added) segment.now.rows)) }
{
    // In order of addition no mark has a key.
    if let Some(mark) = mark
        && let Rank::Missing = mark.rank
    {
        return segment.rows_through(mark.number);
    }
    0
}

/// Shows the hits of a segment in their order, as far as the mark comes before them, until n are shown.
fn show_rows<'a>(
    alloc: Global,
    shown: &mut Vec<Entry>,
    n: usize,
    ranks: &LeafRanks<'a>,
    hits: &RowSet,
    mark: &Option<Candidate<'a>>,
) -> Result<(), AllocError>
    requires long { length hits.now ≡ length ranks.now }
    ensures shown { OnOk result ((standings : List HitStanding) → shown.old.items ≡ take n (map entry_shown standings)
        → shown.new.items ≡ take n (map entry_shown (standings ++ behind (mark_standing mark.now) (selected hits.now ranks.now)))) }
{
    for row in hits.iter() {
        if shown.len() >= n {
            return Ok(());
        }
        let candidate = ranks.at(row);
        if is_beyond(mark, &candidate) {
            push_entry(alloc, shown, &candidate)?;
        }
    }
    Ok(())
}

/// Shows the hits among the rows from this one on in their order, as far as the mark comes before them, until as many are shown
/// as are wanted.
fn show_tested<'a>(
    alloc: Global,
    shown: &mut Vec<Entry>,
    wanted: usize,
    ranks: &LeafRanks<'a>,
    hits: &Hits<'_>,
    from: usize,
    mark: &Option<Candidate<'a>>,
) -> Result<(), AllocError>
    requires long { length (hit_rows hits.now) ≡ length ranks.now }
    requires within { from ≤ length ranks.now }
    ensures shown { OnOk result ((standings : List HitStanding) → shown.old.items ≡ take wanted (map entry_shown standings)
        → shown.new.items ≡ take wanted (map entry_shown (standings
        ++ behind (mark_standing mark.now) (selected (replicate from false ++ drop from (hit_rows hits.now)) ranks.now)))) }
{
    for row in from..ranks.len() {
        if shown.len() >= wanted {
            return Ok(());
        }
        if hits.contains(row) {
            let candidate = ranks.at(row);
            if is_beyond(mark, &candidate) {
                push_entry(alloc, shown, &candidate)?;
            }
        }
    }
    Ok(())
}

/// Shows the live ones of these rows in their order, as far as the mark comes before them, until so many are shown.
fn show_listed<'a>(
    alloc: Global,
    shown: &mut Vec<Entry>,
    most: usize,
    ranks: &LeafRanks<'a>,
    rows: &[u32],
    live: &Live,
    mark: &Option<Candidate<'a>>,
) -> Result<(), AllocError>
    requires long { length live.now ≡ length ranks.now }
    requires within { All (λ row. row < length ranks.now) rows.now }
    ensures shown { OnOk result ((standings : List HitStanding) → shown.old.items ≡ take most (map entry_shown standings)
        → shown.new.items ≡ take most (map entry_shown (standings
        ++ behind (mark_standing mark.now) (map (standing_at ranks.now) (filter (has_row live.now) rows.now))))) }
{
    for listed in rows {
        if shown.len() >= most {
            return Ok(());
        }
        let row = *listed as usize;
        if live.is_live(row) {
            let candidate = ranks.at(row);
            if is_beyond(mark, &candidate) {
                push_entry(alloc, shown, &candidate)?;
            }
        }
    }
    Ok(())
}

/// Shows the hits of a segment from this row on in order of addition, as far as the mark comes before them, until as many are
/// shown as are wanted.
fn show_from(
    alloc: Global,
    shown: &mut Vec<Entry>,
    wanted: &Wanted<'_>,
    segment: &Segment,
    hits: Hits<'_>,
    found: usize,
    from: usize,
) -> Result<(), AllocError>
    requires long { length (hit_rows hits) ≡ length segment.now.rows }
    requires within { from ≤ length segment.now.rows }
    ensures shown { OnOk result ((standings : List HitStanding) → shown.old.items ≡ take wanted.now.count (map entry_shown standings)
        → shown.new.items ≡ take wanted.now.count (map entry_shown (standings
        ++ behind (mark_standing wanted.now.mark) (selected (replicate from false ++ drop from (hit_rows hits.entry)) (map (row_standing Added) segment.now.rows))))) }
{
    let ranks = LeafRanks::of(segment, Order::Added);
    if let Hits::Listed(listed) = &hits {
        let (rows, live) = listed.parts_from(from);
        return show_listed(alloc, shown, wanted.count, &ranks, rows, live, &wanted.mark);
    }
    if hits.are_met_sooner(found, segment.len(), wanted.count) {
        return show_tested(
            alloc,
            shown,
            wanted.count,
            &ranks,
            &hits,
            from,
            &wanted.mark,
        );
    }
    let mut left = hits.into_rows(alloc)?;
    left.remove_below(from);
    show_rows(alloc, shown, wanted.count, &ranks, &left, &wanted.mark)
}

/// Shows the hits of a segment in order of addition, as far as the mark comes before them, until as many are shown as are
/// wanted. The rows that earlier pages had are passed without a look at each, and a segment that has no others is left out.
fn show_behind(
    alloc: Global,
    shown: &mut Vec<Entry>,
    wanted: &Wanted<'_>,
    segment: &Segment,
    hits: Hits<'_>,
    found: usize,
) -> Result<(), AllocError>
    requires long { length (hit_rows hits) ≡ length segment.now.rows }
    ensures shown { OnOk result ((standings : List HitStanding) → shown.old.items ≡ take wanted.now.count (map entry_shown standings)
        → shown.new.items ≡ take wanted.now.count (map entry_shown (standings
        ++ behind (mark_standing wanted.now.mark) (selected (hit_rows hits.entry) (map (row_standing Added) segment.now.rows))))) }
{
    if shown.len() >= wanted.count {
        return Ok(());
    }
    let passed = rows_passed(segment, &wanted.mark);
    if passed == segment.len() {
        return Ok(());
    }
    show_from(alloc, shown, wanted, segment, hits, found, passed)
}

/// Shows the hits of a leaf in order of addition, as far as the mark comes before them, until as many are shown as are wanted;
/// how many hits the leaf has.
fn show_leaf(
    alloc: Global,
    shown: &mut Vec<Entry>,
    wanted: &Wanted<'_>,
    leaf: &Leaf,
    query: &Query,
    set: Option<&DocSet>,
) -> Result<usize, AllocError>
    requires { IfSome set (λ s. s.now ≡ map (row_matches (query_of query.now)) leaf.now.segment.rows) }
    ensures total { IfOk result (λ n. n ≡ length (leaf_hits leaf.now (query_of query.now))) }
    ensures shown { OnOk result ((standings : List HitStanding) → shown.old.items ≡ take wanted.now.count (map entry_shown standings)
        → shown.new.items ≡ take wanted.now.count (map entry_shown (standings
        ++ behind (mark_standing wanted.now.mark) (map (row_standing Added) (leaf_hits leaf.now (query_of query.now)))))) }
{
    let hits = hits_of(alloc, query, set, leaf)?;
    let found = hits.count();
    show_behind(alloc, shown, wanted, leaf.segment(), hits, found)?;
    Ok(found)
}

/// How many of the hits of a leaf are expected to come into a page of so many, where the leaves before it have so many hits, and
/// any hit stands anywhere in the order.
fn share_of(wanted: usize, found: usize, before: usize) -> usize {
    match wanted
        .saturating_mul(found)
        .checked_div(found.saturating_add(before))
    {
        Some(share) => wanted.min(share.saturating_add(1)),
        None => 0,
    }
}

/// Offers the hits of a leaf to the page, as far as the mark comes before them, from the set of those that the query matches;
/// how many hits the leaf has. The leaves before it have so many.
fn offer_matched<'a>(
    alloc: Global,
    best: &mut Best<Candidate<'a>>,
    leaf: &'a Leaf,
    query: &Query,
    set: Option<&DocSet>,
    wanted: &Wanted<'a>,
    before: usize,
) -> Result<usize, AllocError>
    requires { IfSome set (λ s. s.now ≡ map (row_matches (query_of query.now)) leaf.now.segment.rows) }
    ensures total { IfOk result (λ n. n ≡ length (leaf_hits leaf.now (query_of query.now))) }
    ensures limit { best.new.limit ≡ best.old.limit }
    ensures best { OnOk result (TakesIn best.old best.new (behind (mark_standing wanted.now.mark)
        (map (row_standing wanted.now.order) (leaf_hits leaf.now (query_of query.now))))) }
{
    let hits = hits_of(alloc, query, set, leaf)?;
    let total = hits.count();
    let ranks = LeafRanks::of(leaf.segment(), wanted.order);
    let taken = share_of(wanted.count, total, before);
    let reach = Reach::of(total, ranks.len(), taken, hits.test_cost());
    offer_hits(alloc, best, &ranks, hits, total, &wanted.mark, reach)?;
    Ok(total)
}

/// Offers the hits of a leaf to the page, as far as the mark comes before them, without a set of them: where the query is one
/// range of the numbers of the field that the page goes by. How many hits the leaf has; none where the query is no such range,
/// and nothing was offered.
fn offer_in_order<'a>(
    best: &mut Best<Candidate<'a>>,
    leaf: &'a Leaf,
    query: &Query,
    wanted: &Wanted<'a>,
) -> Result<Option<usize>, AllocError>
    ensures total { IfOk result (λ o. IfSome o (λ n. n ≡ length (leaf_hits leaf.now (query_of query.now)))) }
    ensures limit { best.new.limit ≡ best.old.limit }
    ensures best { IfOk result (λ o. MatchOption o (best.new ≡ best.old) (λ n. TakesIn best.old best.new (behind (mark_standing wanted.now.mark)
        (map (row_standing wanted.now.order) (leaf_hits leaf.now (query_of query.now)))))) }
{
    if query.number_range().is_none() {
        return Ok(None);
    }
    let live = Hits::live_in(leaf);
    let ranks = LeafRanks::of(leaf.segment(), wanted.order);
    let Some(range) = rows_in_order(query, &ranks, wanted.order) else {
        return Ok(None);
    };
    let total = count_live(leaf, range.rows);
    offer_range(best, &ranks, range.walk, &live, &wanted.mark)?;
    Ok(Some(total))
}

/// Offers the hits of a leaf to the page, as far as the mark comes before them; how many hits the leaf has. The leaves before it
/// have so many.
fn offer_leaf<'a>(
    alloc: Global,
    best: &mut Best<Candidate<'a>>,
    leaf: &'a Leaf,
    query: &Query,
    set: Option<&DocSet>,
    wanted: &Wanted<'a>,
    before: usize,
) -> Result<usize, AllocError>
    requires { IfSome set (λ s. s.now ≡ map (row_matches (query_of query.now)) leaf.now.segment.rows) }
    ensures total { IfOk result (λ n. n ≡ length (leaf_hits leaf.now (query_of query.now))) }
    ensures limit { best.new.limit ≡ best.old.limit }
    ensures best { OnOk result (TakesIn best.old best.new (behind (mark_standing wanted.now.mark)
        (map (row_standing wanted.now.order) (leaf_hits leaf.now (query_of query.now))))) }
{
    match offer_in_order(best, leaf, query, wanted)? {
        Some(total) => Ok(total),
        None => offer_matched(alloc, best, leaf, query, set, wanted, before),
    }
}

/// So many hits more. What a `usize` can't count doesn't fit in memory either.
fn more_hits(total: usize, found: usize) -> Result<usize, AllocError>
    ensures ok { IfOk result (λ n. n ≡ total + found) }
{
    total.checked_add(found).ok_or(AllocError)
}

/// How many hits the leaves have, and the first that are wanted by the order's field.
fn best_hits<'a>(
    alloc: Global,
    leaves: &'a [Leaf],
    query: &Query,
    sets: &[Option<Arc<DocSet>>],
    wanted: &Wanted<'a>,
) -> Result<(usize, Vec<Candidate<'a>>), AllocError>
    requires { AreSets (query_of query.now) leaves.now sets.now }
    ensures total { IfOk result (λ r. r.0 ≡ length (hits_in leaves.now (query_of query.now))) }
    ensures best { IfOk result (λ r. map standing_of r.1.items
        ≡ first_wanted wanted.now (map (row_standing wanted.now.order) (hits_in leaves.now (query_of query.now)))) }
{
    let mut total = 0;
    let mut best = Best::new(alloc, wanted.count);
    for (index, leaf) in leaves.iter().enumerate() {
        let set = set_at(sets, index);
        let found = offer_leaf(alloc, &mut best, leaf, query, set, wanted, total)?;
        total = more_hits(total, found)?;
    }
    let first = best.into_items()?;
    Ok((total, first))
}

/// How many hits the leaves have, and the first that are wanted by the order's field, as a page shows them.
fn best_entries(
    alloc: Global,
    leaves: &[Leaf],
    query: &Query,
    sets: &[Option<Arc<DocSet>>],
    wanted: &Wanted<'_>,
) -> Result<(usize, Vec<Entry>), AllocError>
    requires { AreSets (query_of query.now) leaves.now sets.now }
    ensures total { IfOk result (λ r. r.0 ≡ length (hits_in leaves.now (query_of query.now))) }
    ensures first { IfOk result (λ r. r.1.items
        ≡ first_shown wanted.now (map (row_standing wanted.now.order) (hits_in leaves.now (query_of query.now)))) }
{
    let (total, best) = best_hits(alloc, leaves, query, sets, wanted)?;
    let entries = entries_of(alloc, &best)?;
    Ok((total, entries))
}

/// How many hits the leaves have, and the first that are wanted in order of addition, as a page shows them. They come in
/// that order, so each is shown as it is met.
fn added_entries(
    alloc: Global,
    leaves: &[Leaf],
    query: &Query,
    sets: &[Option<Arc<DocSet>>],
    wanted: &Wanted<'_>,
) -> Result<(usize, Vec<Entry>), AllocError>
    requires { AreSets (query_of query.now) leaves.now sets.now }
    ensures total { IfOk result (λ r. r.0 ≡ length (hits_in leaves.now (query_of query.now))) }
    ensures first { IfOk result (λ r. r.1.items ≡ take wanted.now.count
        (map entry_shown (behind (mark_standing wanted.now.mark) (map (row_standing Added) (hits_in leaves.now (query_of query.now)))))) }
{
    let mut total = 0;
    let mut shown = Vec::with_capacity(alloc, wanted.count)?;
    for (index, leaf) in leaves.iter().enumerate() {
        let set = set_at(sets, index);
        let found = show_leaf(alloc, &mut shown, wanted, leaf, query, set)?;
        total = more_hits(total, found)?;
    }
    Ok((total, shown))
}

/// How many hits the leaves have, and the first that are wanted, as a page shows them.
pub(crate) fn first_entries(
    alloc: Global,
    leaves: &[Leaf],
    query: &Query,
    sets: &[Option<Arc<DocSet>>],
    wanted: &Wanted<'_>,
) -> Result<(usize, Vec<Entry>), AllocError>
    requires rising { AllPairs (λ a b. a.number < b.number) (flat_map live_rows leaves.now) }
    requires sets { AreSets (query_of query.now) leaves.now sets.now }
    ensures total { IfOk result (λ r. r.0 ≡ length (hits_in leaves.now (query_of query.now))) }
    ensures first { IfOk result (λ r. r.1.items
        ≡ first_shown wanted.now (map (row_standing wanted.now.order) (hits_in leaves.now (query_of query.now)))) }
{
    // A page of no hits is the same in each order. They are counted, as in order of addition, and none is offered.
    if wanted.count == 0 {
        return added_entries(alloc, leaves, query, sets, wanted);
    }
    match wanted.order {
        Order::Added => added_entries(alloc, leaves, query, sets, wanted),
        _ => best_entries(alloc, leaves, query, sets, wanted),
    }
}
