//! The counts over all live rows of a view, kept for the next ones.
ghost use Rattle.std.specs.Prelude.{◌≡◌, [], true, replicate, IfOk, OnOk, IsTrue};
ghost use Rattle.std.specs.List.{flat_map};
ghost use Rattle.cat_model.specs.Item.{Item};
ghost use Rattle.cat_model.specs.Query.{matches};
ghost use Rattle.cat_model.specs.View.{segments_of};
ghost use Rattle.cat_search.specs.cat_query.View.{query_of};
ghost use Rattle.cat_facets.specs.LiveTotals.{live_sets, AreLiveCounts};
ghost use Rattle.cat_facets.specs.States.{AreKnown};
ghost use Rattle.cat_facets.specs.Tallies.{hit_labels, labelled_count, AreCounts};

use crate::segments::SegmentLabels;
use crate::totals::totals_of;
use cat_columns::Dictionary;
use cat_search::{Leaf, Prepared};
use cat_segment::Live;
use std::alloc::{AllocError, Global};

/// The counts over the live rows of segments, and which rows those are: a view has the same counts where the same rows are
/// live. (Lucene counts anew each time.)
#[derive(Drop)]
pub(crate) struct LiveCounts {
    /// The live rows of each segment. None are told before rows were counted.
    pub(crate) live: Vec<Live>,
    /// How many of them have a label.
    pub(crate) labelled: usize,
    /// For each global ordinal how many of them have its label.
    pub(crate) totals: Vec<usize>,
}

impl LiveCounts {
    /// The counts over no row, of so many labels.
    pub(crate) fn none(alloc: Global, labels: usize) -> Result<LiveCounts, AllocError>
        ensures live { IfOk result (λ k. k.live.items ≡ []) }
        ensures labelled { IfOk result (λ k. k.labelled ≡ 0) }
        ensures totals { IfOk result (λ k. k.totals.items ≡ replicate labels 0) }
    {
        Ok(LiveCounts {
            live: Vec::new(alloc),
            labelled: 0,
            totals: vec![in alloc; 0usize; labels]?,
        })
    }
}

/// The live rows of each leaf.
fn live_of(alloc: Global, leaves: &[Leaf]) -> Result<Vec<Live>, AllocError>
    ensures { IfOk result (λ v. v.items ≡ live_sets leaves.now) }
{
    let mut sets = Vec::with_capacity(alloc, leaves.len())?;
    for leaf in leaves {
        sets.push(leaf.live().copy()?)?;
    }
    Ok(sets)
}

/// Whether these are the live rows of each leaf.
fn are_live(live: &[Live], leaves: &[Leaf]) -> bool
    ensures { IsTrue result → live.now ≡ live_sets leaves.now }
{
    if live.len() != leaves.len() {
        return false;
    }
    for (index, leaf) in leaves.iter().enumerate() {
        if live[index] != *leaf.live() {
            return false;
        }
    }
    true
}

/// Counts the hits of a query for everything, which are all live rows, unless they are those that were counted last.
pub(crate) fn count_live(
    alloc: Global,
    prepared: &Prepared,
    dimension: &str,
    labels: &Dictionary,
    known: &mut [SegmentLabels],
    kept: &mut LiveCounts,
) -> Result<(), AllocError>
    requires everything { (i : Item) → matches (query_of prepared.now.query) i ≡ true }
    requires known { AreKnown dimension.now labels.now prepared.now.view.leaves known.old }
    requires kept { AreLiveCounts dimension.now labels.now (segments_of prepared.now.view.leaves) kept.old }
    ensures known { AreKnown dimension.now labels.now prepared.now.view.leaves known.new }
    ensures kept { AreLiveCounts dimension.now labels.now (segments_of prepared.now.view.leaves) kept.new }
    ensures labelled { OnOk result (kept.new.labelled
        ≡ labelled_count (flat_map (hit_labels (query_of prepared.now.query) dimension.now) prepared.now.view.leaves)) }
    ensures counts { OnOk result (AreCounts labels.now
        (flat_map (hit_labels (query_of prepared.now.query) dimension.now) prepared.now.view.leaves) kept.new.totals.items) }
{
    let leaves = prepared.view().leaves();
    if are_live(&kept.live, leaves) {
        return Ok(());
    }
    let live = live_of(alloc, leaves)?;
    let (labelled, totals) = totals_of(alloc, prepared, dimension, labels, known)?;
    *kept = LiveCounts {
        live,
        labelled,
        totals,
    };
    Ok(())
}
