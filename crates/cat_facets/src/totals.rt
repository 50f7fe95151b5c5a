//! The hits in all leaves of a view, counted.
ghost use Rattle.std.specs.Prelude.{◌≡◌, ◌+◌, ◌<◌, [], length, slice_index_or, take, IfOk, OnOk};
ghost use Rattle.std.specs.List.{flat_map};
ghost use Rattle.cat_search.specs.cat_query.View.{query_of};
ghost use Rattle.cat_facets.specs.States.{AreKnown, IsKnown};
ghost use Rattle.cat_facets.specs.Tallies.{hit_labels, labelled_count, leaf_labels, AreCounts};

use crate::leaf::add_leaf;
use crate::segments::SegmentLabels;
use cat_columns::Dictionary;
use cat_search::{Leaf, Prepared};
use std::alloc::{AllocError, Global};

/// As many more. What a `usize` can't count doesn't fit in memory either.
fn sum_of(count: usize, more: usize) -> Result<usize, AllocError>
    ensures ok { IfOk result (λ n. n ≡ count + more) }
{
    count.checked_add(more).ok_or(AllocError)
}

/// Counts the hits in the leaf, which is the one of this index, and answers how many of them have a label.
fn add_hits(
    alloc: Global,
    totals: &mut [usize],
    prepared: &Prepared,
    index: usize,
    leaf: &Leaf,
    dimension: &str,
    labels: &Dictionary,
    known: &mut SegmentLabels,
) -> Result<usize, AllocError>
    requires index { index < length prepared.now.view.leaves }
    requires leaf { leaf.now ≡ slice_index_or prepared.now.view.leaves index leaf.now }
    requires known { IsKnown labels.now (leaf_labels dimension.now leaf.now) known.old }
    requires counts { AreCounts labels.now
        (flat_map (hit_labels (query_of prepared.now.query) dimension.now) (take index prepared.now.view.leaves)) totals.old }
    ensures known { IsKnown labels.now (leaf_labels dimension.now leaf.now) known.new }
    ensures labelled { IfOk result (λ n.
        labelled_count (flat_map (hit_labels (query_of prepared.now.query) dimension.now) (take (index + 1) prepared.now.view.leaves))
        ≡ labelled_count (flat_map (hit_labels (query_of prepared.now.query) dimension.now) (take index prepared.now.view.leaves)) + n) }
    ensures counts { OnOk result (AreCounts labels.now
        (flat_map (hit_labels (query_of prepared.now.query) dimension.now) (take (index + 1) prepared.now.view.leaves)) totals.new) }
{
    let hits = prepared.hits(alloc, index)?;
    add_leaf(alloc, totals, labels, known, leaf, dimension, &hits)
}

/// Counts the hits in all leaves where none is counted, and answers how many of them have a label.
fn add_all_hits(
    alloc: Global,
    totals: &mut [usize],
    prepared: &Prepared,
    dimension: &str,
    labels: &Dictionary,
    known: &mut [SegmentLabels],
) -> Result<usize, AllocError>
    requires known { AreKnown dimension.now labels.now prepared.now.view.leaves known.old }
    requires counts { AreCounts labels.now [] totals.old }
    ensures known { AreKnown dimension.now labels.now prepared.now.view.leaves known.new }
    ensures labelled { IfOk result (λ n. n
        ≡ labelled_count (flat_map (hit_labels (query_of prepared.now.query) dimension.now) prepared.now.view.leaves)) }
    ensures counts { OnOk result (AreCounts labels.now
        (flat_map (hit_labels (query_of prepared.now.query) dimension.now) prepared.now.view.leaves) totals.new) }
{
    let mut labelled = 0;
    let leaves = prepared.view().leaves();
    for (index, leaf) in leaves.iter().enumerate() {
        let one = &mut known[index];
        let more = add_hits(alloc, totals, prepared, index, leaf, dimension, labels, one)?;
        labelled = sum_of(labelled, more)?;
    }
    Ok(labelled)
}

/// How many of the hits have a label, and for each global ordinal how many have its label.
pub(crate) fn totals_of(
    alloc: Global,
    prepared: &Prepared,
    dimension: &str,
    labels: &Dictionary,
    known: &mut [SegmentLabels],
) -> Result<(usize, Vec<usize>), AllocError>
    requires { AreKnown dimension.now labels.now prepared.now.view.leaves known.old }
    ensures known { AreKnown dimension.now labels.now prepared.now.view.leaves known.new }
    ensures labelled { IfOk result (λ t. t.0
        ≡ labelled_count (flat_map (hit_labels (query_of prepared.now.query) dimension.now) prepared.now.view.leaves)) }
    ensures counts { IfOk result (λ t. AreCounts labels.now
        (flat_map (hit_labels (query_of prepared.now.query) dimension.now) prepared.now.view.leaves) t.1.items) }
{
    let mut totals = vec![in alloc; 0usize; labels.len()]?;
    let labelled = add_all_hits(alloc, &mut totals, prepared, dimension, labels, known)?;
    Ok((labelled, totals))
}
