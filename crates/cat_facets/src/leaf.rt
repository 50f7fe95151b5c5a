//! The hits in one leaf, counted.
ghost use Rattle.std.specs.Prelude.{◌≡◌, ℕ, ◌+◌, ◌<◌, length, slice_index, IfOk, IfSome, OnOk, Some};
ghost use Rattle.cat_model.specs.Ordinals.{text_at};
ghost use Rattle.cat_model.specs.View.{selected};
ghost use Rattle.cat_facets.specs.States.{IsKnown};
ghost use Rattle.cat_facets.specs.Tallies.{label_count, labelled_count, leaf_labels};

use crate::column::labels_of;
use crate::counting::{add_all, add_rows};
use crate::segments::SegmentLabels;
use crate::uncounting::take_rows;
use cat_columns::{Dictionary, RowSet, SetColumn};
use cat_search::Leaf;
use cat_segment::Labels;
use std::alloc::{AllocError, Global};

/// How many rows have a label.
fn count_labelled(column: &SetColumn) -> usize
    ensures { result ≡ labelled_count column.now }
{
    let mut labelled = 0;
    for row in 0..column.len() {
        labelled += usize::from(!column.ordinals(row).is_empty());
    }
    labelled
}

/// How many rows have a label, which is counted once.
fn labelled_in(labelled: &mut Option<usize>, column: &SetColumn) -> usize
    requires { IfSome labelled.old (λ n. n ≡ labelled_count column.now) }
    ensures value { result ≡ labelled_count column.now }
    ensures known { labelled.new ≡ Some result }
{
    match *labelled {
        Some(count) => count,
        None => {
            let count = count_labelled(column);
            *labelled = Some(count);
            count
        }
    }
}

/// Counts all rows, and takes those out that aren't hits. It answers how many hits have a label.
fn add_but_others(
    alloc: Global,
    totals: &mut [usize],
    labels: &Dictionary,
    known: &mut SegmentLabels,
    column: &Labels,
    hits: &RowSet,
) -> Result<usize, AllocError>
    requires rows { length hits.now ≡ length column.now }
    requires long { length totals.old ≡ length labels.now }
    requires known { IsKnown labels.now column.now known.old }
    ensures known { IsKnown labels.now column.now known.new }
    ensures labelled { IfOk result (λ n. n ≡ labelled_count (selected hits.now column.now)) }
    ensures counts { OnOk result ((g : ℕ) → g < length labels.now → slice_index totals.new g
        ≡ slice_index totals.old g + label_count (text_at labels.now g) (selected hits.now column.now)) }
{
    let mut others = RowSet::all(alloc, hits.len())?;
    others.and_not(hits);
    add_all(totals, labels, &known.globals, column.terms())?;
    let unmatched = take_rows(totals, labels, &known.globals, column.labels(), &others);
    Ok(labelled_in(&mut known.labelled, column.labels()) - unmatched)
}

/// Whether it is less work to take the other rows out of the counts of all rows than to count the hits.
fn are_most(column: &Labels, hits: &RowSet) -> bool {
    let count = hits.count();
    let others = hits.len().saturating_sub(count);
    others.saturating_add(column.labels().dictionary().len()) < count
}

/// Counts the hits in the leaf, and answers how many of them have a label in the dimension.
pub(crate) fn add_leaf(
    alloc: Global,
    totals: &mut [usize],
    labels: &Dictionary,
    known: &mut SegmentLabels,
    leaf: &Leaf,
    dimension: &str,
    hits: &RowSet,
) -> Result<usize, AllocError>
    requires rows { length hits.now ≡ length leaf.now.segment.rows }
    requires long { length totals.old ≡ length labels.now }
    requires known { IsKnown labels.now (leaf_labels dimension.now leaf.now) known.old }
    ensures known { IsKnown labels.now (leaf_labels dimension.now leaf.now) known.new }
    ensures labelled { IfOk result (λ n. n ≡ labelled_count (selected hits.now (leaf_labels dimension.now leaf.now))) }
    ensures counts { OnOk result ((g : ℕ) → g < length labels.now → slice_index totals.new g
        ≡ slice_index totals.old g + label_count (text_at labels.now g) (selected hits.now (leaf_labels dimension.now leaf.now))) }
{
    let Some(column) = labels_of(leaf.segment(), dimension) else {
        return Ok(0);
    };
    if are_most(column, hits) {
        return add_but_others(alloc, totals, labels, known, column, hits);
    }
    add_rows(totals, labels, &known.globals, column.labels(), hits)
}
