//! What is known of the segments of a view in one dimension.
ghost use Rattle.std.specs.Prelude.{◌≡◌, ◌^◌, ◌<◌, length, map, All, Contains, IfOk, OnOk};
ghost use Rattle.cat_model.specs.Ordinals.{dictionary_of};
ghost use Rattle.cat_model.specs.GlobalOrdinals.{leaf_dictionary};
ghost use Rattle.cat_facets.specs.States.{AreKnown, HasLabels, IsFacetIn, IsKnown};
ghost use Rattle.cat_facets.specs.Tallies.{leaf_labels};

use crate::column::labels_of;
use cat_base::Text;
use cat_columns::Dictionary;
use cat_search::Leaf;
use std::alloc::{AllocError, Global};

/// What is kept of a segment.
#[derive(Drop)]
pub(crate) struct SegmentLabels {
    /// The global ordinal of each ordinal of the segment (Lucene: `OrdinalMap.getGlobalOrds`).
    pub(crate) globals: Vec<u32>,
    /// How many rows have a label, live or dead, once that was asked for: it takes a look at every row.
    pub(crate) labelled: Option<usize>,
}

/// The labels of the leaf's rows, live or dead, in byte order.
fn labels_in<'a>(leaf: &'a Leaf, dimension: &str) -> &'a [Text]
    requires { IsFacetIn dimension.now leaf.now }
    ensures labels { result.now ≡ leaf_dictionary dimension.now leaf.now }
    ensures texts { HasLabels dimension.now leaf.now }
{
    prove!(leaf.segment().len() > 0);
    match labels_of(leaf.segment(), dimension) {
        Some(labels) => labels.labels().dictionary().as_slice(),
        None => &[],
    }
}

/// The labels of each leaf's rows.
fn all_labels_in<'a>(
    alloc: Global,
    leaves: &'a [Leaf],
    dimension: &str,
) -> Result<Vec<&'a [Text]>, AllocError>
    requires { All (IsFacetIn dimension.now) leaves.now }
    ensures labels { IfOk result (λ v. map (λ s. s.now) v.items ≡ map (leaf_dictionary dimension.now) leaves.now) }
    ensures texts { OnOk result (All (HasLabels dimension.now) leaves.now) }
{
    let mut sets = Vec::with_capacity(alloc, leaves.len())?;
    for leaf in leaves {
        sets.push(labels_in(leaf, dimension))?;
    }
    Ok(sets)
}

/// The labels of all leaves' rows, live or dead (Lucene: the terms of an `OrdinalMap`). An error also where there are 2^32
/// of them or more.
pub(crate) fn union_of(
    alloc: Global,
    leaves: &[Leaf],
    dimension: &str,
) -> Result<Dictionary, AllocError>
    requires { All (IsFacetIn dimension.now) leaves.now }
    ensures ok { IfOk result (λ d. d ≡ dictionary_of (map (leaf_dictionary dimension.now) leaves.now)) }
    ensures texts { OnOk result (All (HasLabels dimension.now) leaves.now) }
    ensures few { IfOk result (λ d. length d < 2 ^ 32) }
{
    let labels = Dictionary::union(alloc, &all_labels_in(alloc, leaves, dimension)?)?;
    if labels.len() > u32::MAX as usize {
        return Err(AllocError);
    }
    Ok(labels)
}

/// What is kept of the leaf's segment.
fn known_of(
    alloc: Global,
    labels: &Dictionary,
    leaf: &Leaf,
    dimension: &str,
) -> Result<SegmentLabels, AllocError>
    requires few { length labels.now < 2 ^ 32 }
    requires facet { IsFacetIn dimension.now leaf.now }
    requires there { All (Contains labels.now) (leaf_dictionary dimension.now leaf.now) }
    ensures ok { IfOk result (λ known. IsKnown labels.now (leaf_labels dimension.now leaf.now) known) }
{
    Ok(SegmentLabels {
        globals: labels.remap(alloc, labels_in(leaf, dimension))?,
        labelled: None,
    })
}

/// What is kept of the segment of each leaf.
pub(crate) fn all_known(
    alloc: Global,
    labels: &Dictionary,
    leaves: &[Leaf],
    dimension: &str,
) -> Result<Vec<SegmentLabels>, AllocError>
    requires few { length labels.now < 2 ^ 32 }
    requires facet { All (IsFacetIn dimension.now) leaves.now }
    requires all { labels.now ≡ dictionary_of (map (leaf_dictionary dimension.now) leaves.now) }
    ensures ok { IfOk result (λ v. AreKnown dimension.now labels.now leaves.now v.items) }
{
    let mut known = Vec::with_capacity(alloc, leaves.len())?;
    for leaf in leaves {
        known.push(known_of(alloc, labels, leaf, dimension)?)?;
    }
    Ok(known)
}
