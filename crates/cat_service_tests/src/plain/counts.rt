//! Counts over the labels of hits.
use cat_base::Text;
use std::cmp::Reverse;

/// A label, and how many hits have it (Lucene: a `LabelAndValue`). The greater count comes first, and ties go by bytes.
#[derive(PartialEq, Eq, PartialOrd, Ord, Drop)]
pub struct LabelCount {
    pub(crate) count: Reverse<usize>,
    pub(crate) label: Text,
}

/// How many hits have a label, how many different labels they have, and the first counts (Lucene: a `FacetResult`).
#[derive(Drop)]
pub struct Counts {
    /// How many hits have a label in the dimension.
    pub matching: usize,
    /// How many different labels the hits have (`FacetResult.childCount`).
    pub met: usize,
    /// The first counts (`FacetResult.labelValues`).
    pub counts: Vec<LabelCount>,
}
