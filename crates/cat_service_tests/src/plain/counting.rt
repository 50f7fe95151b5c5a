//! Counts over the labels of hits, by one look at each hit for each label.
ghost use Rattle.std.specs.Prelude.{◌≡◌, ◌++◌, count_by, filter, length, ltb, map, IfOk, OnOk};
ghost use Rattle.std.specs.List.{list_any};
ghost use Rattle.cat_base.specs.Texts.{IsTextSet};
ghost use Rattle.cat_model.specs.Facets.{counted, facets_in, facets_of, labels_met, labels_of, more};
ghost use Rattle.cat_model.specs.Item.{content_of, labels_in};
ghost use Rattle.cat_model.specs.Page.{first_ranked, hits};
ghost use Rattle.cat_model.specs.Query.{matches};
ghost use Rattle.cat_model.specs.Text.{same_text};
ghost use Rattle.cat_service_tests.specs.plain.Counts.{count_from, counted_of, facets_told};
ghost use Rattle.cat_search.specs.cat_query.View.{query_of};

use crate::plain::counts::{Counts, LabelCount};
use crate::plain::record::Record;
use cat_base::{Text, TextSet};
use cat_items::{FieldValue, Item};
use cat_query::Query;
use cat_search::Best;
use std::alloc::{AllocError, Global};
use std::cmp::Reverse;

/// The labels that the item has in the dimension.
fn labels_in<'a>(item: &'a Item, dim: &str) -> &'a [Text]
    ensures { result.now ≡ labels_in (content_of dim.now item.now) }
{
    match item.value(dim) {
        Some(FieldValue::Labels(labels)) => labels.as_slice(),
        Some(FieldValue::Words(_) | FieldValue::Keyword(_) | FieldValue::Number(_)) | None => &[],
    }
}

/// Whether the label is one of these.
fn is_among(labels: &[Text], label: &str) -> bool
    ensures { result ≡ list_any (same_text label.now) labels.now }
{
    for other in labels {
        if label == other.as_str() {
            return true;
        }
    }
    false
}

/// Whether the hit has the label.
fn has_label(hit: &Record, dim: &str, label: &str) -> bool
    ensures { result ≡ list_any (same_text label.now) (labels_of dim.now hit.now) }
{
    is_among(labels_in(hit.item(), dim), label)
}

/// Whether the hit has a label at all.
fn has_some_label(hit: &Record, dim: &str) -> bool
    ensures { result ≡ ltb 0 (length (labels_of dim.now hit.now)) }
{
    labels_in(hit.item(), dim).len() > 0
}

/// How many hits have a label at all.
fn count_labelled(hits: &[Record], dim: &str) -> usize
    ensures { result ≡ count_by (λ h. ltb 0 (length (labels_of dim.now h))) hits.now }
{
    let mut count = 0;
    for hit in hits {
        if has_some_label(hit, dim) {
            count += 1;
        }
    }
    count
}

/// How many hits have the label.
fn count_with(hits: &[Record], dim: &str, label: &str) -> usize
    ensures { result ≡ count_by (λ h. list_any (same_text label.now) (labels_of dim.now h)) hits.now }
{
    let mut count = 0;
    for hit in hits {
        if has_label(hit, dim, label) {
            count += 1;
        }
    }
    count
}

/// The hits of the query among the records.
pub(crate) fn hits_of(
    alloc: Global,
    records: &[Record],
    query: &Query,
) -> Result<Vec<Record>, AllocError>
    ensures ok { IfOk result (λ hs. hs.items ≡ hits records.now (query_of query.now)) }
{
    let mut found = Vec::new(alloc);
    for record in records {
        if query.accepts(record.item()) {
            found.push(record.copy()?)?;
        }
    }
    Ok(found)
}

/// Adds the labels behind the texts.
fn push_labels(texts: &mut Vec<Text>, labels: &[Text]) -> Result<(), AllocError>
    ensures ok { OnOk result (texts.new.items ≡ texts.old.items ++ labels.now) }
{
    for label in labels {
        texts.push(label.copy()?)?;
    }
    Ok(())
}

/// The labels that the hits have, each once.
fn labels_met(alloc: Global, hits: &[Record], dim: &str) -> Result<TextSet, AllocError>
    ensures ok { IfOk result (λ ls. ls ≡ labels_met dim.now hits.now) }
{
    let mut texts = Vec::new(alloc);
    for hit in hits {
        push_labels(&mut texts, labels_in(hit.item(), dim))?;
    }
    Ok(TextSet::of(texts))
}

/// The label with the number of the hits that have it.
fn counted(hits: &[Record], dim: &str, label: &Text) -> Result<LabelCount, AllocError>
    ensures ok { IfOk result (λ c. c ≡ count_from (counted dim.now hits.now label.now)) }
{
    let count = Reverse(count_with(hits, dim, label.as_str()));
    let label = label.copy()?;
    Ok(LabelCount { count, label })
}

/// The first so many of the labels, with their counts.
fn first_counts(
    alloc: Global,
    hits: &[Record],
    dim: &str,
    labels: &[Text],
    count: usize,
) -> Result<Vec<LabelCount>, AllocError>
    requires { IsTextSet labels.now }
    ensures ok { IfOk result (λ cs. map counted_of cs.items ≡ first_ranked more (map (counted dim.now hits.now) labels.now) count) }
{
    let mut best = Best::new(alloc, count);
    for label in labels {
        best.offer(counted(hits, dim, label)?)?;
    }
    let first = best.into_items()?;
    Ok(first)
}

/// The counts over the hits, of which the first so many are told.
fn counts_of(alloc: Global, hits: &[Record], dim: &str, count: usize) -> Result<Counts, AllocError>
    ensures ok { IfOk result (λ f. facets_told f ≡ facets_of hits.now dim.now count) }
{
    let labels = labels_met(alloc, hits, dim)?;
    let counts = first_counts(alloc, hits, dim, labels.as_slice(), count)?;
    Ok(Counts {
        matching: count_labelled(hits, dim),
        met: labels.len(),
        counts,
    })
}

/// The counts over the hits of the query, of which the first so many are told (Lucene:
/// `SortedSetDocValuesFacetCounts.getTopChildren`).
pub(crate) fn counts_in(
    alloc: Global,
    records: &[Record],
    query: &Query,
    dim: &str,
    count: usize,
) -> Result<Counts, AllocError>
    ensures ok { IfOk result (λ f. facets_told f ≡ facets_in records.now (query_of query.now) dim.now count) }
{
    let hits = hits_of(alloc, records, query)?;
    let counts = counts_of(alloc, hits.as_slice(), dim, count)?;
    Ok(counts)
}
