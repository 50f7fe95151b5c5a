//! The first labels by falling count.
ghost use Rattle.std.specs.Prelude.{◌≡◌, ◌<◌, length, map, All, IfOk};
ghost use Rattle.cat_base.specs.Texts.{IsTextSet};
ghost use Rattle.cat_model.specs.Page.{first_ranked};
ghost use Rattle.cat_facets.specs.Met.{facets_by, label_comes_first, met_from, label_told};

use crate::facets::{FacetCount, Facets};
use cat_columns::Dictionary;
use cat_search::Best;
use std::alloc::{AllocError, Global};
use std::cmp::Reverse;

/// A label as it ranks among others: by its count, the greatest first, and by its ordinal, which goes by the bytes.
#[derive(PartialEq, Eq, PartialOrd, Ord, Drop)]
pub(crate) struct Ranked {
    pub(crate) count: Reverse<usize>,
    pub(crate) ordinal: usize,
}

/// How many labels are met, and the first n of them (Lucene: `TopOrdAndIntQueue` over the counts).
fn first_met(alloc: Global, totals: &[usize], n: usize) -> Result<(usize, Vec<Ranked>), AllocError>
    ensures met { IfOk result (λ r. r.0 ≡ length (met_from 0 totals.now)) }
    ensures first { IfOk result (λ r. r.1.items ≡ first_ranked label_comes_first (met_from 0 totals.now) n) }
{
    let mut met = 0;
    let mut best = Best::new(alloc, n);
    for (ordinal, total) in totals.iter().enumerate() {
        if *total == 0 {
            continue;
        }
        met += 1;
        best.offer(Ranked {
            count: Reverse(*total),
            ordinal,
        })?;
    }
    Ok((met, best.into_items()?))
}

/// The labels of the dictionary with their counts.
fn counts_told(
    alloc: Global,
    labels: &Dictionary,
    ranked: &[Ranked],
) -> Result<Vec<FacetCount>, AllocError>
    requires { All (λ r. r.ordinal < length labels.now) ranked.now }
    ensures ok { IfOk result (λ v. v.items ≡ map (label_told labels.now) ranked.now) }
{
    let mut counts = Vec::with_capacity(alloc, ranked.len())?;
    for each in ranked {
        let label = labels.text(each.ordinal).copy()?;
        counts.push(FacetCount::new(each.count.0, label))?;
    }
    Ok(counts)
}

/// How many labels are met, and the first n counts, beside how many hits have a label.
pub(crate) fn facets_told(
    alloc: Global,
    labels: &Dictionary,
    labelled: usize,
    totals: &[usize],
    n: usize,
) -> Result<Facets, AllocError>
    requires rise { IsTextSet labels.now }
    requires long { length totals.now ≡ length labels.now }
    ensures ok { IfOk result (λ f. f ≡ facets_by labels.now labelled totals.now n) }
{
    let (met, ranked) = first_met(alloc, totals, n)?;
    let counts = counts_told(alloc, labels, &ranked)?;
    Ok(Facets::new(labelled, met, counts))
}
