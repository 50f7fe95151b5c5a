//! Which counts are asked for.
ghost use Rattle.std.specs.Prelude.{◌≡◌, ◌≤◌, List, option_map, Ok, Err, IfErr, IfOk};
ghost use Rattle.cat_model.specs.Answer.{Read, answer, is_facet_kind};
ghost use Rattle.cat_model.specs.Item.{Record};
ghost use Rattle.cat_model.specs.Limits.{page_limit};
ghost use Rattle.cat_model.specs.Query as model;
ghost use Rattle.cat_model.specs.View.{Shows};
ghost use Rattle.cat_search.specs.cat_items.Kinds.{field_kind_of};
ghost use Rattle.cat_facets.specs.States.{IsDimensionOf};

use cat_base::{MAX_PAGE, Refusal};
use cat_items::{Kind, kind_of};
use cat_search::View;
use std::marker::Model;
use std::snapshot::Snapshot;

/// The dimension of the counts that are asked for, and how many of them, as they were judged over a view. (Lucene: the arguments
/// of `SortedSetDocValuesFacetCounts.getTopChildren`.)
#[derive(Drop)]
pub struct WantedCounts<'a> {
    // What they were judged over, which clauses alone read.
    over: Snapshot<View>,
    dimension: &'a str,
    count: usize,
}

impl<'a> Model for WantedCounts<'a> {
    ghost use Rattle.std.specs.Prelude.{◌≤◌};
    ghost use Rattle.cat_model.specs.Limits.{page_limit};
    ghost use Rattle.cat_facets.specs.States.{IsDimensionOf};
    ghost use Rattle.cat_facets.specs.States as model;

    ghost Value = { model.WantedCounts };

    ghost view = { λ w. record { view = w.over.value; dimension = w.dimension.now; count = w.count } };

    ghost invariant = { λ w. (IsDimensionOf w.over.value w.dimension.now) × (w.count ≤ page_limit) };
}

/// Whether one counts over fields of the kind.
fn is_facet(kind: Option<Kind>) -> bool
    ensures { result ≡ is_facet_kind (option_map field_kind_of kind) }
{
    matches!(kind, Some(Kind::Facet))
}

impl<'a> WantedCounts<'a> {
    /// The first n counts in the dimension, judged over the view whatever their query is, without memory. The first of these
    /// refusals that is due comes: [`Refusal::NotFacet`] if the dimension is no facet field of the view's schema,
    /// [`Refusal::Count`] if n is above [`MAX_PAGE`].
    pub fn of(view: &View, dimension: &'a str, n: u64) -> Result<WantedCounts<'a>, Refusal>
        ensures ok { IfOk result (λ w. w ≡ record { view = view.now; dimension = dimension.entry.now; count = n }) }
        ensures err { IfErr result (λ e. (q : model.Query) (rs : List Record) → Shows view.now rs
            → answer view.now.schema rs (Read.facets dimension.entry.now n (Ok q)) ≡ Err e) }
        ensures due { (q : model.Query) (rs : List Record) → Shows view.now rs
            → IfErr (answer view.now.schema rs (Read.facets dimension.entry.now n (Ok q))) (λ e. result ≡ Err e) }
    {
        if !is_facet(kind_of(view.schema().fields(), dimension)) {
            return Err(Refusal::NotFacet);
        }
        if n > MAX_PAGE as u64 {
            return Err(Refusal::Count);
        }
        Ok(WantedCounts {
            over: Snapshot::of(view),
            dimension,
            count: n as usize,
        })
    }

    /// The dimension.
    pub(crate) fn dimension(&self) -> &str
        ensures value { result.now ≡ self.now.dimension }
        ensures facet { IsDimensionOf self.now.view self.now.dimension }
    {
        self.dimension
    }

    /// How many counts are told at most.
    pub(crate) fn count(&self) -> usize
        ensures value { result ≡ self.now.count }
        ensures few { self.now.count ≤ page_limit }
    {
        self.count
    }
}
