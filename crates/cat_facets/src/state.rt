//! What counting in a dimension of a view's segments needs.
ghost use Rattle.std.specs.Prelude.{◌≡◌, List, IfOk};
ghost use Rattle.cat_model.specs.Facets.{facets_of};
ghost use Rattle.cat_model.specs.Item.{Record};
ghost use Rattle.cat_model.specs.Page.{hits};
ghost use Rattle.cat_model.specs.View.{Shows, segments_of};
ghost use Rattle.cat_search.specs.cat_query.View.{query_of};
ghost use Rattle.cat_facets.specs.States.{IsDimensionOf};

use crate::facets::Facets;
use crate::first::facets_told;
use crate::live::{LiveCounts, count_live};
use crate::segments::{SegmentLabels, all_known, union_of};
use crate::totals::totals_of;
use cat_base::Text;
use cat_columns::Dictionary;
use cat_search::{Prepared, View};
use std::alloc::{AllocError, Global};
use std::marker::Model;
use std::snapshot::Snapshot;

/// The global ordinals of the labels that the segments of a view have in one dimension, made once for them (Lucene: a
/// `DefaultSortedSetDocValuesReaderState` with its `OrdinalMap`). It never changes, and serves each view of the same segments:
/// which of their rows are live is asked when hits are counted. It holds no segment, so that it keeps none in memory.
///
/// Contracts see it as the segments and the name of the dimension.
#[derive(Drop)]
pub(crate) struct ReaderState {
    // What it was made of, which clauses alone read.
    made_of: Snapshot<View>,
    dimension: Text,
    /// The labels of all segments, those of dead rows too.
    labels: Dictionary,
    /// One for each segment.
    segments: Vec<SegmentLabels>,
    /// The counts over all live rows of the view that was counted last by a query for everything.
    live: LiveCounts,
}

impl Model for ReaderState {
    ghost use Rattle.cat_model.specs.View.{segments_of};
    ghost use Rattle.cat_facets.specs.LiveTotals.{AreLiveCounts};
    ghost use Rattle.cat_facets.specs.States as model;

    ghost Value = { model.ReaderState };

    ghost view = { λ s. record { segments = segments_of s.made_of.value.leaves; dimension = s.dimension } };

    ghost invariant = { λ s. (model.IsState (record { segments = segments_of s.made_of.value.leaves; dimension = s.dimension })
        s.labels s.segments.items) × (AreLiveCounts s.dimension s.labels (segments_of s.made_of.value.leaves) s.live) };
}

impl ReaderState {
    /// The state of the view's segments in the dimension, which is a facet field. An error also where they have 2^32 labels or
    /// more.
    pub(crate) fn in_facet(
        alloc: Global,
        view: &View,
        dimension: &str,
    ) -> Result<ReaderState, AllocError>
        requires { IsDimensionOf view.now dimension.now }
        ensures { IfOk result (λ s. s ≡ record { segments = segments_of view.now.leaves; dimension = dimension.now }) }
    {
        let labels = union_of(alloc, view.leaves(), dimension)?;
        let segments = all_known(alloc, &labels, view.leaves(), dimension)?;
        let live = LiveCounts::none(alloc, labels.len())?;
        Ok(ReaderState {
            made_of: Snapshot::of(view),
            dimension: Text::from_str(alloc, dimension)?,
            labels,
            segments,
            live,
        })
    }

    /// The dimension.
    pub(crate) fn dimension(&self) -> &str
        ensures { result.now ≡ self.now.dimension }
    {
        self.dimension.as_str()
    }

    /// The counts over the hits of the query, of which the first n are told (Lucene:
    /// `SortedSetDocValuesFacetCounts.getTopChildren`). The query's view is one of the state's segments, whichever of their rows
    /// are live in it. The state stays as it is; how many rows of a segment have a label is counted where most of them are hits,
    /// and kept for the next counts, as are the counts over everything.
    pub(crate) fn counts(
        &mut self,
        alloc: Global,
        prepared: &Prepared,
        n: usize,
    ) -> Result<Facets, AllocError>
        requires segments { segments_of prepared.now.view.leaves ≡ self.old.segments }
        ensures ok { IfOk result (λ f. (rs : List Record) → Shows prepared.now.view rs
            → f ≡ facets_of (hits rs (query_of prepared.now.query)) self.old.dimension n) }
        ensures same { self.new ≡ self.old }
    {
        let dimension = self.dimension.as_str();
        if prepared.query().is_everything() {
            count_live(
                alloc,
                prepared,
                dimension,
                &self.labels,
                &mut self.segments,
                &mut self.live,
            )?;
            let live = &self.live;
            return Ok(facets_told(alloc, &self.labels, live.labelled, &live.totals, n)?);
        }
        let (labelled, totals) = totals_of(
            alloc,
            prepared,
            dimension,
            &self.labels,
            &mut self.segments,
        )?;
        Ok(facets_told(alloc, &self.labels, labelled, &totals, n)?)
    }
}
