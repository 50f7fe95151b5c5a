//! States that are kept, so that the next counts needn't make them anew.
ghost use Rattle.std.specs.Prelude.{◌≡◌, ◌⊎◌, [], ◌∷◌, ◌++◌, ◌≤◌, List, length, find, All, Ok, IfOk, IfNone, OnErr, OnOk};
ghost use Rattle.std.specs.List.{position};
ghost use Rattle.cat_model.specs.Answer.{Found};
ghost use Rattle.cat_model.specs.View.{segments_of};
ghost use Rattle.cat_facets.specs.Kept.{is_kept_as, last_kept, most_kept, segment_numbers, others, state_used_in, KnowsIn, RemembersOf, RemembersOfBelow};
ghost use Rattle.cat_facets.specs.States.{IsFacetsAnswer, IsDimensionOf};

use crate::facets::Facets;
use crate::limits::MAX_KEPT_STATES;
use crate::state::ReaderState;
use crate::wanted_counts::WantedCounts;
use cat_base::SegNo;
use cat_search::{Leaf, Prepared, View};
use std::alloc::{AllocError, Global};
use std::marker::Model;

/// A state, with what it is found by.
#[derive(Drop)]
struct KeptState {
    // The numbers of the segments, in order.
    numbers: Vec<SegNo>,
    state: ReaderState,
}

impl Model for KeptState {
    ghost use Rattle.std.specs.Prelude.{◌≡◌};
    ghost use Rattle.cat_facets.specs.Kept.{segment_numbers};
    ghost use Rattle.cat_facets.specs.States as model;

    ghost Value = { model.ReaderState };

    ghost view = { λ k. k.state };

    ghost invariant = { λ k. k.numbers.items ≡ segment_numbers k.state.segments };
}

impl KeptState {
    /// Whether it is the state of segments of these numbers, in order, in the dimension.
    fn is_of(&self, numbers: &[SegNo], dimension: &str) -> bool
        ensures { result ≡ is_kept_as numbers.now dimension.now self.now }
    {
        self.state.dimension() == dimension && self.numbers.as_slice() == numbers
    }
}

/// At most [`MAX_KEPT_STATES`] states, of which the least recently used goes first. A state is found by the numbers of its
/// segments, in order, and its dimension: no number of a segment is ever used again, so the next view of the same segments
/// finds it, whatever was deleted in between. (Lucene: the `SortedSetDocValuesReaderState`s that a program keeps for a reader;
/// here one outlasts a refresh that brought deletes alone.)
///
/// Contracts see the states in the order of their use, the last used last.
pub struct ReaderStates {
    // There is room for as many as are kept.
    states: Vec<KeptState>,
}

impl Model for ReaderStates {
    ghost use Rattle.std.specs.Prelude.{◌≤◌, List, length, vec_capacity};
    ghost use Rattle.cat_facets.specs.Kept.{most_kept};
    ghost use Rattle.cat_facets.specs.States as model;

    ghost Value = { List model.ReaderState };

    ghost view = { λ r. r.states.items };

    ghost invariant = { λ r. (length r.states.items ≤ most_kept) × (most_kept ≤ vec_capacity r.states) };
}

impl Drop for ReaderStates {
    fn drop(self) {
        let ReaderStates { states } = self;
        drop(states);
    }
}

/// The numbers of the leaves' segments, in order.
fn numbers_in(alloc: Global, leaves: &[Leaf]) -> Result<Vec<SegNo>, AllocError>
    ensures { IfOk result (λ v. v.items ≡ segment_numbers (segments_of leaves.now)) }
{
    let mut numbers = Vec::with_capacity(alloc, leaves.len())?;
    for leaf in leaves {
        numbers.push(leaf.segment().number())?;
    }
    Ok(numbers)
}

/// The place of the state of segments of these numbers, in order, in the dimension, if one is kept.
fn place_of(states: &[KeptState], numbers: &[SegNo], dimension: &str) -> Option<usize>
    ensures { result ≡ position (is_kept_as numbers.now dimension.now) states.now }
{
    states
        .iter()
        .position(|each| each.is_of(numbers, dimension))
}

impl ReaderStates {
    /// No state is kept. The room for those to come is taken here.
    pub fn new(alloc: Global) -> Result<ReaderStates, AllocError>
        ensures ok { IfOk result (λ s. s ≡ []) }
    {
        Ok(ReaderStates {
            states: Vec::with_capacity(alloc, MAX_KEPT_STATES)?,
        })
    }

    /// The counts that are wanted, over the hits of the query. The state of the view's segments is the last used then; it is made
    /// where none is kept, and the least recently used goes where there are too many. An error also where the view has 2^32
    /// labels or more.
    pub fn counts(
        &mut self,
        alloc: Global,
        prepared: &Prepared,
        wanted: &WantedCounts<'_>,
    ) -> Result<Facets, AllocError>
        requires known { All (KnowsIn self.old) (segments_of prepared.now.view.leaves) }
        requires judged { wanted.now.view ≡ prepared.now.view }
        ensures ok { IfOk result (λ f. IsFacetsAnswer prepared.now.view wanted.now.dimension prepared.now.query wanted.now.count (Ok (Found.facets f))) }
        ensures used { OnOk result (self.new
            ≡ state_used_in (record { segments = segments_of prepared.now.view.leaves; dimension = wanted.now.dimension }) self.old) }
        ensures left { OnErr result ((self.new ≡ self.old) ⊎ (self.new
            ≡ state_used_in (record { segments = segments_of prepared.now.view.leaves; dimension = wanted.now.dimension }) self.old)) }
        ensures known { RemembersOf (segments_of prepared.now.view.leaves) self.old self.new }
        ensures below { RemembersOfBelow (segments_of prepared.now.view.leaves) self.old self.new }
    {
        let mut kept = self.take(alloc, prepared.view(), wanted.dimension())?;
        let facets = kept.state.counts(alloc, prepared, wanted.count());
        self.keep(kept);
        facets
    }

    /// The state of the view's segments in the dimension, which is a facet field: taken out, or made where none is kept.
    fn take(&mut self, alloc: Global, view: &View, dimension: &str) -> Result<KeptState, AllocError>
        requires known { All (KnowsIn self.old) (segments_of view.now.leaves) }
        requires facet { IsDimensionOf view.now dimension.now }
        ensures ok { IfOk result (λ k. k ≡ record { segments = segments_of view.now.leaves; dimension = dimension.now }) }
        ensures others { OnOk result (self.new ≡ others (segment_numbers (segments_of view.now.leaves)) dimension.now self.old) }
        ensures err { OnErr result (self.new ≡ self.old) }
    {
        let numbers = numbers_in(alloc, view.leaves())?;
        if let Some(kept) = self.take_out(&numbers, dimension) {
            return Ok(kept);
        }
        let state = ReaderState::in_facet(alloc, view, dimension)?;
        Ok(KeptState { numbers, state })
    }

    /// Takes out the state of segments of these numbers, in order, in the dimension, if one is kept.
    fn take_out(&mut self, numbers: &[SegNo], dimension: &str) -> Option<KeptState>
        ensures found { result ≡ find (is_kept_as numbers.now dimension.now) self.old }
        ensures others { self.new ≡ others numbers.now dimension.now self.old }
        ensures none { IfNone result (self.new ≡ self.old) }
    {
        let place = place_of(&self.states, numbers, dimension)?;
        Some(self.states.remove(place))
    }

    /// Puts the state last, and takes the first out where there are too many.
    fn keep(&mut self, kept: KeptState)
        ensures { self.new ≡ last_kept (self.old ++ kept ∷ []) }
    {
        if self.states.len() >= MAX_KEPT_STATES {
            self.states.remove(0);
        }
        self.states.push_reserved(kept);
    }
}
