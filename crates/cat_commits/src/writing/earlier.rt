//! What the newest commit lists of a segment, found by the segment's number, and what the next commit lists then.
ghost use Rattle.std.specs.Prelude.{◌≡◌, ◌≢◌, ◌↔◌, ◌<◌, ◌≤◌, ◌==◌, ℕ, length, cond, nat_eq, option_map, unwrap_or, AllPairs, IfOk, IfSome, IsTrue};
ghost use Rattle.std.specs.Arc.{arc_value};
ghost use Rattle.std.specs.HashMap.{get};
ghost use Rattle.cat_model.specs.Limits.{row_limit};
ghost use Rattle.cat_ledger_laws.specs.model.Calls.{same_live};
ghost use Rattle.cat_commits.specs.writing.Entries.{index_of, entry_of, file_beside, listed_after};

use crate::ListedSegment;
use cat_base::{Generation, SegNo};
use cat_views::Leaf;
use cat_views::cat_segment::Live;
use std::alloc::{AllocError, Global};
use std::collections::HashMap;
use std::marker::Model;
use std::sync::Arc;

/// A segment as a commit lists it, with the live set that it had then, which is shared with the leaf that it comes from.
/// (Lucene: a `SegmentCommitInfo`, beside the live documents that a `ReadersAndUpdates` has written.)
#[derive(Drop)]
pub(crate) struct Listed {
    segment: ListedSegment,
    live: Arc<Live>,
}

impl Model for Listed {
    ghost use Rattle.std.specs.Arc.{arc_value};
    ghost use Rattle.cat_ledger_laws.specs.shape.Shapes as shape;

    ghost Value = { shape.ListedLive };

    ghost view = { λ x. record { number = x.segment.number; live = arc_value x.live; file = x.segment.file } };
}

impl Listed {
    /// What is listed of the segment, with the leaf's live set.
    pub(crate) fn of(segment: ListedSegment, leaf: &Leaf) -> Result<Self, AllocError>
        ensures { IfOk result (λ x. x ≡ record { number = segment.number; live = leaf.now.live; file = segment.file }) }
    {
        Ok(Listed {
            segment,
            live: leaf.share_live()?,
        })
    }

    /// The segment and its live file.
    pub(crate) fn segment(&self) -> ListedSegment
        ensures { result ≡ record { number = self.now.number; file = self.now.file } }
    {
        self.segment
    }

    /// Whether the commit of the generation writes its live file.
    pub(crate) fn is_new(&self, generation: Generation) -> bool
        requires { 0 < generation }
        ensures { result ≡ (self.now.file == generation) }
    {
        self.segment.live_file() == Some(generation)
    }

    /// Which of its rows were live.
    pub(crate) fn live(&self) -> &Live
        ensures { result.now ≡ self.now.live }
    {
        &self.live
    }
}

/// Where each number stands among the entries, whose numbers differ.
pub(crate) fn indices_of(
    alloc: Global,
    entries: &[Listed],
) -> Result<HashMap<SegNo, usize>, AllocError>
    requires { AllPairs (λ a b. a.number ≢ b.number) entries.now }
    ensures { IfOk result (λ indices. (n : ℕ) → get nat_eq indices n ≡ index_of n entries.now) }
{
    let mut indices = HashMap::with_capacity(alloc, entries.len())?;
    for (index, entry) in entries.iter().enumerate() {
        indices.insert(entry.segment().number(), index)?;
    }
    Ok(indices)
}

/// The entry of the number, which takes one look.
pub(crate) fn find<'a>(
    entries: &'a [Listed],
    indices: &HashMap<SegNo, usize>,
    number: SegNo,
) -> Option<&'a Listed>
    requires { (n : ℕ) → get nat_eq indices.now n ≡ index_of n entries.now }
    ensures { option_map (λ x. x.now) result ≡ entry_of number entries.now }
{
    let index = indices.get(&number).copied()?;
    Some(&entries[index])
}

/// Whether the live sets are equal. They are compared by words, up to the first that differ.
fn same_rows(one: &Live, other: &Live) -> bool
    ensures { IsTrue result ↔ (one.now ≡ other.now) }
{
    *one == *other
}

/// The commit whose live file has these rows: the one that is listed, where they are what was listed and there is one, else
/// the next one.
fn kept_or(listed: &Listed, live: &Live, generation: Generation) -> Generation
    requires { 0 < generation }
    ensures file { result ≡ cond (same_live listed.now.live live.now) (cond (listed.now.file == 0) generation listed.now.file) generation }
    ensures some { 0 < result }
{
    if !same_rows(listed.live(), live) {
        return generation;
    }
    listed.segment().live_file().unwrap_or(generation)
}

/// The commit whose live file has the leaf's live set, where this is listed of its segment: none where all rows are live.
fn live_file_of(earlier: Option<&Listed>, leaf: &Leaf, generation: Generation) -> Option<Generation>
    requires { 0 < generation }
    ensures file { unwrap_or result 0 ≡ file_beside (option_map (λ x. x.now) earlier.entry) generation leaf.now }
    ensures some { IfSome result (λ d. 0 < d) }
    ensures rows { (1 ≤ length leaf.now.live) × (length leaf.now.live ≤ row_limit) }
{
    let live = leaf.live();
    if live.count() == leaf.segment().len() {
        return None;
    }
    match earlier {
        None => Some(generation),
        Some(listed) => Some(kept_or(listed, live, generation)),
    }
}

/// What the commit of the generation lists of the leaf, where the one before it has these entries.
pub(crate) fn listed_next(
    entries: &[Listed],
    indices: &HashMap<SegNo, usize>,
    leaf: &Leaf,
    generation: Generation,
) -> Result<Listed, AllocError>
    requires apart { AllPairs (λ a b. a.number ≢ b.number) entries.now }
    requires indexed { (n : ℕ) → get nat_eq indices.now n ≡ index_of n entries.now }
    requires some { 0 < generation }
    ensures ok { IfOk result (λ x. x ≡ listed_after entries.now generation leaf.now) }
    ensures rows { (1 ≤ length leaf.now.live) × (length leaf.now.live ≤ row_limit) }
{
    let number = leaf.segment().number();
    let earlier = find(entries, indices, number);
    let live_file = live_file_of(earlier, leaf, generation);
    Listed::of(ListedSegment::new(number, live_file), leaf)
}
