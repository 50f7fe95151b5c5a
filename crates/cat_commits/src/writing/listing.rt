//! What a commit lists of the segments.
ghost use Rattle.std.specs.Prelude.{◌≡◌, ◌≢◌, ◌<◌, ◌≤◌, ℕ, [], ◌++◌, length, map, nat_eq, AllPairs, All, IfOk, OnOk};
ghost use Rattle.std.specs.HashMap.{get};
ghost use Rattle.cat_model.specs.Limits.{row_limit};
ghost use Rattle.cat_ledger_laws.specs.shape.OpeningLaws.{listed_with};
ghost use Rattle.cat_directory.specs.Names.{name_of};
ghost use Rattle.cat_commits.specs.writing.Entries.{index_of, listing_after};
ghost use Rattle.cat_commits.specs.writing.Unsynced.{new_live_of, unsynced_segment, unsynced_in};

use crate::ListedSegment;
use crate::writing::earlier::{Listed, indices_of, listed_next};
use cat_base::{Generation, SegNo};
use cat_directory::FileName;
use cat_views::Leaf;
use std::alloc::{AllocError, Global};
use std::collections::HashMap;
use std::marker::Model;

/// What a commit lists: of each segment its number, which of its rows were live then, and the commit that wrote the file of
/// these. From it the next commit knows which live files it can keep. (Lucene: the `SegmentCommitInfo`s of a `SegmentInfos`.)
///
/// Contracts see it as the list of these, 0 standing for no live file.
pub struct Listing {
    entries: Vec<Listed>,
}

impl Model for Listing {
    ghost use Rattle.std.specs.Prelude.{List};
    ghost use Rattle.cat_ledger_laws.specs.shape.Shapes as shape;

    ghost Value = { List shape.ListedLive };

    ghost view = { λ l. l.entries.items };
}

impl Drop for Listing {
    fn drop(self) {
        let Listing { entries } = self;
        drop(entries);
    }
}

impl Listing {
    /// Where no commit is. What it holds is taken from the allocator.
    pub fn new(alloc: Global) -> Self
        ensures { result ≡ [] }
    {
        Listing {
            entries: Vec::new(alloc),
        }
    }

    /// What a commit that was read lists: its segments in order, each with the live set of its leaf, which is shared.
    pub fn of(
        alloc: Global,
        segments: &[ListedSegment],
        leaves: &[Leaf],
    ) -> Result<Self, AllocError>
        ensures { IfOk result (λ l. l ≡ listed_with segments.now leaves.now) }
    {
        Ok(Listing {
            entries: entries_of(alloc, segments, leaves)?,
        })
    }

    /// What the commit of the generation lists of the leaves, after the one that lists this. A leaf whose rows are all live
    /// has no live file; one whose live set is what was listed keeps the file of that; and each other gets a new one, of the
    /// generation. Live sets are shared. With it come the names of the files that may not last yet: those of each segment that
    /// isn't listed here, and each new live file. (Lucene: `ReadersAndUpdates.writeLiveDocs`, as `IndexWriter.prepareCommit` has
    /// it.)
    ///
    /// It takes one look for each leaf, and compares its live set with what was listed, up to the first words that differ.
    pub(crate) fn next_with_unsynced(
        &self,
        leaves: &[Leaf],
        generation: Generation,
    ) -> Result<(Self, Vec<FileName>), AllocError>
        requires apart { AllPairs (λ a b. a.number ≢ b.number) self.now }
        requires some { 0 < generation }
        ensures ok { IfOk result (λ p. p.0 ≡ listing_after self.now generation leaves.now) }
        ensures rows { OnOk result (All (λ leaf. (1 ≤ length leaf.live) × (length leaf.live ≤ row_limit)) leaves.now) }
        ensures unsynced { IfOk result (λ p. map name_of p.1.items ≡ unsynced_in self.now generation p.0) }
    {
        let alloc = *self.entries.allocator();
        let indices = indices_of(alloc, &self.entries)?;
        let entries = entries_next(alloc, &self.entries, &indices, leaves, generation)?;
        let unsynced = unsynced_names(alloc, &self.entries, &indices, &entries, generation)?;
        Ok((Listing { entries }, unsynced))
    }

    /// What it lists, in order.
    pub(crate) fn entries(&self) -> &[Listed]
        ensures { result.now ≡ self.now }
    {
        &self.entries
    }

    /// The segments, as a commit's file says them.
    pub fn segments(&self) -> Result<Vec<ListedSegment>, AllocError>
        ensures { IfOk result (λ s. s.items ≡ map (λ x. record { number = x.number; file = x.file }) self.now) }
    {
        segments_of(*self.entries.allocator(), &self.entries)
    }
}

/// The entries of segments and their leaves, as many as there are of both.
fn entries_of(
    alloc: Global,
    segments: &[ListedSegment],
    leaves: &[Leaf],
) -> Result<Vec<Listed>, AllocError>
    ensures { IfOk result (λ entries. entries.items ≡ listed_with segments.now leaves.now) }
{
    let count = segments.len().min(leaves.len());
    let mut entries = Vec::with_capacity(alloc, count)?;
    for index in 0..count {
        entries.push(Listed::of(segments[index], &leaves[index])?)?;
    }
    Ok(entries)
}

/// The segments of the entries.
fn segments_of(alloc: Global, entries: &[Listed]) -> Result<Vec<ListedSegment>, AllocError>
    ensures { IfOk result (λ s. s.items ≡ map (λ x. record { number = x.number; file = x.file }) entries.now) }
{
    let mut segments = Vec::with_capacity(alloc, entries.len())?;
    for entry in entries {
        segments.push(entry.segment())?;
    }
    Ok(segments)
}

/// The names of the files of these entries that may not last yet, where the commit before lists those.
fn unsynced_names(
    alloc: Global,
    earlier: &[Listed],
    indices: &HashMap<SegNo, usize>,
    entries: &[Listed],
    generation: Generation,
) -> Result<Vec<FileName>, AllocError>
    requires indexed { (n : ℕ) → get nat_eq indices.now n ≡ index_of n earlier.now }
    requires some { 0 < generation }
    ensures { IfOk result (λ names. map name_of names.items ≡ unsynced_in earlier.now generation entries.now) }
{
    let mut names = Vec::new(alloc);
    for entry in entries {
        let listed = indices.contains_key(&entry.segment().number());
        push_unsynced(&mut names, entry, listed, generation)?;
    }
    Ok(names)
}

/// Appends the names of the files of the entry that may not last yet.
fn push_unsynced(
    names: &mut Vec<FileName>,
    entry: &Listed,
    listed: bool,
    generation: Generation,
) -> Result<(), AllocError>
    requires { 0 < generation }
    ensures { OnOk result (map name_of names.new.items
        ≡ map name_of names.old.items ++ (unsynced_segment listed entry.now ++ new_live_of generation entry.now)) }
{
    let segment = entry.segment();
    if !listed {
        names.push(FileName::Segment(segment.number()))?;
        names.push(FileName::Source(segment.number()))?;
    }
    if entry.is_new(generation) {
        names.push(FileName::Live(segment.number(), generation))?;
    }
    Ok(())
}

/// The entries of the commit of the generation, which lists these leaves, after one that has these.
fn entries_next(
    alloc: Global,
    earlier: &[Listed],
    indices: &HashMap<SegNo, usize>,
    leaves: &[Leaf],
    generation: Generation,
) -> Result<Vec<Listed>, AllocError>
    requires apart { AllPairs (λ a b. a.number ≢ b.number) earlier.now }
    requires indexed { (n : ℕ) → get nat_eq indices.now n ≡ index_of n earlier.now }
    requires some { 0 < generation }
    ensures ok { IfOk result (λ entries. entries.items ≡ listing_after earlier.now generation leaves.now) }
    ensures rows { OnOk result (All (λ leaf. (1 ≤ length leaf.live) × (length leaf.live ≤ row_limit)) leaves.now) }
{
    let mut entries = Vec::with_capacity(alloc, leaves.len())?;
    for leaf in leaves {
        entries.push(listed_next(earlier, indices, leaf, generation)?)?;
    }
    Ok(entries)
}
