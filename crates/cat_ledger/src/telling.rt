//! What a ledger tells of itself, which changes nothing.
//!
//! Lucene's `IndexWriter.getDocStats` and `numRamDocs`, `SegmentReader.maxDoc` and `numDocs`, and an `IndexCommit`'s `getUserData` and
//! `getFileNames`.
ghost use Rattle.cat_model.specs.CommitFile.{CommitFile, commit_needs};
ghost use Rattle.std.specs.Prelude.{IfErr, IfOk, None, Some, map, ◌≡◌, ◌⊎◌};
ghost use Rattle.cat_ledger.specs.Stats.{IsStatOf, segment_stat};
ghost use Rattle.cat_base.specs.declared.refusal.Refusal.TheVariants.{Memory, NoCommit};
ghost use Rattle.cat_ledger_laws.specs.lines.ReadLaws.{kept_under};
ghost use Rattle.cat_directory.specs.Names.{name_of};
ghost use Rattle.cat_ledger.specs.Ledgers.{shape_in};

use crate::ledger::Ledger;
use cat_base::{Generation, Refusal, SegNo, WriteNo};
use cat_directory::{Directory, FileName, Shelf};
use cat_ledger_state::Leaf;
use std::alloc::{AllocError, Global};

/// A segment that stands, as [`Ledger::stat`] tells of it.
#[derive(Clone, Copy)]
pub struct SegmentStat {
    /// Its number.
    pub number: SegNo,
    /// How many rows it has, deleted ones too.
    pub rows: usize,
    /// How many of them are live.
    pub live: usize,
}

/// What a ledger tells of itself.
#[derive(Drop)]
pub struct Stat {
    /// How many writes were accepted.
    pub writes: WriteNo,
    /// How many items wait for a flush.
    pub buffered: usize,
    /// How many views are recorded.
    pub views: usize,
    /// How many files are pending.
    pub pending: u64,
    /// The segments that stand, in order.
    pub segments: Vec<SegmentStat>,
}

/// What is told of the segments.
fn segments_of(alloc: Global, leaves: &[Leaf]) -> Result<Vec<SegmentStat>, AllocError>
    ensures { IfOk result (λ v. v.items ≡ map segment_stat leaves.now) }
{
    let mut segments = Vec::with_capacity(alloc, leaves.len())?;
    for leaf in leaves {
        segments.push(SegmentStat {
            number: leaf.segment().number(),
            rows: leaf.segment().len(),
            live: leaf.live().count(),
        })?;
    }
    Ok(segments)
}

impl<D: Directory + Shelf> Ledger<D> {
    /// How many writes were accepted, items wait, views are recorded and files are pending; and the segments that stand.
    pub fn stat(&self) -> Result<Stat, AllocError>
        ensures { IfOk result (IsStatOf (shape_in self.now)) }
    {
        let segments = segments_of(self.alloc, self.core.leaves())?;
        Ok(Stat {
            writes: self.core.count(),
            buffered: self.core.waiting(),
            views: self.core.recorded(),
            pending: self.core.pending(),
            segments,
        })
    }

    /// The text of a kept commit.
    ///
    /// [`Refusal::NoCommit`] where none of the generation is kept. It takes no memory.
    pub fn commit_note(&self, generation: Generation) -> Result<&str, Refusal>
        ensures ok { IfOk result (λ text. (c : CommitFile) × (kept_under (shape_in self.now).commits generation ≡ Some c) × (text.now ≡ c.text)) }
        ensures none { IfErr result (λ e. (e ≡ NoCommit) × (kept_under (shape_in self.now).commits generation ≡ None)) }
    {
        match self.core.commit_at(generation) {
            Some(commit) => Ok(commit.text.as_str()),
            None => Err(Refusal::NoCommit),
        }
    }

    /// The names of the files that a kept commit needs, its own first: a copy of these, with the same schema, opens at it.
    ///
    /// [`Refusal::NoCommit`] where none of the generation is kept; else [`Refusal::Memory`].
    pub fn commit_files(&self, generation: Generation) -> Result<Vec<FileName>, Refusal>
        ensures ok { IfOk result (λ names. (c : CommitFile) × (kept_under (shape_in self.now).commits generation ≡ Some c)
            × (map name_of names.items ≡ commit_needs c)) }
        ensures none { IfErr result (λ e. e ≡ NoCommit → kept_under (shape_in self.now).commits generation ≡ None) }
        ensures due { IfErr result (λ e. e ≡ Memory → (c : CommitFile) × (kept_under (shape_in self.now).commits generation ≡ Some c)) }
        ensures refusal { IfErr result (λ e. (e ≡ NoCommit) ⊎ (e ≡ Memory)) }
    {
        match self.core.commit_at(generation) {
            Some(commit) => match commit.names() {
                Ok(names) => Ok(names),
                Err(AllocError) => Err(Refusal::Memory),
            },
            None => Err(Refusal::NoCommit),
        }
    }
}
