//! Calls that serve all sessions, and what they are answered.
ghost use Rattle.std.specs.Prelude.{◌≡◌, ◌⊎◌};
ghost use Rattle.cat_model.specs.Lines.{Said};
ghost use Rattle.cat_model.specs.View.{segments_of};
ghost use Rattle.cat_commands.specs.cat_cached_sets.filters.Known.{Remembers, RemembersBelow, FiltersRemember, FiltersRememberBelow};
ghost use Rattle.cat_commands.specs.cat_ledger.Answering.{AnswersSaid};
ghost use Rattle.cat_commands.specs.cat_ledger.Ledgers.{shape_in};
ghost use Rattle.cat_commands.specs.cat_protocol.replies.Reply.{reply_of};
ghost use Rattle.cat_threads.specs.service.Chores.{answer_told, chore_done, said_by};

use cat_base::{Generation, Refusal, Text};
use cat_commands::cat_cached_sets::filters::Filters;
use cat_commands::cat_ledger::Ledger;
use cat_commands::cat_protocol::replies::{Answer, News};
use cat_commands::ledger as commands;
use cat_directory::{Directory, Shelf};
use std::alloc::Global;

/// A call that serves all sessions: what session 0 may say in a line, which needs no right to a view.
pub enum Chore {
    /// MERGE: a step of the merge that the policy picks. (Lucene: `IndexWriter.maybeMerge`.)
    Merge,
    /// FORCE: a merge of all segments is begun. (Lucene: `IndexWriter.forceMerge(1)`.)
    Force,
    /// WARM: a step of the set that is made for the cache. (Lucene: `LRUQueryCache.cacheImpl`, in one go.)
    Warm,
    /// SWEEP: the files go that nobody needs. (Lucene: `IndexWriter.deleteUnusedFiles`.)
    Sweep,
    /// STAT: how the ledger stands. (Lucene: `IndexWriter.getDocStats`.)
    Stat,
    /// COMMIT: a commit of now with this text. (Lucene: `IndexWriter.commit`.)
    Commit(Text),
    /// NOTE: the text of this commit. (Lucene: `IndexCommit.getUserData`.)
    Note(Generation),
    /// SNAP: a snapshot of the newest commit. (Lucene: `SnapshotDeletionPolicy.snapshot`.)
    Snap,
    /// UNSNAP: a snapshot of this commit is given back. (Lucene: `SnapshotDeletionPolicy.release`.)
    Unsnap(Generation),
    /// PRUNE: views go that nobody holds, but so many of the newest. (Lucene: `SearcherLifetimeManager.prune`.)
    Prune(u64),
    /// FILES of a commit: the names of the files that it needs. (Lucene: `IndexCommit.getFileNames`.)
    Files(Generation),
}

impl Drop for Chore {
    fn drop(self) {
        match self {
            Chore::Commit(text) => drop(text),
            Chore::Merge | Chore::Force | Chore::Warm | Chore::Sweep | Chore::Stat | Chore::Snap =>
                {}
            Chore::Note(_) | Chore::Unsnap(_) | Chore::Prune(_) | Chore::Files(_) => {}
        }
    }
}

/// What came of a worker's chore.
#[derive(Clone, Copy)]
pub(crate) enum Progress {
    /// A merge is done.
    Merged,
    /// Nothing was done: nothing was to be done, or it was refused.
    Idle,
    /// Something else was done.
    Other,
}

/// A chore, and what it was answered. [`Service::maintain`](crate::Service::maintain) alone makes one, and it can't be copied, so
/// who has it is sure that the chore was done.
pub struct Outcome {
    chore: Chore,
    answer: Result<Answer, Refusal>,
}

impl Drop for Outcome {
    fn drop(self) {
        let Outcome { chore, answer } = self;
        drop(chore);
        drop(answer);
    }
}

impl Outcome {
    /// What the chore was answered.
    pub(crate) fn of(chore: Chore, answer: Result<Answer, Refusal>) -> Outcome
        ensures chore { chore_done result ≡ chore }
        ensures answer { answer_told result ≡ answer }
    {
        Outcome { chore, answer }
    }

    /// The answer alone, of which there is no copy.
    pub fn into_answer(self) -> Result<Answer, Refusal>
        ensures { result ≡ answer_told self }
    {
        let Outcome { chore: _, answer } = self;
        answer
    }

    /// Whether it says that a merge is done, whose segment stands in the place of those that it took.
    pub fn is_merged(&self) -> bool {
        matches!(self.answer, Ok(Answer::News(News::Done)))
    }

    /// Whether nothing was done: nothing was to be done, or it was refused.
    pub fn is_idle(&self) -> bool {
        matches!(self.answer, Ok(Answer::News(News::Idle)) | Err(_))
    }

    /// What a worker goes by.
    pub(crate) fn worker_progress(&self) -> Progress {
        if self.is_merged() {
            Progress::Merged
        } else if self.is_idle() {
            Progress::Idle
        } else {
            Progress::Other
        }
    }
}

/// Gives a snapshot of the commit back.
fn unsnapped<D: Directory + Shelf>(
    ledger: &mut Ledger<D>,
    generation: Generation,
) -> Result<Answer, Refusal>
    ensures { AnswersSaid D.bytes 0 (Said.release_snapshot generation) ledger.old (reply_of result) ledger.new }
{
    commands::left_told(ledger.unsnapshot(generation))
}

/// Does the chore, by the call for the line that session 0 would say.
pub(crate) fn answer<D: Directory + Shelf>(
    alloc: Global,
    ledger: &mut Ledger<D>,
    filters: &mut Filters,
    chore: &Chore,
) -> Result<Answer, Refusal>
    ensures answers { AnswersSaid D.bytes 0 (said_by chore.now) ledger.old (reply_of result) ledger.new }
    ensures sets { (Remembers filters.old filters.new × RemembersBelow filters.old filters.new)
        ⊎ ((ledger.new ≡ ledger.old) × FiltersRemember (segments_of (shape_in ledger.old).leaves) filters.old filters.new
        × FiltersRememberBelow (segments_of (shape_in ledger.old).leaves) filters.old filters.new) }
{
    // What makes no cached set and is of no commit is one call.
    let upkeep = match chore {
        Chore::Merge => commands::Chore::Merge,
        Chore::Force => commands::Chore::Force,
        Chore::Sweep => commands::Chore::Sweep,
        Chore::Stat => commands::Chore::Stat,
        Chore::Warm => return commands::warm(ledger, filters, 0),
        Chore::Commit(text) => return commands::number_told(ledger.commit(text.as_str())),
        Chore::Note(generation) => return commands::text_of_commit(alloc, ledger, *generation),
        Chore::Snap => return commands::number_told(ledger.snapshot()),
        Chore::Unsnap(generation) => return unsnapped(ledger, *generation),
        Chore::Prune(count) => return commands::number_told(ledger.prune(*count)),
        Chore::Files(generation) => return commands::files_of_commit(ledger, *generation),
    };
    commands::maintain(alloc, ledger, filters, 0, upkeep)
}
