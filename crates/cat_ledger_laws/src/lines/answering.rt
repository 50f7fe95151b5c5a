//! Replies to lines.
ghost use Rattle.cat_ledger_laws.specs.lines.LineLaws.{CallsAnswer, PutsAnswer, DeletesAnswer, QueryDeletesAnswer, RefreshesAnswer, PrunesAnswer, CommitsAnswer, SnapsAnswer, UnsnapsAnswer, MemoryAnswers, StoppedPutsAnswer, StoppedRefreshesAnswer};

/// What the model's calls for a line make of each ledger that memory carries answers the line.
///
/// Lucene has no lines; ours is what a service promises.
pub fn calls_answer()
    ensures { CallsAnswer }
{}

/// An item that is put, after a flush where the buffer is full, answers its line with its number.
///
/// Lucene's `IndexWriter.updateDocument`, which answers a sequence number.
pub fn puts_answer()
    ensures { PutsAnswer }
{}

/// A delete of an id answers its line with its number.
///
/// Lucene's `IndexWriter.deleteDocuments(Term)`.
pub fn deletes_answer()
    ensures { DeletesAnswer }
{}

/// A delete by a query answers its line with its number.
///
/// Lucene's `IndexWriter.deleteDocuments(Query)`.
pub fn query_deletes_answer()
    ensures { QueryDeletesAnswer }
{}

/// A view of now that is recorded, after a flush of what waits, answers a REFRESH with its token.
///
/// Lucene's `SearcherLifetimeManager.record`.
pub fn refreshes_answer()
    ensures { RefreshesAnswer }
{}

/// Views that are pruned answer a PRUNE with how many went.
///
/// Lucene's `SearcherLifetimeManager.prune`.
pub fn prunes_answer()
    ensures { PrunesAnswer }
{}

/// A commit of now, after a flush of what waits, answers a COMMIT with its generation.
///
/// Lucene's `IndexWriter.commit`.
pub fn commits_answer()
    ensures { CommitsAnswer }
{}

/// A snapshot answers a SNAP with the generation of the newest commit.
///
/// Lucene's `SnapshotDeletionPolicy.snapshot`.
pub fn snaps_answer()
    ensures { SnapsAnswer }
{}

/// A snapshot that is given back answers an UNSNAP with how many are left.
///
/// Lucene's `SnapshotDeletionPolicy.release`.
pub fn unsnaps_answer()
    ensures { UnsnapsAnswer }
{}

/// Want of memory answers each line that is looked at, whatever of its work was done.
///
/// Lucene's `OutOfMemoryError` closes the writer; that it goes on is our own.
pub fn memory_answers()
    ensures { MemoryAnswers }
{}

/// A refusal that a PUT may get answers it where a number was left, whatever of its work was done.
///
/// Lucene's `IndexWriter` throws an `IOException`.
pub fn stopped_puts_answer()
    ensures { StoppedPutsAnswer }
{}

/// A refusal that a REFRESH may get answers it where a view of now might stand, whatever of its work was done.
///
/// Lucene's `DirectoryReader.openIfChanged` throws an `IOException`.
pub fn stopped_refreshes_answer()
    ensures { StoppedRefreshesAnswer }
{}
