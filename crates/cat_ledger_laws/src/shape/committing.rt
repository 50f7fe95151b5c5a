//! Commits and snapshots.
ghost use Rattle.cat_ledger_laws.specs.shape.CommitLaws.{CommitsMake, CommitsKeep, SnapsMake, SnapsKeep, UnsnapsMake, UnsnapsKeep, CommitsMayBeSaid, CommitsAreCounted, UsersFit, NamesComeOnce, ListedDiffer, LiveMayBeWritten, LeavingAreCounted, NamesAreBegun};

/// Where the file of a commit of now is written, and one for each live set that has none yet, keeping the commit in memory is a
/// commit of the ledger.
///
/// Lucene's `IndexWriter.commit`, which writes `SegmentInfos`, and live docs of a new generation where a segment lost documents.
pub fn commits_make()
    ensures { CommitsMake }
{}

/// After a commit memory is that of some ledger still.
pub fn commits_keep()
    ensures { CommitsKeep }
{}

/// One snapshot more of the newest commit is one of the ledger, and touches no file.
///
/// Lucene's `SnapshotDeletionPolicy.snapshot`.
pub fn snaps_make()
    ensures { SnapsMake }
{}

/// After a snapshot memory is that of some ledger still.
pub fn snaps_keep()
    ensures { SnapsKeep }
{}

/// A snapshot that is given back is one that the ledger gives back, and touches no file: its commit goes where that was the last
/// one and another commit is the newest, whose live files stay known.
///
/// Lucene's `SnapshotDeletionPolicy.release`, after which the deleter may drop the commit.
pub fn unsnaps_make()
    ensures { UnsnapsMake }
{}

/// After a snapshot was given back memory is that of some ledger still.
pub fn unsnaps_keep()
    ensures { UnsnapsKeep }
{}

/// A commit of now can be said in a file: its numbers fit, and those of its segments differ.
///
/// Lucene's `SegmentInfos.write`.
pub fn commits_may_be_said()
    ensures { CommitsMayBeSaid }
{}

/// Each name has as many users at least as the kept commits have it.
///
/// Lucene's `IndexFileDeleter.incRef` over the files of each `CommitPoint`.
pub fn commits_are_counted()
    ensures { CommitsAreCounted }
{}

/// A count of users fits 64 bits, with two users more: a name is one of each user's once, the generations of commits rise, and
/// at most 64 views are recorded.
///
/// Lucene's `IndexFileDeleter.RefCount` is a counter of 32 bits that nothing bounds.
pub fn users_fit()
    ensures { UsersFit }
{}

/// A commit of now and a view of now name each file once.
///
/// Lucene's `IndexCommit.getFileNames` is a set.
pub fn names_come_once()
    ensures { NamesComeOnce }
{}

/// The segments that the newest commit lists have different numbers.
///
/// Lucene's `SegmentInfos` name each segment once.
pub fn listed_differ()
    ensures { ListedDiffer }
{}

/// The live rows of a segment that gets a new file at a commit can be written: some row is dead, and the numbers fit.
///
/// Lucene's `SegmentCommitInfo.hasDeletions` is asked before `LiveDocsFormat.writeLiveDocs`.
pub fn live_may_be_written()
    ensures { LiveMayBeWritten }
{}

/// Each name has as many users at least as the commits have it that go, whichever go.
///
/// Lucene's `IndexFileDeleter.deleteCommits`, which calls `decRef` on the files of each.
pub fn leaving_are_counted()
    ensures { LeavingAreCounted }
{}

/// The names that a commit begins have its own generation, which no name had before, and the commit uses each of them.
///
/// Lucene's `SegmentInfos.getNextPendingGeneration`.
pub fn names_are_begun()
    ensures { NamesAreBegun }
{}
