//! Refusals that change nothing.
ghost use Rattle.cat_ledger_laws.specs.lines.RefusalLaws.{FaultsAnswer, SpentWritesAnswer, SpentCommitsAnswer, FullRefreshesAnswer, CommitlessSnapsAnswer, SpentSnapsAnswer, SnaplessUnsnapsAnswer, ForeignChoresAnswer};

/// A command whose text has a fault is refused for it.
///
/// Lucene's `QueryParser` throws a `ParseException`, and its fields an `IllegalArgumentException`.
pub fn faults_answer()
    ensures { FaultsAnswer }
{}

/// A write is refused where no number is left for it.
///
/// Lucene's `IndexWriter` has no such bound on its sequence numbers; ours is of the protocol.
pub fn spent_writes_answer()
    ensures { SpentWritesAnswer }
{}

/// A COMMIT is refused where no generation is left, before it does anything.
///
/// Lucene's `SegmentInfos.getNextPendingGeneration` has no such bound.
pub fn spent_commits_answer()
    ensures { SpentCommitsAnswer }
{}

/// A REFRESH is refused where as many views stand as may, each of them is held, and none is of now.
///
/// Lucene's `SearcherLifetimeManager` has no such bound.
pub fn full_refreshes_answer()
    ensures { FullRefreshesAnswer }
{}

/// A SNAP is refused where there is no commit.
///
/// Lucene's `SnapshotDeletionPolicy.snapshot` throws an `IllegalStateException` ("No index commit to snapshot").
pub fn commitless_snaps_answer()
    ensures { CommitlessSnapsAnswer }
{}

/// A SNAP is refused where the newest commit has as many snapshots as it may.
///
/// Lucene's `SnapshotDeletionPolicy` has no such bound.
pub fn spent_snaps_answer()
    ensures { SpentSnapsAnswer }
{}

/// An UNSNAP is refused of a commit without snapshots.
///
/// Lucene's `SnapshotDeletionPolicy.release` throws an `IllegalArgumentException`.
pub fn snapless_unsnaps_answer()
    ensures { SnaplessUnsnapsAnswer }
{}

/// Maintenance that another session than 0 asks for is refused as a line without form.
///
/// Lucene has no sessions; ours is of the protocol.
pub fn foreign_chores_answer()
    ensures { ForeignChoresAnswer }
{}
