//! The files that are needed.
ghost use Rattle.cat_ledger_laws.specs.lines.NeededLaws.{NeededFilesStand, NeededNamesStand, PromisedFilesStand};
ghost use Rattle.cat_ledger_laws.specs.lines.HeldLaws.{PromisedAreHeld};
ghost use Rattle.cat_ledger_laws.specs.lines.TriedLaws.{FlushedArePromised, LinesSpareTaken, RefusedAreFound, StandsAreOfRuns, TriedHold, TriedTablesAreFound};

use cat_directory::Holder;

/// Every file that a recorded view or a kept commit needs has a user, and where the device tells of it, it is there with its
/// bytes.
///
/// Lucene's `IndexFileDeleter` promises it by its `RefCount`s; `CheckIndex` looks for it.
pub fn needed_files_stand()
    ensures { NeededFilesStand }
{}

/// So it is with each name that a recorded view or a kept commit needs.
///
/// Lucene's `IndexFileDeleter.exists`.
pub fn needed_names_stand()
    ensures { NeededNamesStand }
{}

/// Whatever run led here, each token that a session holds, each that is recorded, and each commit that is kept has a table in
/// its files: the run's at that token.
///
/// Lucene's `SearcherLifetimeManager.acquire` and `SnapshotDeletionPolicy.snapshot`, which keep the files of a point in time.
pub fn promised_files_stand()
    ensures { PromisedFilesStand }
{}

/// So, in the model's words: the directory holds a view of each token and each commit that the run promises.
///
/// Lucene's `DirectoryReader.open` of an `IndexCommit`, which finds the table again.
pub fn promised_are_held()
    ensures { PromisedAreHeld }
{}

/// The files of a commit that was tried hold it, with the table of then, once its own file is whole: as if it had been answered.
///
/// Lucene's `DirectoryReader.open` of a commit whose `IndexWriter.commit` failed in its last call.
pub fn tried_hold()
    ensures { TriedHold }
{}

/// Whatever a crash leaves, the commit and the table that are held under the generation of one that was tried are that commit and the table of
/// then.
///
/// Lucene's `DirectoryReader.open`, which finds the last commit or one that was on its way.
pub fn tried_tables_are_found<D: Holder>()
    ensures { TriedTablesAreFound D.may_leave }
{}

/// A line spares what was tried: it writes to no file whose number was taken, but to those of the merge in the making, and gives no number out again.
///
/// Lucene writes each file once.
pub fn lines_spare_taken<D: Holder>()
    ensures { LinesSpareTaken D.may_leave }
{}

/// What memory stands for behind the past of a run is the run's: the number of writes, and the table at it, whatever comes later.
///
/// Lucene's point in time of an `IndexCommit`.
pub fn stands_are_of_runs()
    ensures { StandsAreOfRuns }
{}

/// A COMMIT that flushes what waits, and is refused behind its sync, promises its commit of every ledger that was carried before it: with the
/// number of writes, and the table.
///
/// Lucene's `IndexWriter.prepareCommit`, which flushes first.
pub fn flushed_are_promised()
    ensures { FlushedArePromised }
{}

/// Whatever a crash leaves, the commit of a COMMIT that was refused is found with its text, the number of writes before it, and the run's table at
/// that.
///
/// Lucene's `DirectoryReader.open`, which finds the last commit or one that was on its way.
pub fn refused_are_found<D: Holder>()
    ensures { RefusedAreFound D.may_leave }
{}
