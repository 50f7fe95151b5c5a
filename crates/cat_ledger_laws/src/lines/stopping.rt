//! Maintenance, lines that are stopped, and what they leave.
ghost use Rattle.cat_ledger_laws.specs.lines.StopLaws.{ChoresAnswer, SweepsTell, WarmsTell, StatsTell, StoppedCommitsAnswer, StoppedChoresAnswer, StoppedGetsAnswer, NothingIsLeft, BegunAreLeft, FlushesAreLeft, RoomIsLeft, FlushedAreLeft, EndedAreLeft};

/// What maintenance makes, and tells, answers its line under session 0.
///
/// Lucene's `MergeScheduler` and `IndexFileDeleter`, which nobody asks.
pub fn chores_answer()
    ensures { ChoresAnswer }
{}

/// A sweep is what SWEEP makes, however many files went.
///
/// Lucene's `IndexFileDeleter.deletePendingFiles`.
pub fn sweeps_tell()
    ensures { SweepsTell }
{}

/// WARM may tell any of its news, and changes nothing of the ledger.
///
/// Lucene's `IndexWriter.IndexReaderWarmer`.
pub fn warms_tell()
    ensures { WarmsTell }
{}

/// STAT may tell any numbers, and changes nothing of the ledger.
///
/// Lucene's `IndexWriter.getDocStats`.
pub fn stats_tell()
    ensures { StatsTell }
{}

/// A refusal that a COMMIT may get answers it where a generation was left, whatever of its work was done.
///
/// Lucene's `IndexWriter.commit` throws an `IOException`.
pub fn stopped_commits_answer()
    ensures { StoppedCommitsAnswer }
{}

/// A refusal that maintenance may get answers it, whatever of its work was done.
///
/// Lucene's `MergePolicy.MergeException`.
pub fn stopped_chores_answer()
    ensures { StoppedChoresAnswer }
{}

/// A refusal that a GET may get answers it where its token is held.
///
/// Lucene's `StoredFields.document` throws an `IOException` or a `CorruptIndexException`.
pub fn stopped_gets_answer()
    ensures { StoppedGetsAnswer }
{}

/// A stopped line may leave all as it was.
///
/// Lucene's `IndexWriter.maybeCloseOnTragicEvent` closes the writer instead.
pub fn nothing_is_left()
    ensures { NothingIsLeft }
{}

/// It may leave files that it began.
///
/// Lucene's `IndexFileDeleter.deleteNewFiles` deletes them at once.
pub fn begun_are_left()
    ensures { BegunAreLeft }
{}

/// It may leave a flush that ended, also one of nothing.
///
/// Lucene's `IndexWriter.prepareCommitInternal` leaves a flush that ended before the commit failed.
pub fn flushes_are_left()
    ensures { FlushesAreLeft }
{}

/// It may leave the flush that made room for a PUT.
///
/// Lucene's `DocumentsWriter.preUpdate` flushes before it adds.
pub fn room_is_left()
    ensures { RoomIsLeft }
{}

/// It may leave a flush that ended, and files that it began after it.
///
/// Lucene's `IndexWriter.startCommit`, after whose failure the flushed segments stay.
pub fn flushed_are_left()
    ensures { FlushedAreLeft }
{}

/// It may leave the merge in the making ended.
///
/// Lucene's `OneMerge` that is aborted.
pub fn ended_are_left()
    ensures { EndedAreLeft }
{}
