//! The ledger as a model: the one state of the catalogue, and the laws about what each call makes of it. A ledger in code has
//! to make each call as `Calls` says; that its replies are those of a run then follows from `calls_keep_runs`.

ghost use Rattle.cat_ledger_laws.specs.model.Laws.{CommitsNeedTheirNames, UsedMayBeNamed, CommitsMayBeWritten, SettledAreMerged, CallsKeepRuns, RefusalsStore, ViewsAreRead, PortionsAreRead, OpenedStore, EmptyAreFresh, SchemasStay, UsersAreCounted, KeptCommitsOpen, WholeAreViews, KeptMayStand, CallsAreSteps, SweepsSpare, EndsStore, MergesStore, CopiesStore, BegunStore, UnsnapsStore, CommitsStore, PrunesStore, RecordsStore, FlushesStore, WritesStore, FilesStay, HoldsAreApart, RefusalsChangeNoState, EndsChangeNoState, CopiesChangeNoState, BegunChangeNoState, OpenedAreFresh, SnapshotsAreGiven, SnapshotsAreTaken, CommitsAreKept, ViewsArePruned, ViewsAreRecorded, WritesAreWritten, FlushesChangeNoState, MergesChangeNoState};
ghost use Rattle.cat_ledger_laws.specs.model.Taking.{CallsTakeOn};

/// A merge that is installed leaves the table, each view and each commit as they were, whatever was
/// deleted since it began.
///
/// Lucene's `IndexWriter.commitMerge` carries deletes that came meanwhile over to the merged segment.
pub fn merges_change_no_state()
    ensures { MergesChangeNoState }
{}

/// A flush leaves the table, each view and each commit as they were, and no record that waits.
///
/// A flush of Lucene's `IndexWriter` changes nothing that a reader of it sees, either.
pub fn flushes_change_no_state()
    ensures { FlushesChangeNoState }
{}

/// A write that is accepted makes of the table the table after it, and changes nothing else that shows.
///
/// Lucene's `IndexWriter.updateDocument` deletes the documents of a term and then adds the new one.
pub fn writes_are_written()
    ensures { WritesAreWritten }
{}

/// Recording the view of now keeps each held view, and takes and gives its names.
///
/// Lucene's `SearcherLifetimeManager.record`; that a held view isn't dropped is our own.
pub fn views_are_recorded()
    ensures { ViewsAreRecorded }
{}

/// Pruning keeps each held view, and gives the names of those that go.
///
/// Lucene's `SearcherLifetimeManager.prune`, which drops views in use too; here it doesn't.
pub fn views_are_pruned()
    ensures { ViewsArePruned }
{}

/// A commit of now is kept, and commits without a snapshot that are no longer the newest go.
///
/// Lucene's `IndexWriter.commit` under a `SnapshotDeletionPolicy` over `KeepOnlyLastCommitDeletionPolicy`.
pub fn commits_are_kept()
    ensures { CommitsAreKept }
{}

/// A snapshot changes nothing but the count of snapshots.
///
/// Lucene's `SnapshotDeletionPolicy.snapshot`.
pub fn snapshots_are_taken()
    ensures { SnapshotsAreTaken }
{}

/// A snapshot that is given back lets its commit go, where that was the last one and another is the newest.
///
/// Lucene's `SnapshotDeletionPolicy.release`, after which the deleter may drop the commit.
pub fn snapshots_are_given()
    ensures { SnapshotsAreGiven }
{}

/// A ledger that is opened at a whole commit has its table, one view, no hold and no snapshot.
///
/// Lucene's `IndexWriter` opens at the newest commit of its directory.
pub fn opened_are_fresh()
    ensures { OpenedAreFresh }
{}

/// A merge that is begun changes nothing that shows.
///
/// Lucene's `IndexWriter.registerMerge` only notes which segments are being merged.
pub fn begun_change_no_state()
    ensures { BegunChangeNoState }
{}

/// A copy step changes nothing that shows.
///
/// That a merge is made in steps between lines is our own; Lucene merges in threads of its own.
pub fn copies_change_no_state()
    ensures { CopiesChangeNoState }
{}

/// A refused merge step ends the merge and changes nothing that shows.
///
/// Lucene's `OneMerge` that is aborted leaves the segments as they were.
pub fn ends_change_no_state()
    ensures { EndsChangeNoState }
{}

/// A refusal that leaves begun files and taken numbers behind changes nothing that shows; nor does a sweep.
///
/// Lucene's `IndexWriter` closes itself after some failures; that it goes on is our own.
pub fn refusals_change_no_state()
    ensures { RefusalsChangeNoState }
{}

/// Holds concern the views alone.
///
/// Lucene's `SearcherLifetimeManager.acquire` and `release`.
pub fn holds_are_apart()
    ensures { HoldsAreApart }
{}

/// Every file that is needed is there, where each name that is used keeps its file.
///
/// Lucene's `IndexFileDeleter` deletes no file that has a reference.
pub fn files_stay()
    ensures { FilesStay }
{}

/// A write needs no file.
pub fn writes_store()
    ensures { WritesStore }
{}

/// After a flush every file that is needed is there.
pub fn flushes_store()
    ensures { FlushesStore }
{}

/// After a view was recorded every file that is needed is there.
pub fn records_store()
    ensures { RecordsStore }
{}

/// After views were pruned every file that is needed is there.
pub fn prunes_store()
    ensures { PrunesStore }
{}

/// After a commit every file that is needed is there, those of live sets too.
pub fn commits_store()
    ensures { CommitsStore }
{}

/// After a snapshot was given back every file that is needed is there.
pub fn unsnaps_store()
    ensures { UnsnapsStore }
{}

/// After a merge was begun every file that is needed is there.
pub fn begun_store()
    ensures { BegunStore }
{}

/// After a copy step every file that is needed is there.
pub fn copies_store()
    ensures { CopiesStore }
{}

/// After a merge was installed every file that is needed is there.
pub fn merges_store()
    ensures { MergesStore }
{}

/// After a merge was ended every file that is needed is there.
pub fn ends_store()
    ensures { EndsStore }
{}

/// A sweep that leaves names with users leaves every file that is needed.
///
/// Lucene's `IndexFileDeleter` deletes the files whose `RefCount` is 0.
pub fn sweeps_spare()
    ensures { SweepsSpare }
{}

/// The ledger's calls for a line leave it sound, and are a step of the service.
pub fn calls_are_steps()
    ensures { CallsAreSteps }
{}

/// The records that a merge kept may stand in one segment.
pub fn kept_may_stand()
    ensures { KeptMayStand }
{}

/// Portions that are a table are a view that shows it.
///
/// Lucene's `StandardDirectoryReader` is opened over the `SegmentInfos` of a commit or of the writer.
pub fn whole_are_views()
    ensures { WholeAreViews }
{}

/// A ledger that is opened at a kept commit has the table of that commit.
///
/// Lucene's `DirectoryReader.open(IndexCommit)`.
pub fn kept_commits_open()
    ensures { KeptCommitsOpen }
{}

/// The count of a name is the number of users that have it.
///
/// Lucene's `IndexFileDeleter.RefCount`.
pub fn users_are_counted()
    ensures { UsersAreCounted }
{}

/// No call changes the fields.
pub fn schemas_stay()
    ensures { SchemasStay }
{}

/// A ledger that is opened where no commit is has no records.
pub fn empty_are_fresh()
    ensures { EmptyAreFresh }
{}

/// The files of a commit are those that a ledger needs that is opened at it.
pub fn opened_store()
    ensures { OpenedStore }
{}

/// The rows of a portion with the bytes of its sources are its records.
///
/// Lucene's `StoredFields` of a segment.
pub fn portions_are_read()
    ensures { PortionsAreRead }
{}

/// The records of a view over those bytes are the live records of its portions.
///
/// Lucene's `StoredFields` of a reader.
pub fn views_are_read()
    ensures { ViewsAreRead }
{}

/// After a refusal every file that is needed is there.
pub fn refusals_store()
    ensures { RefusalsStore }
{}

/// The reply to a line fits the run that the ledger's state stands for, and its state then stands for the longer run.
pub fn calls_keep_runs()
    ensures { CallsKeepRuns }
{}

/// The names that a commit uses are those that its file needs.
///
/// Lucene's `IndexCommit.getFileNames`.
pub fn commits_need_their_names()
    ensures { CommitsNeedTheirNames }
{}

/// Every name that is used is one that a file can have.
///
/// Lucene's `IndexFileNames` are made of a segment's number or a generation, which count from 0 there, and from 1 here.
pub fn used_may_be_named()
    ensures { UsedMayBeNamed }
{}

/// A commit of now can be said in a file: its numbers fit, and those of its segments differ.
///
/// Lucene's `SegmentInfos` are written by `IndexWriter.commit`.
pub fn commits_may_be_written()
    ensures { CommitsMayBeWritten }
{}

/// What a merge installs is the merged leaf of its inputs, as they were when it began and as they are now.
///
/// Lucene's `IndexWriter.commitMerge`.
pub fn settled_are_merged()
    ensures { SettledAreMerged }
{}

/// No call gives a number of a segment or of a commit out twice, and a merge in the making keeps its number.
///
/// Lucene's `SegmentInfos.counter` and `SegmentInfos.getNextPendingGeneration`.
pub fn calls_take_on()
    ensures { CallsTakeOn }
{}
