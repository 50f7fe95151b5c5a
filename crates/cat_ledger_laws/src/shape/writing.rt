//! Writes, flushes, refusals and sweeps.
ghost use Rattle.cat_ledger_laws.specs.shape.WriteLaws.{WritesMake, WritesKeep, FlushesMake, FlushesKeep, RefusalsMake, RefusalsKeep, SweepsMake, FlushedMayStand, WritesAreNewest, IdsStandOnce, NumbersMayBeTaken};

/// A write that is accepted makes of memory what the write makes of the ledger, and needs no file.
///
/// Lucene's `IndexWriter.updateDocument` and `deleteDocuments`, which mark documents of older segments as deleted.
pub fn writes_make()
    ensures { WritesMake }
{}

/// After a write memory is that of some ledger still.
pub fn writes_keep()
    ensures { WritesKeep }
{}

/// Where the files of a new segment are written, with the sources of its rows, a flush of memory is one of the ledger.
///
/// Lucene's `DocumentsWriter.flush`, whose segment is written whole before `IndexWriter.publishFlushedSegment` adds it.
pub fn flushes_make()
    ensures { FlushesMake }
{}

/// After a flush memory is that of some ledger still.
pub fn flushes_keep()
    ensures { FlushesKeep }
{}

/// What a refused call leaves, which are names that were begun under new numbers, changes nothing of the ledger that shows.
///
/// Lucene's `IndexFileDeleter.deleteNewFiles` after a flush that failed; ours leaves the files to a sweep.
pub fn refusals_make()
    ensures { RefusalsMake }
{}

/// After a refusal, or a sweep, memory is that of some ledger still.
pub fn refusals_keep()
    ensures { RefusalsKeep }
{}

/// A sweep that leaves the files of names with users changes nothing of the ledger that shows, and no file that is needed.
///
/// Lucene's `IndexFileDeleter.deletePendingFiles`.
pub fn sweeps_make()
    ensures { SweepsMake }
{}

/// The segment that a flush makes may stand behind those that stand: its number is new, and its ids are no live row's.
///
/// Lucene's `IndexWriter` asks no such thing: ids are a matter of its callers.
pub fn flushed_may_stand()
    ensures { FlushedMayStand }
{}

/// The next write has a greater number than each record that waits.
///
/// Lucene's sequence numbers, which `DocumentsWriterDeleteQueue` hands out.
pub fn writes_are_newest()
    ensures { WritesAreNewest }
{}

/// An id that a live row has is not that of a record that waits too.
///
/// Lucene's `updateDocument` leaves one document of a term.
pub fn ids_stand_once()
    ensures { IdsStandOnce }
{}

/// The numbers of the next segment and of the next commit are at least 1, and the number of writes is at most the last one.
///
/// Lucene's `SegmentInfos.counter` and its generation.
pub fn numbers_may_be_taken()
    ensures { NumbersMayBeTaken }
{}
