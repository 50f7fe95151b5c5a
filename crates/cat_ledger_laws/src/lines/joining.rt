//! Parts of commands, one after another.
ghost use Rattle.cat_ledger_laws.specs.lines.JoinLaws.{FlushesRest, FlushesFlush, RoomIsThere, RoomIsMade, PutsMake, ViewsStand, RefreshesMake, FlushedCommitsMake};

/// Where nothing waits, a flush is nothing.
///
/// Lucene's `DocumentsWriter.flushAllThreads`, which answers that nothing was flushed.
pub fn flushes_rest()
    ensures { FlushesRest }
{}

/// Where a segment is made of what waits, it is flushed.
///
/// Lucene's `DocumentsWriter.flushAllThreads`.
pub fn flushes_flush()
    ensures { FlushesFlush }
{}

/// Where the buffer isn't full, a PUT finds room.
///
/// Lucene's `FlushPolicy`, which flushes by the number of documents.
pub fn room_is_there()
    ensures { RoomIsThere }
{}

/// Where it is full, a flush makes room.
///
/// Lucene's `DocumentsWriter.preUpdate`.
pub fn room_is_made()
    ensures { RoomIsMade }
{}

/// Room, and then the item, is what a PUT makes.
///
/// Lucene's `DocumentsWriter.updateDocuments`.
pub fn puts_make()
    ensures { PutsMake }
{}

/// Where a view of now stands already, a REFRESH records none.
///
/// Lucene's `DirectoryReader.openIfChanged`, which gives `null`.
pub fn views_stand()
    ensures { ViewsStand }
{}

/// A flush, and then a view of now, is what a REFRESH makes.
///
/// Lucene's `SearcherManager.maybeRefresh`.
pub fn refreshes_make()
    ensures { RefreshesMake }
{}

/// A flush, and then a commit of now, is what a COMMIT makes.
///
/// Lucene's `IndexWriter.prepareCommitInternal`.
pub fn flushed_commits_make()
    ensures { FlushedCommitsMake }
{}
