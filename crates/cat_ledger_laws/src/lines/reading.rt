//! Replies to reads, and what FILES and NOTE tell.
ghost use Rattle.cat_ledger_laws.specs.lines.ReadLaws.{ReadsAnswer, UnheldReadsAnswer, GetsAnswer, SourcesAreWhole, FilesAnswer, UnheldFilesAnswer, CommitFilesAnswer, UnkeptFilesAnswer, TextsAnswer, UnkeptTextsAnswer};

/// What a read finds in the view of a held token, whatever records that view shows, answers it.
///
/// Lucene's `IndexSearcher`, over a reader that `SearcherLifetimeManager.acquire` gave.
pub fn reads_answer()
    ensures { ReadsAnswer }
{}

/// A read under a token that the session doesn't hold is refused, for a fault of its text first.
///
/// Lucene's `IndexReader.ensureOpen` throws an `AlreadyClosedException`.
pub fn unheld_reads_answer()
    ensures { UnheldReadsAnswer }
{}

/// A text of the length that the item's row has answers a GET; where the device tells its files, it is the item's own.
///
/// Lucene's `StoredFields.document`.
pub fn gets_answer()
    ensures { GetsAnswer }
{}

/// Where the device tells the sources of a recorded view, each is as long as its item's row says.
///
/// Lucene's `StoredFieldsReader.checkIntegrity`.
pub fn sources_are_whole()
    ensures { SourcesAreWhole }
{}

/// Names of files answer a FILES of a held token.
///
/// Lucene's `IndexCommit.getFileNames`, of a `DirectoryReader`'s commit.
pub fn files_answer()
    ensures { FilesAnswer }
{}

/// A FILES of a token that the session doesn't hold is refused.
///
/// Lucene's `IndexReader.ensureOpen` throws an `AlreadyClosedException`.
pub fn unheld_files_answer()
    ensures { UnheldFilesAnswer }
{}

/// Names of files answer a FILES of a kept commit.
///
/// Lucene's `IndexCommit.getFileNames`.
pub fn commit_files_answer()
    ensures { CommitFilesAnswer }
{}

/// A FILES of a commit that isn't kept is refused.
///
/// Lucene's `DirectoryReader.listCommits` doesn't list it.
pub fn unkept_files_answer()
    ensures { UnkeptFilesAnswer }
{}

/// The text of a kept commit answers a NOTE.
///
/// Lucene's `IndexCommit.getUserData`.
pub fn texts_answer()
    ensures { TextsAnswer }
{}

/// A NOTE of a commit that isn't kept is refused.
///
/// Lucene's `DirectoryReader.listCommits` doesn't list it.
pub fn unkept_texts_answer()
    ensures { UnkeptTextsAnswer }
{}
