//! Opening.
ghost use Rattle.cat_ledger_laws.specs.shape.OpeningLaws.{OpenedMake, OpenedKeep, EmptyMake, EmptyKeep};

/// What memory has that was read from the files of a commit carries a ledger that is opened at that commit: its table, one view of
/// it, no hold, that commit alone, and no snapshot.
///
/// Lucene's `IndexWriter`, which opens over the `SegmentInfos` of the newest commit of its directory.
pub fn opened_make()
    ensures { OpenedMake }
{}

/// So memory is that of some ledger.
pub fn opened_keep()
    ensures { OpenedKeep }
{}

/// Memory without records carries a ledger that is opened where no commit is.
///
/// Lucene's `IndexWriter` with `OpenMode.CREATE`.
pub fn empty_make()
    ensures { EmptyMake }
{}

/// So memory without records is that of some ledger.
pub fn empty_keep()
    ensures { EmptyKeep }
{}
