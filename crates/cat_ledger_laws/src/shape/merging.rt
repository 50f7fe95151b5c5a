//! Merges.

ghost use Rattle.cat_ledger_laws.specs.shape.MergeLaws.{BegunMake, BegunKeep, CopiesMake, CopiesKeep, InstallsMake, InstallsKeep, EndsMake, EndsKeep, WindowsMayBeMerged, MergesFindTheirWindow};

/// A merge that memory begins is one that the ledger begins, with the sources' file empty.
///
/// Lucene's `IndexWriter.registerMerge`, and `mergeInit`, which opens the files of the new segment.
pub fn begun_make()
    ensures { BegunMake }
{}

/// What memory has once a merge was begun is still what it has of some ledger.
pub fn begun_keep()
    ensures { BegunKeep }
{}

/// A step of a merge passes the rows in memory that one of the ledger's passes. What it appends to the new segment's file are the
/// sources of those that it keeps, where the device tells the inputs' files.
///
/// Lucene's `SegmentMerger.mergeFields`, which copies the stored fields; that this is done in steps between lines is our own.
pub fn copies_make()
    ensures { CopiesMake }
{}

/// What memory has once a merge has passed some rows more is still what it has of some ledger.
pub fn copies_keep()
    ensures { CopiesKeep }
{}

/// A merge that memory installs is one that the ledger installs: the merged leaf, if a row was kept, stands in the place of the
/// inputs, and its file is written.
///
/// Lucene's `IndexWriter.commitMerge`, which carries deletes that came meanwhile over to the merged segment.
pub fn installs_make()
    ensures { InstallsMake }
{}

/// What memory has once a merge was installed is still what it has of some ledger.
pub fn installs_keep()
    ensures { InstallsKeep }
{}

/// A merge that memory ends is one that the ledger ends, whatever stands in its files.
///
/// Lucene's `OneMerge` that is aborted.
pub fn ends_make()
    ensures { EndsMake }
{}

/// What memory has once a merge was ended is still what it has of some ledger.
pub fn ends_keep()
    ensures { EndsKeep }
{}

/// Any current segments that stand behind one another may be merged into one, but for the number of their rows.
///
/// Lucene's `LogMergePolicy` merges adjacent segments alone, as here.
pub fn windows_may_be_merged()
    ensures { WindowsMayBeMerged }
{}

/// The inputs of a merge in the making stand in its window, with rows deleted at most, and its segment may stand in their place.
///
/// Lucene's `IndexWriter` lets no other merge take segments that are in its `mergingSegments`.
pub fn merges_find_their_window()
    ensures { MergesFindTheirWindow }
{}
