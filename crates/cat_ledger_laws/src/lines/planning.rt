//! When segments are merged.

ghost use Rattle.cat_ledger_laws.specs.lines.PlanLaws.{MergesBegin, MergesRest, MergesCopy, MergesAreDone, ForcesBegin, ForcesRest, ForcesWait, WindowsFit, ForcedFit, MergesTell};

/// A merge of the window is what MERGE begins where one is found.
///
/// Lucene's `IndexWriter.maybeMerge`, which asks `LogDocMergePolicy.findMerges`.
pub fn merges_begin()
    ensures { MergesBegin }
{}

/// MERGE has nothing to do where no window is found, and no merge is in the making.
pub fn merges_rest()
    ensures { MergesRest }
{}

/// MERGE tells how many rows are passed once it has passed some more.
pub fn merges_copy()
    ensures { MergesCopy }
{}

/// MERGE tells that it is done once the new segment stands.
pub fn merges_are_done()
    ensures { MergesAreDone }
{}

/// A merge of all segments is what FORCE begins where that is of some use.
///
/// Lucene's `IndexWriter.forceMerge(1)`.
pub fn forces_begin()
    ensures { ForcesBegin }
{}

/// FORCE has nothing to do where it would be of no use, and no merge is in the making.
pub fn forces_rest()
    ensures { ForcesRest }
{}

/// FORCE is busy while a merge is in the making.
pub fn forces_wait()
    ensures { ForcesWait }
{}

/// The segments of a window stand in the list, and one segment can hold their rows.
pub fn windows_fit()
    ensures { WindowsFit }
{}

/// One segment can hold the rows of all, where it is of some use to merge them.
pub fn forced_fit()
    ensures { ForcedFit }
{}

/// What MERGE and FORCE tell is so of the segments that stand, and of the merge in the making.
///
/// Lucene's `IndexWriter.maybeMerge` and `forceMerge` tell nothing.
pub fn merges_tell()
    ensures { MergesTell }
{}
