//! The segments that memory has of a ledger, in its current list and in its recorded views.
ghost use Rattle.cat_commands.specs.sets.SegmentLaws.{CurrentAreAmong, SegmentsAreOne, SegmentsStay};
ghost use Rattle.cat_commands.specs.sets.KeptLaws.{RecordedAreAmong};

use cat_protocol::segments_are_told_by_their_bytes;

/// Whatever line is answered, a segment that is there afterwards was there before, or has a number that none has had.
///
/// Lucene's `IndexWriter.newSegmentName` counts up, so that no name is used again.
pub fn segments_stay()
    ensures { SegmentsStay }
{}

/// Wherever two segments of one number stand, in the current list or in recorded views, they are one, since the file of that
/// number is one segment's.
///
/// Lucene's readers of a `SegmentCommitInfo` share its `SegmentCoreReaders`.
pub fn segments_are_one()
    ensures { SegmentsAreOne }
{
    segments_are_told_by_their_bytes();
}

/// The segments of the current list are among those that memory has.
///
/// Lucene's `DirectoryReader.open` over an `IndexWriter` has the `SegmentInfos` of now.
pub fn current_are_among()
    ensures { CurrentAreAmong }
{}

/// The segments of a recorded view are among those that memory has.
///
/// Lucene's `SearcherLifetimeManager.acquire` gives a searcher whose leaves stand as long as it does.
pub fn recorded_are_among()
    ensures { RecordedAreAmong }
{}
