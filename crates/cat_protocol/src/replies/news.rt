//! What maintenance tells.
use cat_base::{SegNo, WriteNo};

/// What a line of maintenance tells.
#[derive(Drop)]
pub enum News {
    /// Nothing is to be done.
    Idle,
    /// A merge is under way, so that none is forced.
    Busy,
    /// A merge was begun, of so many segments (Lucene: a `MergePolicy.OneMerge` that was registered).
    BegunMerge(usize),
    /// Of the merge so many rows are passed in all.
    Copied(usize),
    /// The merged segment stands in place of those that were merged (Lucene: `IndexWriter.commitMerge`).
    Done,
    /// A set of rows was begun.
    BegunWarming,
    /// Of the set in the making so many rows are passed in all.
    Warmed(usize),
    /// The set in the making stands in the cache.
    Stored,
    /// So many files were deleted (Lucene: `IndexFileDeleter`).
    Swept(u64),
    /// How the service stands.
    State(Stat),
}

/// How the service stands.
#[derive(Drop)]
pub struct Stat {
    /// The writes that were accepted.
    pub writes: WriteNo,
    /// The records that wait in the buffer (Lucene: `IndexWriter.numRamDocs`).
    pub buffered: usize,
    /// The views that are recorded.
    pub views: usize,
    /// The sets of rows that are cached (Lucene: `LRUQueryCache.getCacheSize`).
    pub cached: usize,
    /// The files that wait to be deleted.
    pub pending: u64,
    /// The segments, in their order.
    pub segments: Vec<SegmentStat>,
}

/// How a segment stands.
#[derive(Clone, Copy)]
pub struct SegmentStat {
    /// Its number.
    pub number: SegNo,
    /// How many rows it has (Lucene: `SegmentInfo.maxDoc`).
    pub rows: usize,
    /// How many of them are live (Lucene: `SegmentReader.numDocs`).
    pub live: usize,
}
