//! The types of the catalogue's numbers, and its limits by name.

/// The number of an accepted write, from 1 in order of acceptance. It is at most [`LAST_NUMBER`].
pub type WriteNo = u64;

/// Names a recorded view of the catalogue: the number of writes that the view takes in. 0 is the empty catalogue.
/// (Lucene: the version under which a `SearcherLifetimeManager` records a searcher.)
pub type Token = u64;

/// The number of a segment, from 1 and never used again. It is at most [`LAST_NUMBER`].
pub type SegNo = u64;

/// The number of a commit, from 1 and rising. It is at most [`LAST_NUMBER`].
/// (Lucene: the generation of a `segments_N` file.)
pub type Generation = u64;

/// The number by which a session names itself in each of its lines: 0 to [`LAST_SESSION`].
pub type SessionNo = u32;

// ---- numbers

/// The last number of a write, a segment and a generation, and the last that a line may give: 2^63 - 1.
pub const LAST_NUMBER: u64 = 9_223_372_036_854_775_807;

/// The last number of a session.
pub const LAST_SESSION: SessionNo = 9_999;

// ---- lines, items and fields

/// The longest line that is read, in bytes, without its line end.
pub const MAX_LINE_BYTES: usize = 10_000;

/// The longest JSON text of an item, in bytes.
pub const MAX_ITEM_BYTES: usize = 8_192;

/// The longest id, in bytes.
pub const MAX_ID_BYTES: usize = 64;

/// The longest name of a field, in bytes.
pub const MAX_FIELD_NAME_BYTES: usize = 32;

/// The most fields of a schema.
pub const MAX_FIELDS: usize = 32;

/// The longest keyword, and the longest label of a facet, in bytes.
pub const MAX_KEYWORD_BYTES: usize = 128;

/// The most labels that an item may list in one facet field, equal ones counted.
pub const MAX_LABELS: usize = 64;

// ---- reads

/// The most clauses of a query, a group and what stands in it both counted. (Lucene: `IndexSearcher.setMaxClauseCount`.)
pub const MAX_CLAUSES: usize = 64;

/// The deepest that a query's parentheses nest.
pub const MAX_DEPTH: usize = 8;

/// The most entries that a page of hits or of facet counts may ask for.
pub const MAX_PAGE: usize = 1_000;

/// The most views that are recorded at once. (Lucene: what a pruner leaves in a `SearcherLifetimeManager`.)
pub const MAX_RECORDS: usize = 64;

/// The most sets of rows that the filter cache keeps. (Lucene: `maxSize` of `LRUQueryCache`.)
pub const MAX_CACHED_SETS: usize = 64;

/// The most queries that are noted for warming; the newest are kept.
/// (Lucene: the history of `UsageTrackingQueryCachingPolicy`.)
pub const MAX_NOTED_QUERIES: usize = 16;

// ---- segments and commits

/// The most items that the write buffer holds. (Lucene: `maxBufferedDocs`.)
pub const MAX_BUFFERED_ITEMS: usize = 1_024;

/// The most rows of a segment, and of all the segments that one merge takes, deleted rows counted.
pub const MAX_ROWS: usize = 262_144;

/// The most rows that one step of a merge or of a warming passes.
pub const MAX_STEP_ROWS: usize = 256;

/// The most segments that stand at once.
pub const MAX_SEGMENTS: usize = 65_536;

/// The most snapshots of one commit. (Lucene: the reference count of a `SnapshotDeletionPolicy`.)
pub const MAX_SNAPSHOTS: u32 = 65_535;

/// The longest text of a commit, in bytes. (Lucene: the user data of an `IndexCommit`, which has no limit.)
pub const MAX_COMMIT_TEXT_BYTES: usize = 256;

/// The least number of segments that a merge window may join. (Lucene: `mergeFactor` of `LogDocMergePolicy`.)
pub const LEAST_MERGE_FACTOR: u64 = 2;

/// The greatest number of segments that a merge window may join.
pub const GREATEST_MERGE_FACTOR: u64 = 100;

/// The least that the rows of a segment of the lowest level may be bounded by.
/// (Lucene: `minMergeDocs` of `LogDocMergePolicy`.)
pub const LEAST_MERGE_MINIMUM: u64 = 1;

/// The greatest that the rows of a segment of the lowest level may be bounded by.
pub const GREATEST_MERGE_MINIMUM: u64 = 100_000;
