//! The parts of a segment's file, as they lie in memory.
use crate::Schema;
use cat_base::{SegNo, Text, WriteNo};

/// The column of a field as a file lays it out, by the field's kind. Lists of lists lie one after the other in one list,
/// with the end of each: the first begins at 0, each other where the one before it ends.
#[derive(Drop)]
pub enum ColumnParts {
    /// The words of a text field, where the rows of each end in the last list, and the indices of these rows. Lucene's
    /// `PostingsFormat` holds them.
    Text(Vec<Text>, Vec<u32>, Vec<u32>),
    /// The texts of a keyword field, and for each row 0 where it has none, else 1 more than the ordinal of its text.
    /// Lucene's `SortedDocValues`.
    Keyword(Vec<Text>, Vec<u32>),
    /// The number of each row, where it has one. Lucene's `NumericDocValues`.
    Number(Vec<Option<i64>>),
    /// The labels of a facet field, where the ordinals of each row end in the last list, and these ordinals. Lucene's
    /// `SortedSetDocValues`.
    Facet(Vec<Text>, Vec<u32>, Vec<u32>),
}

/// What a segment's file lays out: what Lucene's codec keeps in a `SegmentInfo`, in `FieldInfos`, in stored fields, in
/// postings and in doc values.
#[derive(Drop)]
pub struct SegmentParts {
    /// The number of the segment.
    pub number: SegNo,
    /// The fields.
    pub schema: Schema,
    /// The numbers of the writes that put the rows.
    pub numbers: Vec<WriteNo>,
    /// The ids of the rows.
    pub ids: Vec<Text>,
    /// The lengths of the rows' sources, in bytes, 1 to 8,192.
    pub lengths: Vec<u32>,
    /// The columns, in the order of the fields.
    pub columns: Vec<ColumnParts>,
}
