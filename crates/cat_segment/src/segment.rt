//! Immutable segments.
ghost use Rattle.std.specs.Prelude.{◌≡◌, ◌≢◌, ◌<◌, ◌≤◌, map, length, replicate, false, None, MatchOption, IfSome, IfOk, All, AllPairs};
ghost use Rattle.std.specs.List.{HoldsAt};
ghost use Rattle.std.specs.List.Sorted.{IsPartitionPoint, IsSortedByKey};
ghost use Rattle.cat_model.specs.Layout.{column_of};
ghost use Rattle.cat_model.specs.Ordinals.{text_at};
ghost use Rattle.cat_model.specs.Text.{text_cmp};
ghost use Rattle.cat_model.specs.View.{AreRows, IsSegment};
ghost use Rattle.cat_segment.specs.Contents.{contents_told, contents_under_name};
ghost use Rattle.cat_segment.specs.Fields.{rows_made};
ghost use Rattle.cat_segment.specs.Filter.{id_hash};
ghost use Rattle.cat_segment.specs.Index.{AreAllRows};
ghost use Rattle.cat_segment.specs.Laid.{column_kind, laid_in};
ghost use Rattle.cat_segment.specs.Body.{body_with, rows_of, IsBody};
ghost use Rattle.cat_segment.specs.Sources.{source_offset};

use crate::building::{columns_of, ids, sources, write_numbers};
use crate::column::Column;
use crate::ids::Ids;
use crate::sources::Sources;
use cat_base::{SegNo, Text, WriteNo};
use cat_items::{Item, Schema, index_of};
use std::alloc::{AllocError, Global};
use std::marker::Model;

/// A row that a segment is made of: an item under the number of the write that put it.
#[derive(Clone, Copy, Drop)]
pub struct Row<'a> {
    /// The number of the write.
    pub number: WriteNo,
    /// The item.
    pub item: &'a Item,
}

/// A segment: 1 to [`MAX_ROWS`](cat_base::MAX_ROWS) rows that never change, kept by columns (Lucene: a `SegmentReader` of a flushed or merged
/// segment, whose live documents are kept beside it).
///
/// The texts that the items came as are kept elsewhere; a segment knows their lengths.
pub struct Segment {
    number: SegNo,
    schema: Schema,
    // One of each for each row.
    numbers: Vec<WriteNo>,
    ids: Ids,
    sources: Sources,
    // One for each field, in the fields' order.
    columns: Vec<Column>,
}

impl Model for Segment {
    ghost use Rattle.cat_model.specs.View as model;
    ghost use Rattle.cat_segment.specs.Body.{body_of, rows_of, IsBody};

    ghost Value = { model.Segment };

    ghost view = { λ s. record { number = s.number; schema = s.schema; rows = rows_of (body_of s) } };

    ghost invariant = { λ s. IsBody (body_of s) };
}

impl Drop for Segment {
    fn drop(self) {
        let Segment {
            number: _,
            schema,
            numbers,
            ids,
            sources,
            columns,
        } = self;
        drop(schema);
        drop(numbers);
        drop(ids);
        drop(sources);
        drop(columns);
    }
}

// How many of the numbers, which rise, are up to this one.
fn count_through(numbers: &[WriteNo], number: WriteNo) -> usize
    requires { AllPairs (λ a b. a < b) numbers.now }
    ensures point { IsPartitionPoint (λ n. n ≤ number) (λ n. number < n) numbers.now result }
    ensures bound { result ≤ length numbers.now }
{
    numbers.partition_point(|each| *each <= number)
}

impl Segment {
    /// The segment of the rows, under the number, over the fields that the items were read under (Lucene: what
    /// `DocumentsWriterPerThread.flush` makes). The rows are 1 to [`MAX_ROWS`](cat_base::MAX_ROWS), their numbers rise
    /// from at least 1, and their ids differ.
    pub fn of(
        alloc: Global,
        number: SegNo,
        schema: &Schema,
        rows: &[Row<'_>],
    ) -> Result<Segment, AllocError>
        requires rows { AreRows schema.now (rows_made rows.now) }
        ensures ok { IfOk result (λ s. s ≡ record { number = number; schema = schema.now; rows = rows_made rows.now }) }
    {
        Ok(Segment {
            number,
            schema: schema.copy()?,
            numbers: write_numbers(alloc, rows)?,
            ids: ids(alloc, rows)?,
            sources: sources(alloc, rows)?,
            columns: columns_of(alloc, schema.fields(), rows)?,
        })
    }

    /// The segment of these parts, which fit together.
    pub(crate) fn joined(
        number: SegNo,
        schema: Schema,
        numbers: Vec<WriteNo>,
        ids: Ids,
        sources: Sources,
        columns: Vec<Column>,
    ) -> Segment
        requires { IsBody (body_with schema numbers.items ids sources columns.items) }
        ensures { result ≡ record { number = number; schema = schema; rows = rows_of (body_with schema numbers.items ids sources columns.items) } }
    {
        Segment {
            number,
            schema,
            numbers,
            ids,
            sources,
            columns,
        }
    }

    /// The number of the segment.
    pub fn number(&self) -> SegNo
        ensures { result ≡ self.now.number }
    {
        self.number
    }

    /// How many rows there are, 1 to [`MAX_ROWS`](cat_base::MAX_ROWS), deleted ones counted (Lucene: `maxDoc`).
    pub fn len(&self) -> usize
        ensures same { result ≡ length self.now.rows }
        ensures rows { AreRows self.now.schema self.now.rows }
        ensures segment { IsSegment self.now }
    {
        self.numbers.len()
    }

    /// The fields of the rows.
    pub fn schema(&self) -> &Schema
        ensures { result.now ≡ self.now.schema }
    {
        &self.schema
    }

    /// The number of the write that put the row.
    pub fn write_number(&self, row: usize) -> WriteNo
        requires { row < length self.now.rows }
        ensures { HoldsAt (λ r. r.number ≡ result) self.now.rows row }
    {
        self.numbers[row]
    }

    /// The id of the row.
    pub fn id(&self, row: usize) -> &str
        requires { row < length self.now.rows }
        ensures { HoldsAt (λ r. r.id ≡ result.now) self.now.rows row }
    {
        self.ids.id(row)
    }

    /// The id of the row as it is kept, for who may never look at it: where its bytes lie isn't found out here.
    pub fn id_text(&self, row: usize) -> &Text
        requires { row < length self.now.rows }
        ensures { HoldsAt (λ r. r.id ≡ result.now) self.now.rows row }
    {
        self.ids.text(row)
    }

    /// The row of the id, if there is one, by binary search (Lucene: `TermsEnum.seekExact` in a primary key's field).
    pub fn row_with(&self, id: &str) -> Option<usize>
        ensures lookup { MatchOption result (All (λ r. r.id ≢ id.now) self.now.rows) (λ row. HoldsAt (λ r. r.id ≡ id.now) self.now.rows row) }
        ensures bound { IfSome result (λ row. row < length self.now.rows) }
    {
        self.ids.row_of(id)
    }

    /// Whether a row may have an id of this hash ([`id_hash`](crate::id_hash)). Where none may, none has; where one may,
    /// [`Segment::row_with`] knows. No id is looked at. (Lucene: `FuzzySet.contains`, as `BloomFilteringPostingsFormat` asks
    /// it of each segment before a primary key is looked for.)
    pub fn may_have(&self, hash: u64) -> bool
        ensures { result ≡ false → All (λ r. id_hash r.id ≢ hash) self.now.rows }
    {
        self.ids.may_have(hash)
    }

    /// All rows, in byte order of their ids (Lucene: the order of the terms in a primary key's field).
    pub fn rows_by_id(&self) -> &[u32]
        ensures rows { AreAllRows (length self.now.rows) result.now }
        ensures rising { IsSortedByKey (text_at (map (λ r. r.id) self.now.rows)) text_cmp result.now }
    {
        self.ids.rows()
    }

    /// How many rows the writes up to this number put, by binary search: the row of that index, if there is one, is the
    /// first that a later write put. (Lucene: where `DocIdSetIterator.advance` goes behind a `FieldDoc` in index order.)
    pub fn rows_through(&self, number: WriteNo) -> usize
        ensures point { IsPartitionPoint (λ r. r.number ≤ number) (λ r. number < r.number) self.now.rows result }
        ensures bound { result ≤ length self.now.rows }
        ensures rising { AllPairs (λ a b. a.number < b.number) self.now.rows }
    {
        count_through(&self.numbers, number)
    }

    /// The length of the text that the row's item came as, in bytes.
    pub fn source_length(&self, row: usize) -> u32
        requires { row < length self.now.rows }
        ensures { HoldsAt (λ r. r.length ≡ result) self.now.rows row }
    {
        self.sources.length(row)
    }

    /// Where the text that the row's item came as begins, where these texts stand one after the other in the rows' order:
    /// the sum of the lengths of those before it, in bytes.
    pub fn source_offset(&self, row: usize) -> u64
        requires { row < length self.now.rows }
        ensures { result ≡ source_offset self.now.rows row }
    {
        u64::from(self.sources.offset(row))
    }

    /// The columns, in the fields' order.
    pub(crate) fn columns(&self) -> &[Column]
        ensures { map laid_in result.now ≡ map (column_of self.now.rows) self.now.schema }
    {
        &self.columns
    }

    /// The column of the field of the name, if there is such a field.
    pub fn column(&self, name: &str) -> Option<&Column>
        ensures { MatchOption result
            (contents_under_name name.now self.now.rows ≡ replicate (length self.now.rows) None)
            (λ c. contents_told c.now ≡ contents_under_name name.now self.now.rows) }
    {
        self.columns.get(index_of(self.schema.fields(), name)?)
    }

    /// The column of the field of this index, in the fields' order: what [`Segment::column`] finds by the field's name, without
    /// a search (Lucene: `FieldInfos.fieldInfo` by a number).
    pub fn column_at(&self, index: usize) -> &Column
        requires { index < length self.now.schema }
        ensures contents { HoldsAt (λ f. contents_told result.now ≡ contents_under_name f.name self.now.rows) self.now.schema index }
        ensures kind { HoldsAt (λ f. column_kind result.now ≡ f.kind) self.now.schema index }
    {
        &self.columns[index]
    }
}
