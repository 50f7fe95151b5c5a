//! The items put since the last flush, in the order of their writes.
ghost use Rattle.std.specs.Prelude.{◌≡◌, ◌<◌, ◌≤◌, ◌-◌, ◌↔◌, [], ◌∷◌, ◌++◌, filter, not, map, length, take, All, IsTrue, OnErr, IfOk, OnOk};
ghost use Rattle.std.specs.String.{string_eq};
ghost use Rattle.indexmap.specs.IndexMap.{values};
ghost use Rattle.cat_model.specs.Item.{IsItem};
ghost use Rattle.cat_model.specs.Query.{matches};
ghost use Rattle.cat_model.specs.Write as write;
ghost use Rattle.cat_model.specs.Table.{without, after};
ghost use Rattle.cat_model.specs.View.{row_of};
ghost use Rattle.cat_views.specs.cat_segment.Fields.{row_record};
ghost use Rattle.cat_query.specs.View.{query_of};
ghost use Rattle.cat_live_table.specs.buffer.Buffered.{IsBuffered, most_buffered, some_has_id, sources_of};

use crate::buffer::record::Record;
use cat_base::{MAX_BUFFERED_ITEMS, SegNo, WriteNo};
use cat_items::{Item, Schema};
use cat_query::Query;
use cat_views::cat_segment::{Row, Segment};
use indexmap::IndexMap;
use std::alloc::{AllocError, Global};
use std::marker::Model;

/// What a flush makes of the buffer: the segment, and the texts of its items for the segment's file.
#[derive(Drop)]
pub struct Sealed {
    /// The segment.
    pub segment: Segment,
    /// The texts that the items came as, one after the other in the order of the rows. So a row's text begins where
    /// those of the rows before it end.
    pub sources: Vec<u8>,
}

/// The items put since the last flush, by id and in the order of their writes: at most
/// [`MAX_BUFFERED_ITEMS`](cat_base::MAX_BUFFERED_ITEMS), each of the schema that the buffer was made with, under numbers
/// that rise from at least 1.
///
/// Lucene's `DocumentsWriterPerThread` with its `BufferedUpdates`. A deletion of what is buffered takes effect at once
/// here, where Lucene's waits for the flush.
///
/// ```text
/// let mut buffer = Buffer::new(alloc, &schema)?;
/// let item = schema.item(alloc, line)?;
/// if buffer.is_full() {
///     let sealed = buffer.seal(segment_number)?;
///     // The files of the segment and of its sources are written; then:
///     buffer.clear();
/// }
/// buffer.put(write_number, item)?;
/// ```
pub struct Buffer {
    schema: Schema,
    // Each under the id of its item.
    entries: IndexMap<String, Record>,
}

impl Model for Buffer {
    ghost use Rattle.indexmap.specs.IndexMap.{values};
    ghost use Rattle.cat_live_table.specs.buffer.Buffered.{Buffered, IsBuffered, AreKeyed};

    ghost Value = { Buffered };

    ghost view = { λ b. record { schema = b.schema; records = values b.entries } };

    ghost invariant = { λ b. IsBuffered (record { schema = b.schema; records = values b.entries }) × AreKeyed b.entries.entries };
}

impl Drop for Buffer {
    fn drop(self) {
        let Buffer { schema, entries } = self;
        drop(schema);
        drop(entries);
    }
}

impl Buffer {
    /// An empty buffer for items of the schema, of which it keeps a copy. What it holds is taken from the allocator.
    pub fn new(alloc: Global, schema: &Schema) -> Result<Buffer, AllocError>
        ensures ok { IfOk result (λ b. b ≡ record { schema = schema.now; records = [] }) }
    {
        Ok(Buffer {
            schema: schema.copy()?,
            entries: IndexMap::new(alloc),
        })
    }

    /// How many items wait, 0 to [`MAX_BUFFERED_ITEMS`](cat_base::MAX_BUFFERED_ITEMS) (Lucene: `getNumDocsInRAM`).
    pub fn len(&self) -> usize
        ensures len { result ≡ length self.now.records }
        ensures buffered { IsBuffered self.now }
    {
        self.entries.len()
    }

    /// Whether no item waits.
    pub fn is_empty(&self) -> bool
        ensures { IsTrue result ↔ (self.now.records ≡ []) }
    {
        self.entries.is_empty()
    }

    /// Whether as many items wait as may, so that a flush is due (Lucene: `FlushByRamOrCountsPolicy` by
    /// `maxBufferedDocs`).
    pub fn is_full(&self) -> bool
        ensures { IsTrue result ↔ (most_buffered ≤ length self.now.records) }
    {
        self.entries.len() >= MAX_BUFFERED_ITEMS
    }

    /// Puts the item last, and takes the one of its id out, if there is one (Lucene: `IndexWriter.updateDocument`). An
    /// error changes nothing.
    pub fn put(&mut self, number: WriteNo, item: Item) -> Result<(), AllocError>
        requires space { length self.old.records < most_buffered }
        requires positive { 1 ≤ number }
        requires newest { All (λ r. r.number < number) self.old.records }
        requires item { IsItem self.old.schema item }
        ensures ok { OnOk result (self.new ≡ record { schema = self.old.schema; records = after self.old.records number (write.Write.put item) }) }
        ensures err { OnErr result (self.new ≡ self.old) }
    {
        let id = String::from_str(*self.entries.allocator(), item.id())?;
        put_last(&mut self.entries, id, Record::new(number, item))?;
        Ok(())
    }

    /// Takes the item of the id out, and answers whether it was there (Lucene: `IndexWriter.deleteDocuments`). It takes
    /// no memory.
    pub fn delete(&mut self, id: &str) -> bool
        ensures removed { self.new ≡ record { schema = self.old.schema; records = without self.old.records (write.Write.delete id.now) } }
        ensures found { result ≡ some_has_id id.now self.old.records }
    {
        self.entries.shift_remove(id).is_some()
    }

    /// Takes the items out that the query matches (Lucene: `IndexWriter.deleteDocuments` by a query). It takes no memory.
    pub fn delete_where(&mut self, query: &Query)
        ensures { self.new ≡ record {
          schema = self.old.schema;
          records = without self.old.records (write.Write.delete_where (query_of query.now));
        } }
    {
        self.entries.retain(
            |_id: &String, waiting: &mut Record| -> bool
                ensures { (result ≡ not (matches (query_of query.entry.now) waiting.old.item)) × (waiting.new ≡ waiting.old) }
            { !query.accepts(waiting.item()) },
        );
    }

    /// Takes the item out that was put last, and one waits. It takes no memory, so that a put can be taken back.
    pub fn pop(&mut self)
        requires { 0 < length self.old.records }
        ensures { self.new ≡ record { schema = self.old.schema; records = take (length self.old.records - 1) self.old.records } }
    {
        self.entries.pop();
    }

    /// The segment of the items that wait, under the number, with the texts that they came as (Lucene:
    /// `DocumentsWriterPerThread.flush`). The buffer stays as it is, until it is cleared.
    pub fn seal(&self, number: SegNo) -> Result<Sealed, AllocError>
        requires some { 1 ≤ length self.now.records }
        ensures segment { IfOk result (λ s. s.segment ≡ record { number = number; schema = self.now.schema; rows = map row_of self.now.records }) }
        ensures sources { IfOk result (λ s. s.sources.items ≡ sources_of self.now.records) }
    {
        let alloc = *self.entries.allocator();
        let rows = rows_in(alloc, &self.entries)?;
        Ok(Sealed {
            segment: Segment::of(alloc, number, &self.schema, rows.as_slice())?,
            sources: sources_in(alloc, &self.entries)?,
        })
    }

    /// Takes all items out, once their segment stands. It takes no memory, and keeps what the buffer has.
    pub fn clear(&mut self)
        ensures { self.new ≡ record { schema = self.old.schema; records = [] } }
    {
        self.entries.clear();
    }
}

/// Puts the record last, and takes the one of the id out. An error leaves the entries as they were.
fn put_last(
    entries: &mut IndexMap<String, Record>,
    id: String,
    last: Record,
) -> Result<(), AllocError>
    ensures ok { OnOk result (entries.new.entries ≡ filter (λ e. not (string_eq id e.0)) entries.old.entries ++ (id, last) ∷ []) }
    ensures err { OnErr result (entries.new.entries ≡ entries.old.entries) }
{
    // Room is taken first, so that an error leaves the record that would go.
    entries.reserve(1)?;
    entries.shift_remove(&id);
    entries.insert(id, last)?;
    Ok(())
}

/// The entries as rows, in order.
fn rows_in<'a>(
    alloc: Global,
    entries: &'a IndexMap<String, Record>,
) -> Result<Vec<Row<'a>>, AllocError>
    ensures ok { IfOk result (λ rows. map row_record rows.items ≡ values entries.now) }
{
    let mut rows = Vec::with_capacity(alloc, entries.len())?;
    for record in entries.values() {
        let row = Row {
            number: record.number(),
            item: record.item(),
        };
        rows.push(row)?;
    }
    Ok(rows)
}

/// The texts that the items came as, one after the other.
fn sources_in(alloc: Global, entries: &IndexMap<String, Record>) -> Result<Vec<u8>, AllocError>
    ensures ok { IfOk result (λ sources. sources.items ≡ sources_of (values entries.now)) }
{
    let mut sources = Vec::with_capacity(alloc, source_bytes(entries)?)?;
    for record in entries.values() {
        sources.extend_from_slice(record.item().source())?;
    }
    Ok(sources)
}

/// The length of the texts together, and an error where no memory has as many bytes.
fn source_bytes(entries: &IndexMap<String, Record>) -> Result<usize, AllocError>
    ensures ok { IfOk result (λ n. n ≡ length (sources_of (values entries.now))) }
{
    let mut bytes = 0usize;
    for record in entries.values() {
        let Some(sum) = bytes.checked_add(record.item().source().len()) else {
            return Err(AllocError);
        };
        bytes = sum;
    }
    Ok(bytes)
}
