//! The writes: an item that is put, items that are deleted by their id or by a query.
//!
//! Lucene's `IndexWriter.updateDocument` and `deleteDocuments`. That the buffer is flushed in time is left to who writes.
ghost use Rattle.std.specs.Prelude.{◌≡◌, ◌<◌, ◌≤◌, true, length, All, OnOk, OnErr};
ghost use Rattle.cat_model.specs.Item.{IsItem};
ghost use Rattle.cat_model.specs.Limits.{buffer_limit, last_number};
ghost use Rattle.cat_model.specs.Table.{without, after};
ghost use Rattle.cat_model.specs.Write.{Write};
ghost use Rattle.cat_ledger_laws.specs.model.Leaves.{has_live_id, leaves_after};
ghost use Rattle.cat_live_table.specs.cat_query.View.{query_of};
ghost use Rattle.cat_ledger_laws.specs.shape.Steps.{with_write};

use crate::state::Core;
use cat_base::WriteNo;
use cat_live_table::buffer::Buffer;
use cat_live_table::current::Current;
use cat_live_table::{Item, Query};
use std::alloc::{AllocError, Global};

/// Puts the item behind those that wait, under the number, and makes the live row of its id dead. Where there is such a row, no item of
/// the id waits. An error changes nothing.
fn put_over(
    buffer: &mut Buffer,
    current: &mut Current,
    alloc: Global,
    number: WriteNo,
    item: Item,
) -> Result<(), AllocError>
    requires item { IsItem buffer.old.schema item }
    requires space { length buffer.old.records < buffer_limit }
    requires some { 1 ≤ number }
    requires newest { All (λ r. r.number < number) buffer.old.records }
    requires alone { has_live_id item.id current.old ≡ true
        → without buffer.old.records (Write.delete item.id) ≡ buffer.old.records }
    ensures put { OnOk result (buffer.new
        ≡ record { schema = buffer.old.schema; records = after buffer.old.records number (Write.put item) }) }
    ensures killed { OnOk result (current.new ≡ leaves_after (Write.delete item.id) current.old) }
    ensures waits { OnErr result (buffer.new ≡ buffer.old) }
    ensures stands { OnErr result (current.new ≡ current.old) }
{
    let id = String::from_str(alloc, item.id())?;
    buffer.put(number, item)?;
    if let Err(refused) = current.delete(&id) {
        // The id is a live row's, so the item took no other's place in the buffer.
        buffer.pop();
        return Err(refused);
    }
    Ok(())
}

impl Core {
    /// Puts the item under the next number, in the place of the one of its id. There is room for it, and a number is left. An
    /// error changes nothing.
    pub fn put(&mut self, item: Item) -> Result<(), AllocError>
        requires item { IsItem self.old.schema item }
        requires space { length self.old.buffered < buffer_limit }
        requires left { self.old.count < last_number }
        ensures ok { OnOk result (self.new ≡ with_write self.old (Write.put item)) }
        ensures err { OnErr result (self.new ≡ self.old) }
    {
        let next = self.count + 1;
        put_over(&mut self.buffer, &mut self.current, self.alloc, next, item)?;
        self.count = next;
        Ok(())
    }

    /// Deletes the item of the id, if there is one. A number is left. An error changes nothing.
    pub fn delete(&mut self, id: &str) -> Result<(), AllocError>
        requires left { self.old.count < last_number }
        ensures ok { OnOk result (self.new ≡ with_write self.old (Write.delete id.now)) }
        ensures err { OnErr result (self.new ≡ self.old) }
    {
        self.current.delete(id)?;
        let _waited = self.buffer.delete(id);
        self.count += 1;
        Ok(())
    }

    /// Deletes the items that the query matches. A number is left. An error changes nothing.
    pub fn delete_where(&mut self, query: &Query) -> Result<(), AllocError>
        requires left { self.old.count < last_number }
        ensures ok { OnOk result (self.new ≡ with_write self.old (Write.delete_where (query_of query.now))) }
        ensures err { OnErr result (self.new ≡ self.old) }
    {
        self.current.delete_where(query)?;
        self.buffer.delete_where(query);
        self.count += 1;
        Ok(())
    }
}
