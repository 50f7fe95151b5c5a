//! The writes.
//!
//! Lucene's `IndexWriter.updateDocument` and `deleteDocuments`.
ghost use Rattle.cat_directory.specs.Frames.{CountsFailures};
ghost use Rattle.cat_base.specs.declared.refusal.Refusal.TheVariants.{Device, Kind, Memory, Spent};
ghost use Rattle.cat_ledger.specs.Histories.{GoesOn};
ghost use Rattle.cat_ledger.specs.Ledgers.{DoesCall, Spares, device_in, shape_in};
ghost use Rattle.cat_ledger.specs.Refusals.{KeepsMerge};
ghost use Rattle.std.specs.Prelude.{Err, IfErr, IfOk, OnErr, OnOk, length, ◌+◌, ◌<◌, ◌≡◌, ◌≢◌, ◌≤◌, ◌⊎◌};
ghost use Rattle.cat_model.specs.Item.{IsItem};
ghost use Rattle.cat_ledger_laws.specs.model.Replies.{IsLeft};
ghost use Rattle.cat_ledger_state.specs.Cores.{MayNotFlush};
ghost use Rattle.cat_ledger_laws.specs.lines.LineLaws.{Puts};
ghost use Rattle.cat_model.specs.Write.{Write};
ghost use Rattle.cat_model.specs.Limits.{buffer_limit, last_number};
ghost use Rattle.cat_ledger_state.specs.cat_query.View.{query_of};
ghost use Rattle.cat_ledger_laws.specs.model.Calls.{wrote};

use crate::ledger::Ledger;
use crate::room::make_room;
use cat_base::{LAST_NUMBER, Refusal, WriteNo};
use cat_directory::{Directory, Shelf};
use cat_items::Item;
use cat_ledger_state::{Core, Query};
use std::alloc::AllocError;

/// Whether the item is of the schema, which comes first, and a number is left for a write.
fn judge_item(core: &Core, item: &Item) -> Result<(), Refusal>
    ensures item { OnOk result (IsItem core.now.schema item.now) }
    ensures left { OnOk result (core.now.count < last_number) }
    ensures kind { IfErr result (λ e. e ≡ Kind → IsItem core.now.schema item.now → ⊥) }
    ensures fitting { IfErr result (λ e. e ≢ Kind → IsItem core.now.schema item.now) }
    ensures spent { IfErr result (λ e. e ≡ Spent → last_number ≤ core.now.count) }
    ensures refusal { IfErr result (λ e. (e ≡ Kind) ⊎ (e ≡ Spent)) }
{
    if !core.schema().accepts(item) {
        return Err(Refusal::Kind);
    }
    if core.count() >= LAST_NUMBER {
        return Err(Refusal::Spent);
    }
    Ok(())
}

impl<D: Directory + Shelf> Ledger<D> {
    /// Puts the item in the place of the one of its id, if there is one, and answers the number of this write. Where 1,024 items
    /// wait they are flushed first. (Lucene: `IndexWriter.updateDocument`.)
    ///
    /// The first of these that is due comes: [`Refusal::Kind`] where the item is of another schema; [`Refusal::Spent`] where no
    /// number is left for the write, or none for the segment that a flush makes; else [`Refusal::Device`] where the flush fails,
    /// or [`Refusal::Memory`], where the directory counted no failure. A flush that ended stays done; else an error leaves at most
    /// names that are pending. A merge in the making goes on.
    pub fn put(&mut self, item: Item) -> Result<WriteNo, Refusal>
        ensures number { IfOk result (λ n. n ≡ (shape_in self.old).count + 1) }
        ensures item { OnOk result (IsItem (shape_in self.old).schema item) }
        ensures left { OnOk result ((shape_in self.old).count < last_number) }
        ensures ok { OnOk result (DoesCall D.bytes (Puts item) self.old self.new) }
        ensures kind { IfErr result (λ e. e ≡ Kind → (IsItem (shape_in self.old).schema item → ⊥) × (self.new ≡ self.old)) }
        ensures fitting { IfErr result (λ e. e ≢ Kind → IsItem (shape_in self.old).schema item) }
        ensures full { IsItem (shape_in self.old).schema item → last_number ≤ (shape_in self.old).count
            → (result ≡ Err Spent) × (self.new ≡ self.old) }
        ensures spent { IfErr result (λ e. e ≡ Spent → (last_number ≤ (shape_in self.old).count)
            ⊎ ((buffer_limit ≤ length (shape_in self.old).buffered) × MayNotFlush (shape_in self.old))) }
        ensures due { IfErr result (λ e. (e ≡ Memory) ⊎ (e ≡ Device) → IsItem (shape_in self.old).schema item
            × ((shape_in self.old).count < last_number)) }
        ensures room { IfErr result (λ e. (e ≡ Memory) ⊎ (e ≡ Device)
            → buffer_limit ≤ length (shape_in self.old).buffered → MayNotFlush (shape_in self.old) → ⊥) }
        ensures err { OnErr result (DoesCall D.bytes IsLeft self.old self.new) }
        ensures stays { OnErr result (KeepsMerge (shape_in self.old) (shape_in self.new)) }
        ensures crash { Spares D.may_leave self.old self.new }
        ensures refusal { IfErr result (λ e. (e ≡ Kind) ⊎ (e ≡ Memory) ⊎ (e ≡ Device) ⊎ (e ≡ Spent)) }
        ensures fails { CountsFailures D.can_fail D.fault_count (device_in self.old) (device_in self.new) result }
        ensures goes { GoesOn D.bytes D.may_leave self.old self.new }
    {
        if let Err(refusal) = judge_item(&self.core, &item) {
            return Err(refusal);
        }
        if let Err(refusal) = make_room(&mut self.core, &mut self.device) {
            return Err(refusal);
        }
        if let Err(AllocError) = self.core.put(item) {
            return Err(Refusal::Memory);
        }
        Ok(self.core.count())
    }

    /// Deletes the item of the id, if there is one, and answers the number of this write. (Lucene:
    /// `IndexWriter.deleteDocuments(Term)`.)
    ///
    /// [`Refusal::Spent`] where no number is left; else [`Refusal::Memory`]. An error changes nothing.
    pub fn delete(&mut self, id: &str) -> Result<WriteNo, Refusal>
        ensures number { IfOk result (λ n. n ≡ (shape_in self.old).count + 1) }
        ensures left { OnOk result ((shape_in self.old).count < last_number) }
        ensures ok { OnOk result (DoesCall D.bytes (λ l l'. l' ≡ wrote l (Write.delete id.now)) self.old self.new) }
        ensures full { last_number ≤ (shape_in self.old).count → result ≡ Err Spent }
        ensures spent { IfErr result (λ e. e ≡ Spent → last_number ≤ (shape_in self.old).count) }
        ensures err { OnErr result (self.new ≡ self.old) }
        ensures same { device_in self.new ≡ device_in self.old }
        ensures refusal { IfErr result (λ e. (e ≡ Memory) ⊎ (e ≡ Spent)) }
        ensures goes { GoesOn D.bytes D.may_leave self.old self.new }
    {
        if self.core.count() >= LAST_NUMBER {
            return Err(Refusal::Spent);
        }
        self.core.delete(id)?;
        Ok(self.core.count())
    }

    /// Deletes the items that the query matches, and answers the number of this write. (Lucene:
    /// `IndexWriter.deleteDocuments(Query)`.)
    ///
    /// [`Refusal::Spent`] where no number is left; else [`Refusal::Memory`]. An error changes nothing.
    pub fn delete_where(&mut self, query: &Query) -> Result<WriteNo, Refusal>
        ensures number { IfOk result (λ n. n ≡ (shape_in self.old).count + 1) }
        ensures left { OnOk result ((shape_in self.old).count < last_number) }
        ensures ok { OnOk result (DoesCall D.bytes (λ l l'. l' ≡ wrote l (Write.delete_where (query_of query.now))) self.old self.new) }
        ensures full { last_number ≤ (shape_in self.old).count → result ≡ Err Spent }
        ensures spent { IfErr result (λ e. e ≡ Spent → last_number ≤ (shape_in self.old).count) }
        ensures err { OnErr result (self.new ≡ self.old) }
        ensures same { device_in self.new ≡ device_in self.old }
        ensures refusal { IfErr result (λ e. (e ≡ Memory) ⊎ (e ≡ Spent)) }
        ensures goes { GoesOn D.bytes D.may_leave self.old self.new }
    {
        if self.core.count() >= LAST_NUMBER {
            return Err(Refusal::Spent);
        }
        self.core.delete_where(query)?;
        Ok(self.core.count())
    }
}
