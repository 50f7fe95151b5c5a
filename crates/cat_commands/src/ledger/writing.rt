//! The commands that write: each accepted one takes the next number.
//!
//! Lucene's `IndexWriter.updateDocument` and `deleteDocuments`, of the texts that a line carries.
ghost use Rattle.cat_directory.specs.Frames.{CountsFailures};
ghost use Rattle.std.specs.Prelude.{◌≡◌, ◌≢◌, ◌⊎◌, ℕ, ◌≤◌, length, IfOk, IfErr, IfSome, OnErr, Result, Err, Ok, true};
ghost use Rattle.cat_base.specs.declared.refusal.Refusal.TheVariants.{Memory, Query as NoQuery, Spent};
ghost use Rattle.cat_model.specs.Faults.{Fault};
ghost use Rattle.cat_model.specs.Grammar.{Spells};
ghost use Rattle.cat_model.specs.Heard.{IsQueryOf, id_of};
ghost use Rattle.cat_model.specs.Item.{IsItem, is_id};
ghost use Rattle.cat_model.specs.Limits.{buffer_limit, last_number};
ghost use Rattle.cat_model.specs.Lines.{Said};
ghost use Rattle.cat_model.specs.Query as model;
ghost use Rattle.cat_items.specs.Reading.{item_of, source_fault};
ghost use Rattle.cat_cached_sets.specs.cat_query.View.{query_of};
ghost use Rattle.cat_ledger.specs.cat_ledger_state.Cores.{MayNotFlush};
ghost use Rattle.cat_ledger.specs.Answering.{AnswersSaid};
ghost use Rattle.cat_ledger.specs.Histories.{GoesOn};
ghost use Rattle.cat_ledger.specs.Ledgers.{Spares, device_in, shape_in};
ghost use Rattle.cat_ledger.specs.Refusals.{KeepsMerge};
ghost use Rattle.cat_protocol.specs.replies.Reply.{reply_of};

use cat_base::Refusal;
use cat_cached_sets::Query;
use cat_directory::{Directory, Shelf};
use cat_items::{Item, id_ok};
use cat_ledger::Ledger;
use cat_protocol::replies::Answer;
use std::alloc::Global;

/// The item that the text is under the ledger's schema.
fn read_item<D: Directory + Shelf>(
    alloc: Global,
    ledger: &Ledger<D>,
    text: &str,
) -> Result<Item, Refusal>
    ensures ok { IfOk result (λ i. item_of (shape_in ledger.now).schema text.now ≡ Ok i) }
    ensures typed { IfOk result (λ i. IsItem (shape_in ledger.now).schema i) }
    ensures err { IfErr result (λ e. e ≢ Memory → item_of (shape_in ledger.now).schema text.now ≡ Err e) }
    ensures due { IfSome (source_fault text.now) (λ e. result ≡ Err e) }
{
    ledger.schema().item(alloc, text.as_bytes())
}

/// The query that the text spells under the ledger's schema.
fn read_query<D: Directory + Shelf>(
    alloc: Global,
    ledger: &Ledger<D>,
    text: &str,
) -> Result<Query, Refusal>
    ensures ok { IfOk result (λ q. Spells (shape_in ledger.now).schema text.now (query_of q)) }
    ensures err { IfErr result (λ e. e ≢ Memory → (place : ℕ) × (e ≡ NoQuery place) × Fault (shape_in ledger.now).schema text.now place) }
    ensures due { (place : ℕ) → Fault (shape_in ledger.now).schema text.now place → result ≡ Err (NoQuery place) }
    ensures judged { (q : Result model.Query Refusal) × IsQueryOf (shape_in ledger.now).schema text.now q }
{
    Query::parse(ledger.schema(), alloc, text)
}

/// Answers a PUT: the item that the text is takes the place of the one of its id, and the answer is the number of this write.
/// Where 1,024 items wait they are flushed first. (Lucene: `IndexWriter.updateDocument`.)
///
/// A fault of the text comes first, as [`Schema::item`](cat_items::Schema::item) tells it; then [`Refusal::Spent`] where no
/// number is left for the write, or none for the segment that a flush makes; else [`Refusal::Device`] where the flush fails.
/// [`Refusal::Memory`] may come once it is known that the text has 1 to 8,192 bytes, and that they are UTF-8; no failure is
/// counted then. A merge in the making goes on, also behind a refusal.
pub fn put<D: Directory + Shelf>(
    alloc: Global,
    ledger: &mut Ledger<D>,
    text: &str,
) -> Result<Answer, Refusal>
    ensures answers { (session : ℕ) → AnswersSaid D.bytes session (Said.put text.now) ledger.old (reply_of result) ledger.new }
    ensures due { IfSome (source_fault text.now) (λ e. result ≡ Err e) }
    ensures spent { IfErr result (λ e. e ≡ Spent → (last_number ≤ (shape_in ledger.old).count)
        ⊎ ((buffer_limit ≤ length (shape_in ledger.old).buffered) × MayNotFlush (shape_in ledger.old))) }
    ensures fails { CountsFailures D.can_fail D.fault_count (device_in ledger.old) (device_in ledger.new) result }
    ensures crash { Spares D.may_leave ledger.old ledger.new }
    ensures goes { GoesOn D.bytes D.may_leave ledger.old ledger.new }
    ensures stays { OnErr result (KeepsMerge (shape_in ledger.old) (shape_in ledger.new)) }
{
    let item = match read_item(alloc, ledger, text) {
        Ok(item) => item,
        Err(refusal) => return Err(refusal),
    };
    match ledger.put(item) {
        Ok(number) => Ok(Answer::Number(number)),
        Err(refusal) => Err(refusal),
    }
}

/// Answers a DEL: the item of the id goes, if there is one, and the answer is the number of this write. (Lucene:
/// `IndexWriter.deleteDocuments(Term)`.)
///
/// The first of these that is so is the refusal, which changes nothing: [`Refusal::Id`] where the id has the wrong form,
/// [`Refusal::Spent`] where no number is left, or [`Refusal::Memory`].
pub fn delete<D: Directory + Shelf>(ledger: &mut Ledger<D>, id: &str) -> Result<Answer, Refusal>
    ensures answers { (session : ℕ) → AnswersSaid D.bytes session (Said.delete id.now) ledger.old (reply_of result) ledger.new }
    ensures due { IfErr (id_of id.now) (λ e. result ≡ Err e) }
    ensures full { is_id id.now ≡ true → last_number ≤ (shape_in ledger.old).count → result ≡ Err Spent }
    ensures err { OnErr result (ledger.new ≡ ledger.old) }
    ensures same { device_in ledger.new ≡ device_in ledger.old }
    ensures goes { GoesOn D.bytes D.may_leave ledger.old ledger.new }
{
    if !id_ok(id) {
        return Err(Refusal::Id);
    }
    match ledger.delete(id) {
        Ok(number) => Ok(Answer::Number(number)),
        Err(refusal) => Err(refusal),
    }
}

/// Answers a DELW: the items that the query matches go, and the answer is the number of this write. (Lucene:
/// `IndexWriter.deleteDocuments(Query)`.)
///
/// [`Refusal::Query`] where the text has a fault, and only then; [`Refusal::Spent`] where no number is left; or
/// [`Refusal::Memory`]. A refusal changes nothing.
pub fn delete_where<D: Directory + Shelf>(
    alloc: Global,
    ledger: &mut Ledger<D>,
    text: &str,
) -> Result<Answer, Refusal>
    ensures answers { (session : ℕ) → AnswersSaid D.bytes session (Said.delete_where text.now) ledger.old (reply_of result) ledger.new }
    ensures due { (place : ℕ) → Fault (shape_in ledger.old).schema text.now place → result ≡ Err (NoQuery place) }
    ensures err { OnErr result (ledger.new ≡ ledger.old) }
    ensures same { device_in ledger.new ≡ device_in ledger.old }
    ensures goes { GoesOn D.bytes D.may_leave ledger.old ledger.new }
{
    let query = match read_query(alloc, ledger, text) {
        Ok(query) => query,
        Err(refusal) => return Err(refusal),
    };
    match ledger.delete_where(&query) {
        Ok(number) => Ok(Answer::Number(number)),
        Err(refusal) => Err(refusal),
    }
}
