//! The lines that write: each accepted one takes the next number.
ghost use Rattle.std.specs.Prelude.{◌≡◌, ◌⊎◌, ◌+◌, ℕ, true, false, cond, ltb, IfOk, IfErr, IfSome, OnErr, Ok, Err};
ghost use Rattle.cat_base.specs.declared.refusal.Refusal.TheVariants.{Memory, Spent};
ghost use Rattle.cat_model.specs.Heard.{id_of};
ghost use Rattle.cat_model.specs.Item.{IsItem};
ghost use Rattle.cat_model.specs.Limits.{last_number};
ghost use Rattle.cat_model.specs.Run.{Command};
ghost use Rattle.cat_model.specs.State.{written};
ghost use Rattle.cat_model.specs.Write.{Write};
ghost use Rattle.cat_service_tests.specs.plain.Exchange.{DoesDeleteWhere};
ghost use Rattle.cat_service_tests.specs.plain.Plain.{DoesPlainly};
ghost use Rattle.cat_service_tests.specs.plain.Reply.{plain_reply};
ghost use Rattle.cat_search.specs.cat_query.View.{query_of};
ghost use Rattle.cat_search.specs.cat_items.Reading.{item_of, source_fault};

use crate::plain::catalogue::Plain;
use crate::plain::record::Record;
use crate::plain::reply::Answer;
use crate::plain::tables::{remove_hits, remove_id};
use cat_base::{LAST_NUMBER, Refusal, WriteNo};
use cat_items::{Item, id_ok};
use cat_query::Query;
use std::sync::Arc;

impl Plain {
    /// The item that the text is.
    fn item(&self, text: &str) -> Result<Item, Refusal>
        ensures ok { IfOk result (λ i. item_of self.now.schema text.now ≡ Ok i) }
        ensures err { IfErr result (λ e. (e ≡ Memory) ⊎ (item_of self.now.schema text.now ≡ Err e)) }
        ensures due { IfSome (source_fault text.now) (λ e. result ≡ Err e) }
        ensures typed { IfOk result (λ i. IsItem self.now.schema i) }
    {
        self.schema.item(self.alloc, text.as_bytes())
    }

    /// The number that a write gets now.
    fn next_number(&self) -> Result<WriteNo, Refusal>
        ensures ok { IfOk result (λ n. (n ≡ self.now.state.count + 1) × (ltb self.now.state.count last_number ≡ true)) }
        ensures err { IfErr result (λ e. (e ≡ Spent) × (ltb self.now.state.count last_number ≡ false)) }
    {
        if self.count < LAST_NUMBER {
            Ok(self.count + 1)
        } else {
            Err(Refusal::Spent)
        }
    }

    /// Takes out the item of the same id and puts this one last, as IndexWriter.updateDocument does.
    fn put(&mut self, item: Item) -> Result<WriteNo, Refusal>
        requires { IsItem self.old.schema item }
        ensures schema { self.new.schema ≡ self.old.schema }
        ensures ok { IfOk result (λ n. (ltb self.old.state.count last_number ≡ true) × (n ≡ self.old.state.count + 1)
            × (self.new.state ≡ written self.old.state (Write.put item))) }
        ensures unchanged { OnErr result (self.new ≡ self.old) }
        ensures err { IfErr result (λ e. (e ≡ Memory) ⊎ ((e ≡ Spent) × (ltb self.old.state.count last_number ≡ false))) }
        ensures spent { ltb self.old.state.count last_number ≡ false → result ≡ Err Spent }
    {
        let number = self.next_number()?;
        // All memory is taken before anything changes.
        let record = Record::new(number, Arc::new(self.alloc, item)?);
        self.table.reserve(1)?;
        remove_id(&mut self.table, record.item().id());
        match self.table.push(record) {
            Ok(()) => {}
            Err(_) => unreachable!(),
        }
        self.count = number;
        Ok(number)
    }

    /// Takes out the item of the id, as IndexWriter.deleteDocuments does. The write counts if there is none, too.
    fn delete(&mut self, id: &str) -> Result<WriteNo, Refusal>
        ensures schema { self.new.schema ≡ self.old.schema }
        ensures ok { IfOk result (λ n. (ltb self.old.state.count last_number ≡ true) × (n ≡ self.old.state.count + 1)
            × (self.new.state ≡ written self.old.state (Write.delete id.now))) }
        ensures unchanged { OnErr result (self.new ≡ self.old) }
        ensures err { IfErr result (λ e. (e ≡ Spent) × (ltb self.old.state.count last_number ≡ false)) }
    {
        let number = self.next_number()?;
        remove_id(&mut self.table, id);
        self.count = number;
        Ok(number)
    }

    /// Takes out the items that the query matches, as IndexWriter.deleteDocuments of a query does. The write counts if there
    /// is none, too.
    fn delete_where(&mut self, query: &Query) -> Result<WriteNo, Refusal>
        ensures schema { self.new.schema ≡ self.old.schema }
        ensures ok { IfOk result (λ n. (ltb self.old.state.count last_number ≡ true) × (n ≡ self.old.state.count + 1)
            × (self.new.state ≡ written self.old.state (Write.delete_where (query_of query.now)))) }
        ensures unchanged { OnErr result (self.new ≡ self.old) }
        ensures err { IfErr result (λ e. (e ≡ Spent) × (ltb self.old.state.count last_number ≡ false)) }
    {
        let number = self.next_number()?;
        remove_hits(&mut self.table, query);
        self.count = number;
        Ok(number)
    }

    /// Why a write gets no number where memory is wanting for it: no number is left, or else the want of memory.
    fn refusal_of_write(&self) -> Refusal
        ensures { result ≡ cond (ltb self.now.state.count last_number) Memory Spent }
    {
        match self.next_number() {
            Ok(_) => Refusal::Memory,
            Err(refusal) => refusal,
        }
    }

    /// Answers a PUT.
    pub(super) fn answer_put(&mut self, text: &str) -> Result<Answer, Refusal>
        ensures schema { self.new.schema ≡ self.old.schema }
        ensures does { (s : ℕ) → DoesPlainly self.old.schema self.old.state s (Command.put (item_of self.old.schema text.now))
            (plain_reply result) self.new.state }
        ensures due { IfSome (source_fault text.now) (λ e. result ≡ Err e) }
        ensures refused { OnErr result (self.new ≡ self.old) }
    {
        let item = self.item(text)?;
        Ok(Answer::Number(self.put(item)?))
    }

    /// Answers a DEL.
    pub(super) fn answer_delete(&mut self, id: &str) -> Result<Answer, Refusal>
        ensures schema { self.new.schema ≡ self.old.schema }
        ensures does { (s : ℕ) → DoesPlainly self.old.schema self.old.state s (Command.delete (id_of id.now)) (plain_reply result)
            self.new.state }
        ensures refused { OnErr result (self.new ≡ self.old) }
    {
        if !id_ok(id) {
            return Err(Refusal::Id);
        }
        Ok(Answer::Number(self.delete(id)?))
    }

    /// Answers a DELW.
    ///
    /// A text that is no query is refused first, then a write that no number is left for. Want of memory comes last.
    pub(super) fn answer_delete_where(&mut self, text: &str) -> Result<Answer, Refusal>
        ensures schema { self.new.schema ≡ self.old.schema }
        ensures does { (s : ℕ) → DoesDeleteWhere self.old s text.now (plain_reply result) self.new.state }
        ensures refused { OnErr result (self.new ≡ self.old) }
    {
        match self.query(text)? {
            Some(query) => Ok(Answer::Number(self.delete_where(&query)?)),
            None => Err(self.refusal_of_write()),
        }
    }
}
