//! Lines that write, and those that record a view.
ghost use Rattle.std.specs.Prelude.{◌≡◌, ◌⊎◌, ℕ, Err, IfErr, IfOk, Ok, OnErr, Result};
ghost use Rattle.cat_base.specs.declared.refusal.Refusal.{Refusal};
ghost use Rattle.cat_base.specs.declared.refusal.Refusal.TheVariants.{Kind};
ghost use Rattle.cat_items.specs.Reading.{item_of};
ghost use Rattle.cat_ledger_laws.specs.lines.LineLaws.{tells};
ghost use Rattle.cat_model.specs.Heard.{IsQueryOf, id_of};
ghost use Rattle.cat_model.specs.Query as model;
ghost use Rattle.cat_threads.specs.cat_commands.cat_protocol.replies.Reply.{reply_of};
ghost use Rattle.cat_threads.specs.service.Passes.{Follows, Idle, Wrote};
ghost use Rattle.cat_threads.specs.service.Writes.{PutsForeign, write_of};
ghost use Rattle.cat_callers.specs.Told.{StopsWrite, ToldRefresh, ToldWrite, deleting, deleting_where, putting};

use crate::front::Front;
use cat_base::{Refusal, Text};
use cat_directory::{Directory, Shelf};
use cat_items::id_ok;
use cat_threads::cat_cached_sets::Query;
use cat_threads::cat_protocol::replies::Answer;
use cat_threads::{Naming, Pass, Write};
use std::sync::Wait;

impl<'a, D: Directory + Shelf, J: Naming, R: Wait> Front<'a, D, J, R> {
    /// Makes a write, and answers its number.
    fn write(&self, me: &mut Pass<J>, write: Write) -> Result<Answer, Refusal>
        ensures seen { Follows me.old me.new }
        ensures wrote { IfOk result (λ a. (n : ℕ) × (reply_of (Ok a) ≡ tells n) × Wrote J.from.start.token n (write_of write) me.old me.new) }
        ensures idle { OnErr result (Idle me.old me.new) }
        ensures refusal { IfErr result (λ e. ((e ≡ Kind) × PutsForeign J.from.start.schema (write_of write)) ⊎ StopsWrite e) }
    {
        match self.service.write(self.rt, me, write) {
            Ok(number) => Ok(Answer::Number(number)),
            Err(refusal) => Err(refusal),
        }
    }

    /// Answers a PUT. The item is read before the lock is taken.
    pub(crate) fn put(&self, me: &mut Pass<J>, text: &str) -> Result<Answer, Refusal>
        ensures seen { Follows me.old me.new }
        ensures told { ToldWrite J.from (λ a. a ≡ putting (item_of J.from.start.schema text.now)) me.old me.new (reply_of result) }
    {
        let item = match self.schema.item(self.alloc, text.as_bytes()) {
            Ok(item) => item,
            Err(refusal) => return Err(refusal),
        };
        self.write(me, Write::Put(item))
    }

    /// Answers a DEL.
    pub(crate) fn delete(&self, me: &mut Pass<J>, id: &str) -> Result<Answer, Refusal>
        ensures seen { Follows me.old me.new }
        ensures told { ToldWrite J.from (λ a. a ≡ deleting (id_of id.now)) me.old me.new (reply_of result) }
    {
        if !id_ok(id) {
            return Err(Refusal::Id);
        }
        let Ok(id) = Text::from_str(self.alloc, id) else {
            return Err(Refusal::Memory);
        };
        self.write(me, Write::Delete(id))
    }

    /// Answers a DELW. The query is read before the lock is taken.
    pub(crate) fn delete_where(&self, me: &mut Pass<J>, text: &str) -> Result<Answer, Refusal>
        ensures seen { Follows me.old me.new }
        ensures told { ToldWrite J.from (λ a. (q : Result model.Query Refusal) × IsQueryOf J.from.start.schema text.now q × (a ≡ deleting_where q))
            me.old me.new (reply_of result) }
    {
        let query = match Query::parse(self.schema, self.alloc, text) {
            Ok(query) => query,
            Err(refusal) => return Err(refusal),
        };
        self.write(me, Write::DeleteWhere(query))
    }

    /// Answers a REFRESH.
    pub(crate) fn refresh(&self, me: &mut Pass<J>) -> Result<Answer, Refusal>
        ensures seen { Follows me.old me.new }
        ensures idle { Idle me.old me.new }
        ensures told { ToldRefresh J.from me.old me.new (reply_of result) }
    {
        match self.service.refresh(self.rt, me) {
            Ok(token) => Ok(Answer::Number(token)),
            Err(refusal) => Err(refusal),
        }
    }
}
