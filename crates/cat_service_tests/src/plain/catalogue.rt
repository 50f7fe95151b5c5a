//! The plain catalogue: its table, its recorded views and the sessions' holds, and the lines that change them.
ghost use Rattle.std.specs.Prelude.{◌≡◌, ◌++◌, ◌∷◌, [], map, IfOk, IfSome, OnErr, Err};
ghost use Rattle.cat_model.specs.Run.{Exchange, Run, IsRun, Fits};
ghost use Rattle.cat_model.specs.State.{IsFresh, StandsFor};
ghost use Rattle.cat_model.specs.Table.{Opened};
ghost use Rattle.cat_service_tests.specs.plain.Exchange.{AreExchanges, DoesLine, IsExchangeOf};
ghost use Rattle.cat_service_tests.specs.plain.Line.{plain_of};
ghost use Rattle.cat_service_tests.specs.plain.Plain.{OpensPlain, beginning_of, put_fault};
ghost use Rattle.cat_service_tests.specs.plain.Reply.{plain_reply};

mod asking;
mod faceting;
mod getting;
mod holding;
mod reading;
mod writing;

use crate::plain::catalogue::asking::ask_of;
use crate::plain::holds::Hold;
use crate::plain::record::Record;
use crate::plain::recorded::RecordedTable;
use crate::plain::reply::{Answer, Reply};
use cat_base::{MAX_LINE_BYTES, Refusal, WriteNo};
use cat_items::Schema;
use cat_service::cat_protocol::lines::{Command, Line, SchemaLine};
use std::alloc::{AllocError, Global};
use std::marker::Model;

/// A catalogue in plain lists, with its sessions: each view is a list of records, and a read looks at each of them. So it
/// is slow, and shows what a service that keeps segments has to reply.
///
/// It answers PUT, DEL, DELW, REFRESH, OPEN, CLOSE, PRUNE, FIND, FACETS and GET, and any other line as one without a form.
///
/// Each write gets a number, as of Lucene's IndexWriter; views of the table are recorded under the number of its last write,
/// and held, as searchers of SearcherLifetimeManager are.
///
/// ```
/// let mut plain = Plain::open(alloc, r#"SCHEMA 10 1000 {"price":"number"}"#)?;
/// let line = Line::read(r#"1 PUT {"id":"a","price":7}"#)?;
/// let text = plain.step(&line).text(alloc)?; // 1 OK 1
/// ```
#[derive(Drop)]
pub struct Plain {
    alloc: Global,
    schema: Schema,
    table: Vec<Record>,
    count: WriteNo,
    views: Vec<RecordedTable>,
    holds: Vec<Hold>,
}

impl Model for Plain {
    ghost use Rattle.cat_model.specs.State.{IsSound};
    ghost use Rattle.std.specs.Prelude.{[]};
    ghost use Rattle.cat_service_tests.specs.plain.Plain.{PlainService};
    ghost use Rattle.cat_service_tests.specs.plain.Tables.{AreItems, AreViews, IsTable};

    ghost Value = { PlainService };

    ghost view = { λ w. record {
      schema = w.schema;
      state = record {
        table = w.table.items;
        count = w.count;
        views = w.views.items;
        holds = w.holds.items;
        commits = [];
        taken = [];
      };
    } };

    ghost invariant = { λ w. IsSound w.views.items w.holds.items × IsTable w.table.items w.count
        × AreItems w.schema w.table.items × AreViews w.schema w.views.items };
}

impl Plain {
    /// A service without items under the schema that the line gives, as
    /// `SCHEMA 2 1 {"price":"number"}`: a factor of merges (2 to 100), their minimum (1 to 100,000), and the schema.
    ///
    /// Refuses with `Line` what isn't of that form, or is longer than a line may be; with `Json` or `Kind` what is no schema.
    /// Want of memory can be told only of a line of the form.
    pub fn open(alloc: Global, line: &str) -> Result<Plain, Refusal>
        ensures { OpensPlain line.now result }
    {
        if MAX_LINE_BYTES < line.len() {
            return Err(Refusal::Line);
        }
        let Some(found) = SchemaLine::read(line) else {
            return Err(Refusal::Line);
        };
        let schema = Schema::read(alloc, found.json.as_bytes())?;
        Ok(Plain::new(alloc, schema)?)
    }

    /// A service without items under the schema: one view, of token 0.
    fn new(alloc: Global, schema: Schema) -> Result<Plain, AllocError>
        ensures fresh { IfOk result (λ w. IsFresh w.state) }
        ensures empty { IfOk result (λ w. (w.schema ≡ schema) × (w.state.table ≡ []) × (w.state.count ≡ 0)
            × (w.state.commits ≡ [])) }
    {
        let mut views = Vec::new(alloc);
        views.push(RecordedTable::new(0, Vec::new(alloc)))?;
        Ok(Plain {
            alloc,
            schema,
            table: Vec::new(alloc),
            count: 0,
            views,
            holds: Vec::new(alloc),
        })
    }

    /// Answers a line, whose session stands in the reply: commands that write, that record and hold, and that read. The
    /// others are answered as a line without a form is.
    fn answer(&mut self, line: &Line) -> Result<Answer, Refusal>
        ensures schema { self.new.schema ≡ self.old.schema }
        ensures does { DoesLine self.old.schema self.old.state line.now (plain_reply result) self.new.state }
        ensures due { IfSome (put_fault (plain_of line.now.command)) (λ e. result ≡ Err e) }
        ensures refused { OnErr result (self.new ≡ self.old) }
    {
        let session = line.session;
        match line.command {
            Command::Put(text) => self.answer_put(text),
            Command::Delete(id) => self.answer_delete(id),
            Command::DeleteWhere(query) => self.answer_delete_where(query),
            Command::Refresh => self.answer_refresh(),
            Command::Open(token) => self.answer_open(session, token),
            Command::Close(token) => self.answer_close(session, token),
            Command::Find(find) => {
                self.answer_find(session, find.token, ask_of(find), find.query)
            }
            Command::Facets(asked) => {
                self.answer_facets(
                    session,
                    asked.token,
                    asked.dimension,
                    asked.count,
                    asked.query,
                )
            }
            Command::Get { token, id } => self.answer_get(session, token, id),
            Command::Prune(count) => self.answer_prune(count),
            Command::NoForm
            | Command::FilesOfToken(_)
            | Command::FilesOfCommit(_)
            | Command::Commit(_)
            | Command::Note(_)
            | Command::Snapshot
            | Command::Unsnapshot(_)
            | Command::Merge
            | Command::Force
            | Command::Warm
            | Command::Sweep
            | Command::Stat => Err(Refusal::Line),
        }
    }

    /// Answers a line. Whatever run led here, the reply fits it, and what is left stands for the longer run. A line whose
    /// command isn't among those that are answered stands in the run as one without a form, which is refused with
    /// [`Refusal::Line`].
    ///
    /// [`Refusal::Memory`] comes only where the line takes memory and an OK was due; but a PUT is also refused so where
    /// memory doesn't suffice to read its item, if there is a text of at most 8,192 bytes. A line that is refused changes nothing.
    pub fn step(&mut self, line: &Line) -> Reply
        ensures session { result.session ≡ line.now.session }
        ensures schema { self.new.schema ≡ self.old.schema }
        ensures does { DoesLine self.old.schema self.old.state line.now (plain_reply result.answer) self.new.state }
        ensures due { IfSome (put_fault (plain_of line.now.command)) (λ e. result.answer ≡ Err e) }
        ensures refused { OnErr result.answer (self.new ≡ self.old) }
        ensures run { (from : Opened) (past : Run) → from.start.schema ≡ self.old.schema → IsRun from past
            → StandsFor from past self.old.state
            → (e : Exchange) × IsExchangeOf self.old.schema line.now result e × Fits from past e
            × StandsFor from (past ++ e ∷ []) self.new.state }
    {
        Reply {
            session: line.session,
            answer: self.answer(line),
        }
    }

    /// Answers the lines in turn. The list of replies is taken before the first step, so an error changes nothing.
    pub fn run(&mut self, alloc: Global, lines: &[Line]) -> Result<Vec<Reply>, AllocError>
        requires { IsFresh self.old.state }
        ensures sessions { IfOk result (λ replies. map (λ r. r.session) replies.items ≡ map (λ l. l.session) lines.now) }
        ensures schema { self.new.schema ≡ self.old.schema }
        ensures run { IfOk result (λ replies. (whole : Run) × AreExchanges self.old.schema lines.now replies.items whole
            × IsRun (beginning_of self.old) whole × StandsFor (beginning_of self.old) whole self.new.state) }
        ensures err { OnErr result (self.new ≡ self.old) }
    {
        let mut replies = Vec::with_capacity(alloc, lines.len())?;
        for line in lines {
            match replies.push(self.step(line)) {
                Ok(()) => {}
                Err(_) => unreachable!(),
            }
        }
        Ok(replies)
    }
}
