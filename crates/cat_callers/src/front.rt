//! Where the lines of sessions are answered.
ghost use Rattle.std.specs.Prelude.{◌≡◌};
ghost use Rattle.cat_threads.specs.cat_commands.cat_protocol.lines.Line.{said_of};
ghost use Rattle.cat_threads.specs.cat_commands.cat_protocol.replies.Reply.{reply_of};
ghost use Rattle.cat_threads.specs.service.Passes.{Follows};
ghost use Rattle.cat_ledger_laws.specs.shape.Ties.{ToldFiles};
ghost use Rattle.cat_callers.specs.Sessions.{AreRightsTo, Kept};
ghost use Rattle.cat_callers.specs.Told.{Tells, serves};
ghost use Rattle.cat_callers.specs.Needs.{NeedsNoRight, ServesAll};

use crate::asked::Asked;
use crate::holdings::Holdings;
use crate::session::Session;
use cat_base::Refusal;
use cat_directory::{Directory, Shelf};
use cat_items::Schema;
use cat_threads::cat_protocol::lines::Command;
use cat_threads::cat_protocol::replies::Answer;
use cat_threads::{Chore, Naming, Pass, Service};
use std::alloc::Global;
use std::sync::Wait;

/// Where the lines of sessions are answered: a service that threads share, with the fields of its items. Each thread may have one.
#[derive(Drop)]
pub struct Front<'a, D: Directory + Shelf, J: Naming, R> {
    pub(crate) rt: &'a R,
    pub(crate) alloc: Global,
    pub(crate) service: &'a Service<D, J>,
    pub(crate) schema: &'a Schema,
    pub(crate) asked: &'a Asked,
    ghost fields: { schema.now ≡ J.from.start.schema },
}

impl<'a, D: Directory + Shelf, J: Naming, R: Wait> Front<'a, D, J, R> {
    /// Over the service, whose items have the fields, beside what was asked there not long ago.
    pub fn new(
        rt: &'a R,
        alloc: Global,
        service: &'a Service<D, J>,
        schema: &'a Schema,
        asked: &'a Asked,
    ) -> Front<'a, D, J, R>
        requires { schema.now ≡ J.from.start.schema }
    {
        Front {
            rt,
            alloc,
            service,
            schema,
            asked,
        }
    }

    /// Answers a line of the session, as the protocol has it. A write stands in the one list of the service, and a token that was
    /// refreshed has all that the session had seen. A read is answered over the table of that list at its token, whatever others
    /// write. No read waits for the service's lock.
    pub fn answer<S: Shelf>(
        &self,
        session: &mut Session<J>,
        shelf: &mut S,
        command: Command<'_>,
    ) -> Result<Answer, Refusal>
        ensures seen { Follows session.old.pass session.new.pass }
        ensures told { Tells (S.bytes shelf.old) J.from (serves D.bytes J.from) (said_of command.entry) session.old.pass session.old.holdings session.new.pass session.new.holdings (reply_of result) }
    {
        self.tell(&mut session.pass, &mut session.holdings, shelf, command)
    }

    /// Ends the session: its rights go back to the service. It takes no memory.
    pub fn end(&self, session: Session<J>) {
        let Session { pass, holdings } = session;
        self.end_holdings(&pass, holdings);
    }

    /// Answers a line by what the session's pass and holdings are, which go on.
    pub(crate) fn tell<S: Shelf>(
        &self,
        me: &mut Pass<J>,
        holdings: &mut Holdings,
        shelf: &mut S,
        command: Command<'_>,
    ) -> Result<Answer, Refusal>
        requires own { holdings.old.session ≡ me.old.session }
        requires rights { AreRightsTo J.from me.old holdings.old.rights }
        ensures own { holdings.new.session ≡ me.new.session }
        ensures rights { AreRightsTo J.from me.new holdings.new.rights }
        ensures seen { Follows me.old me.new }
        ensures told { Tells (S.bytes shelf.old) J.from (serves D.bytes J.from) (said_of command.entry) me.old holdings.old me.new holdings.new (reply_of result) }
    {
        self.told_by(me, holdings, shelf, command)
    }

    /// Answers a line by what the session's pass and holdings are.
    fn told_by<S: Shelf>(
        &self,
        me: &mut Pass<J>,
        holdings: &mut Holdings,
        shelf: &mut S,
        command: Command<'_>,
    ) -> Result<Answer, Refusal>
        requires own { holdings.old.session ≡ me.old.session }
        requires rights { AreRightsTo J.from me.old holdings.old.rights }
        ensures same { holdings.new.session ≡ holdings.old.session }
        ensures seen { Follows me.old me.new }
        ensures told { Tells (S.bytes shelf.old) J.from (serves D.bytes J.from) (said_of command.entry) me.old holdings.old me.new holdings.new (reply_of result) }
    {
        match command {
            Command::Open(token) => self.open(me, holdings, token),
            Command::Close(token) => self.close(me, holdings, token),
            Command::Find(find) => self.find(me, holdings, find),
            Command::Facets(facets) => self.count_facets(holdings, facets),
            Command::Get { token, id } => self.get(holdings, shelf, token, id),
            Command::FilesOfToken(token) => self.files_of_token(holdings, token),
            _ => self.told_without(me, command),
        }
    }

    /// Answers a line that needs none of the session's rights.
    fn told_without(&self, me: &mut Pass<J>, command: Command<'_>) -> Result<Answer, Refusal>
        requires { NeedsNoRight command }
        ensures seen { Follows me.old me.new }
        ensures told { (files : ToldFiles) (kept : Kept) → Tells files J.from (serves D.bytes J.from) (said_of command.entry) me.old kept me.new kept (reply_of result) }
    {
        match command {
            Command::Put(text) => self.put(me, text),
            Command::Delete(id) => self.delete(me, id),
            Command::DeleteWhere(text) => self.delete_where(me, text),
            Command::Refresh => self.refresh(me),
            _ => self.told_to_all(me, command),
        }
    }

    /// Answers a line that serves all sessions, or has no form.
    fn told_to_all(&self, me: &Pass<J>, command: Command<'_>) -> Result<Answer, Refusal>
        requires { ServesAll command }
        ensures { (files : ToldFiles) (kept : Kept) → Tells files J.from (serves D.bytes J.from) (said_of command.entry) me.now kept me.now kept (reply_of result) }
    {
        match command {
            Command::Commit(text) => self.commit(text),
            Command::FilesOfCommit(generation) => self.told(Chore::Files(generation)),
            Command::Note(generation) => self.told(Chore::Note(generation)),
            Command::Snapshot => self.told(Chore::Snap),
            Command::Unsnapshot(generation) => self.told(Chore::Unsnap(generation)),
            Command::Prune(count) => self.told(Chore::Prune(count)),
            Command::Merge => self.maintain(me, Chore::Merge),
            Command::Force => self.maintain(me, Chore::Force),
            Command::Warm => self.maintain(me, Chore::Warm),
            Command::Sweep => self.maintain(me, Chore::Sweep),
            Command::Stat => self.maintain(me, Chore::Stat),
            _ => Err(Refusal::Line),
        }
    }
}
