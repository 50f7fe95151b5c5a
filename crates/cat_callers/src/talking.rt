//! A session whose lines are all there, in a thread of its own.
ghost use Rattle.std.specs.Prelude.{◌≡◌};
ghost use Rattle.cat_threads.specs.service.Passes.{Follows};
ghost use Rattle.cat_callers.specs.Sessions.{AreRightsTo};

use crate::answerers::line_of;
use crate::asked::Asked;
use crate::front::Front;
use crate::heard::Spoken;
use crate::holdings::Holdings;
use cat_directory::{Directory, Shelf};
use cat_items::Schema;
use cat_threads::cat_protocol::replies::{Reply, send_reply};
use cat_threads::cat_protocol::sending::{WriteFault, send_unreadable};
use cat_threads::cat_protocol::serving::split_line;
use cat_threads::running::Caller;
use cat_threads::{Naming, Pass, Service};
use std::alloc::Global;
use std::io::Write;
use std::marker::PhantomData;
use std::sync::Wait;

/// What a session is told.
#[derive(Drop)]
pub(crate) struct Told {
    pub(crate) text: Vec<u8>,
    /// Whether that is all. Memory may have been wanting.
    pub(crate) whole: bool,
}

impl Told {
    /// Nothing is told yet.
    pub(crate) fn nothing(alloc: Global) -> Told {
        Told {
            text: Vec::new(alloc),
            whole: false,
        }
    }
}

/// A session on its way into its thread: what it says, and what it needs to be answered.
#[derive(Drop)]
pub(crate) struct Talk<'a, J: Naming, S: Shelf + Drop> {
    pub(crate) alloc: Global,
    pub(crate) schema: &'a Schema,
    pub(crate) asked: &'a Asked,
    pub(crate) spoken: &'a Spoken,
    pub(crate) shelf: S,
    pub(crate) of: PhantomData<J>,
    ghost fields: { schema.now ≡ J.from.start.schema },
}

impl<'a, J: Naming, S: Shelf + Drop> Talk<'a, J, S> {
    pub(crate) fn new(
        alloc: Global,
        schema: &'a Schema,
        asked: &'a Asked,
        spoken: &'a Spoken,
        shelf: S,
    ) -> Talk<'a, J, S>
        requires { schema.now ≡ J.from.start.schema }
    {
        Talk {
            alloc,
            schema,
            asked,
            spoken,
            shelf,
            of: PhantomData,
        }
    }
}

impl<'a, D: Directory + Shelf, J: Naming, R: Wait> Front<'a, D, J, R> {
    /// Answers a line of the session, and writes the reply.
    fn reply_to<S: Shelf, W: Write>(
        &self,
        me: &mut Pass<J>,
        holdings: &mut Holdings,
        shelf: &mut S,
        line: &[u8],
        to: &mut W,
    ) -> Result<(), WriteFault>
        requires own { holdings.old.session ≡ me.old.session }
        requires rights { AreRightsTo J.from me.old holdings.old.rights }
        ensures own { holdings.new.session ≡ me.new.session }
        ensures rights { AreRightsTo J.from me.new holdings.new.rights }
        ensures seen { Follows me.old me.new }
    {
        match line_of(line) {
            Some(line) => {
                let answer = self.tell(me, holdings, shelf, line.command);
                let session = line.session;
                send_reply(&Reply { session, answer }, to)
            }
            None => send_unreadable(to),
        }
    }

    /// Answers all lines of the session, one behind another.
    fn reply_to_all<S: Shelf, W: Write>(
        &self,
        me: &mut Pass<J>,
        holdings: &mut Holdings,
        shelf: &mut S,
        said: &[u8],
        to: &mut W,
    ) -> Result<(), WriteFault>
        requires own { holdings.old.session ≡ me.old.session }
        requires rights { AreRightsTo J.from me.old holdings.old.rights }
        ensures own { holdings.new.session ≡ me.new.session }
        ensures rights { AreRightsTo J.from me.new holdings.new.rights }
        ensures same { me.new.session ≡ me.old.session }
    {
        let mut rest = said;
        'lines: while let Some((line, more)) = split_line(rest) {
            self.reply_to(me, holdings, shelf, line, to)?;
            rest = more;
        }
        Ok(())
    }

    /// Answers all lines of a session that has no rights yet, and ends its rights. Whether all replies are written.
    fn talk<S: Shelf, W: Write>(
        &self,
        me: &mut Pass<J>,
        shelf: &mut S,
        said: &[u8],
        to: &mut W,
    ) -> bool
        ensures { me.new.session ≡ me.old.session }
    {
        let mut holdings = Holdings::new(self.alloc, me.session());
        let whole = self
            .reply_to_all(me, &mut holdings, shelf, said, to)
            .is_ok();
        self.end_holdings(me, holdings);
        whole
    }
}

impl<'a, D: Directory + Shelf, J: Naming, S: Shelf + Drop, R: Wait> Caller<D, J, R>
    for Talk<'a, J, S> {
    fn call(self, rt: &R, service: &Service<D, J>, me: &mut Pass<J>) {
        let Talk {
            alloc,
            schema,
            asked,
            spoken,
            mut shelf,
            of: _,
        } = self;
        let front = Front::new(rt, alloc, service, schema, asked);
        let mut text = Vec::new(alloc);
        let whole = front.talk(me, &mut shelf, spoken.lines.as_slice(), &mut text);
        *spoken.told.lock(rt) = Told { text, whole };
    }
}
