//! Lines that give a session a right to a view, end it, or tell by it what the view needs.
ghost use Rattle.std.specs.Prelude.{◌≡◌, ◌⊎◌, IfOk, OnErr, OnOk};
ghost use Rattle.cat_threads.specs.cat_commands.cat_ledger.cat_lifetimes.rights.Rights.{PutsIn};
ghost use Rattle.cat_threads.specs.cat_commands.cat_protocol.replies.Reply.{reply_of};
ghost use Rattle.cat_threads.specs.service.Passes.{Follows, Idle};
ghost use Rattle.cat_callers.specs.Told.{Holds, ToldClose, ToldNames, ToldOpen};

use crate::front::Front;
use crate::holdings::Holdings;
use cat_base::{Refusal, Token};
use cat_directory::{Directory, Shelf};
use cat_lifetimes::rights::Rights;
use cat_threads::cat_cached_sets::Hold;
use cat_threads::cat_ledger::Grant;
use cat_threads::cat_protocol::replies::Answer;
use cat_threads::{Naming, Pass};
use std::alloc::AllocError;
use std::sync::Wait;

impl<'a, D: Directory + Shelf, J: Naming, R: Wait> Front<'a, D, J, R> {
    /// Gives the right back to the service. One that it doesn't count ends all the same.
    fn give_back(&self, me: &Pass<J>, hold: Hold) -> bool {
        match self.service.close(self.rt, me, hold) {
            Ok(_released) => true,
            Err(hold) => {
                hold.give_up();
                false
            }
        }
    }

    /// Keeps the right that the session was granted. Without memory for it, it is given back. The states of facets are given up.
    fn keep(&self, me: &Pass<J>, holdings: &mut Holdings, hold: Hold) -> Result<Token, AllocError>
        requires own { hold.session ≡ holdings.old.session }
        ensures same { holdings.new.session ≡ holdings.old.session }
        ensures token { IfOk result (λ t. t ≡ hold.view.token) }
        ensures kept { OnOk result (PutsIn hold holdings.old.rights holdings.new.rights
            ⊎ ((holdings.new.rights ≡ holdings.old.rights) × Holds holdings.old.rights holdings.old.session hold.view.token)) }
        ensures err { OnErr result (holdings.new.rights ≡ holdings.old.rights) }
    {
        let token = hold.token();
        if holdings.rights.get(hold.session(), token).is_some() {
            hold.give_up();
            return Ok(token);
        }
        holdings.states = None;
        match holdings.rights.insert(hold) {
            Ok(()) => Ok(token),
            Err(hold) => {
                self.give_back(me, hold);
                Err(AllocError)
            }
        }
    }

    /// Answers an OPEN.
    pub(crate) fn open(
        &self,
        me: &mut Pass<J>,
        holdings: &mut Holdings,
        token: Option<Token>,
    ) -> Result<Answer, Refusal>
        requires own { holdings.old.session ≡ me.old.session }
        ensures same { holdings.new.session ≡ holdings.old.session }
        ensures seen { Follows me.old me.new }
        ensures idle { Idle me.old me.new }
        ensures told { ToldOpen J.from token me.old me.new holdings.old.rights holdings.new.rights (reply_of result) }
    {
        match self.service.open(self.rt, me, token) {
            Ok(Grant::New(hold)) => match self.keep(me, holdings, hold) {
                Ok(token) => Ok(Answer::Number(token)),
                Err(AllocError) => Err(Refusal::Memory),
            },
            Ok(Grant::Already(held)) => match token {
                Some(asked) => holdings.tell_held(asked),
                None => holdings.tell_held(held),
            },
            Err(refusal) => Err(refusal),
        }
    }

    /// Answers a CLOSE.
    pub(crate) fn close(
        &self,
        me: &Pass<J>,
        holdings: &mut Holdings,
        token: Token,
    ) -> Result<Answer, Refusal>
        requires own { holdings.old.session ≡ me.now.session }
        ensures same { holdings.new.session ≡ holdings.old.session }
        ensures told { ToldClose me.now.session token holdings.old.rights holdings.new.rights (reply_of result) }
    {
        let Some(hold) = holdings.rights.remove(holdings.number, token) else {
            return Err(Refusal::NotHeld);
        };
        holdings.states = None;
        if !self.give_back(me, hold) {
            return Err(Refusal::NotHeld);
        }
        Ok(Answer::Number(token))
    }

    /// Answers a FILES of a token.
    pub(crate) fn files_of_token(
        &self,
        holdings: &Holdings,
        token: Token,
    ) -> Result<Answer, Refusal>
        ensures { ToldNames holdings.now.session holdings.now.rights token (reply_of result) }
    {
        let Some(hold) = holdings.rights.get(holdings.number, token) else {
            return Err(Refusal::NotHeld);
        };
        match hold.files(self.alloc) {
            Ok(names) => {
                let mut names = names;
                names.sort_unstable();
                Ok(Answer::Names(names))
            }
            Err(AllocError) => Err(Refusal::Memory),
        }
    }

    /// Gives all rights of the session back to the service. It takes no memory.
    pub(crate) fn end_holdings(&self, me: &Pass<J>, holdings: Holdings) {
        let Holdings {
            number: _,
            rights,
            filters: _,
            states: _,
        } = holdings;
        self.end_rights(me, rights);
    }

    fn end_rights(&self, me: &Pass<J>, rights: Rights) {
        let mut rights = rights;
        'rights: while let Some(hold) = rights.pop() {
            self.give_back(me, hold);
        }
        rights.destroy_empty();
    }
}
