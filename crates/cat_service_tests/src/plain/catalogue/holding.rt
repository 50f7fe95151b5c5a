//! The lines that record the table under a token and prune what is recorded, and those that begin and end a session's hold.
ghost use Rattle.std.specs.Prelude.{◌≡◌, ◌⊎◌, ◌-◌, ℕ, Option, Some, None, true, false, length, IfOk, IfErr, OnOk, OnErr};
ghost use Rattle.cat_base.specs.declared.refusal.Refusal.TheVariants.{Full, Memory};
ghost use Rattle.cat_model.specs.Run.{Command, greatest};
ghost use Rattle.cat_model.specs.State.{has_hold, has_view, held_in, refreshed, refuses_refresh, tokens, views_pruned, with_hold, without_hold};
ghost use Rattle.cat_service_tests.specs.plain.Plain.{DoesPlainly, open_command};
ghost use Rattle.cat_service_tests.specs.plain.Reply.{plain_reply};

use crate::plain::catalogue::Plain;
use crate::plain::holds::{Hold, is_holding, remove_hold};
use crate::plain::recorded::{
    RecordedTable, is_recorded, leaving, newest, prune_views, record_view,
};
use crate::plain::reply::Answer;
use crate::plain::tables::copy_records;
use cat_base::{Refusal, SessionNo, Token};
use std::alloc::AllocError;

impl Plain {
    fn is_recorded(&self, token: Token) -> bool
        ensures { result ≡ has_view self.now.state.views token }
    {
        is_recorded(&self.views, token)
    }

    pub(super) fn is_holding(&self, session: SessionNo, token: Token) -> bool
        ensures { result ≡ has_hold self.now.state.holds session token }
    {
        is_holding(&self.holds, session, token)
    }

    fn newest_token(&self) -> Token
        ensures newest { result ≡ greatest (tokens self.now.state.views) }
        ensures recorded { has_view self.now.state.views result ≡ true }
    {
        newest(&self.views)
    }

    /// Records the table as it is now, unless it is recorded, as SearcherLifetimeManager.record does. Where no more may
    /// stand, the oldest that no session holds goes.
    fn refresh(&mut self) -> Result<Token, Refusal>
        ensures schema { self.new.schema ≡ self.old.schema }
        ensures ok { IfOk result (λ t. (refuses_refresh self.old.state ≡ false) × (t ≡ self.old.state.count)
            × (self.new.state ≡ refreshed self.old.state)) }
        ensures unchanged { OnErr result (self.new ≡ self.old) }
        ensures err { IfErr result (λ e. ((e ≡ Full) × (refuses_refresh self.old.state ≡ true))
            ⊎ ((e ≡ Memory) × (has_view self.old.state.views self.old.state.count ≡ false) × (refuses_refresh self.old.state ≡ false))) }
    {
        if self.is_recorded(self.count) {
            return Ok(self.count);
        }
        let gone = leaving(&self.views, &self.holds)?;
        let view = RecordedTable::new(self.count, copy_records(self.alloc, &self.table)?);
        record_view(&mut self.views, gone, view)?;
        Ok(self.count)
    }

    /// Lets the session hold the token, as SearcherLifetimeManager.acquire does. A second hold changes nothing.
    fn hold(&mut self, session: SessionNo, token: Token) -> Result<(), AllocError>
        requires { has_view self.old.state.views token ≡ true }
        ensures schema { self.new.schema ≡ self.old.schema }
        ensures ok { OnOk result (self.new.state ≡ with_hold self.old.state session token) }
        ensures err { OnErr result ((has_hold self.old.state.holds session token ≡ false) × (self.new ≡ self.old)) }
    {
        if !self.is_holding(session, token) {
            self.holds.push(Hold { session, token })?;
        }
        Ok(())
    }

    /// Ends the session's hold of the token.
    fn release(&mut self, session: SessionNo, token: Token)
        ensures schema { self.new.schema ≡ self.old.schema }
        ensures state { self.new.state ≡ without_hold self.old.state session token }
    {
        remove_hold(&mut self.holds, session, token);
    }

    /// Takes out each view that no session holds, but for the newest so many, at least one, as SearcherLifetimeManager.prune
    /// does by its Pruner; answers how many went.
    fn prune(&mut self, count: u64) -> Result<u64, AllocError>
        ensures schema { self.new.schema ≡ self.old.schema }
        ensures went { IfOk result (λ n. n ≡ length self.old.state.views - length self.new.state.views) }
        ensures ok { OnOk result (self.new.state
            ≡ record self.old.state { views = views_pruned (held_in self.old.state.holds) count self.old.state.views }) }
        ensures err { OnErr result (self.new ≡ self.old) }
    {
        let went = prune_views(self.alloc, &mut self.views, &self.holds, count)?;
        Ok(went)
    }

    /// Answers a PRUNE.
    pub(super) fn answer_prune(&mut self, count: u64) -> Result<Answer, Refusal>
        ensures schema { self.new.schema ≡ self.old.schema }
        ensures does { (s : ℕ) → DoesPlainly self.old.schema self.old.state s (Command.prune count) (plain_reply result) self.new.state }
        ensures refused { OnErr result (self.new ≡ self.old) }
    {
        match self.prune(count) {
            Ok(went) => Ok(Answer::Number(went)),
            Err(AllocError) => Err(Refusal::Memory),
        }
    }

    /// Answers a REFRESH.
    pub(super) fn answer_refresh(&mut self) -> Result<Answer, Refusal>
        ensures schema { self.new.schema ≡ self.old.schema }
        ensures does { (s : ℕ) → DoesPlainly self.old.schema self.old.state s Command.refresh (plain_reply result) self.new.state }
        ensures refused { OnErr result (self.new ≡ self.old) }
    {
        Ok(Answer::Number(self.refresh()?))
    }

    /// Answers an OPEN of the token, or of the newest.
    pub(super) fn answer_open(
        &mut self,
        session: SessionNo,
        token: Option<Token>,
    ) -> Result<Answer, Refusal>
        ensures schema { self.new.schema ≡ self.old.schema }
        ensures does { DoesPlainly self.old.schema self.old.state session (open_command token) (plain_reply result) self.new.state }
        ensures refused { OnErr result (self.new ≡ self.old) }
    {
        let token = match token {
            None => self.newest_token(),
            Some(token) if self.is_recorded(token) => token,
            Some(_) => return Err(Refusal::Gone),
        };
        self.hold(session, token)?;
        Ok(Answer::Number(token))
    }

    /// Answers a CLOSE.
    pub(super) fn answer_close(
        &mut self,
        session: SessionNo,
        token: Token,
    ) -> Result<Answer, Refusal>
        ensures schema { self.new.schema ≡ self.old.schema }
        ensures does { DoesPlainly self.old.schema self.old.state session (Command.close token) (plain_reply result) self.new.state }
        ensures refused { OnErr result (self.new ≡ self.old) }
    {
        if !self.is_holding(session, token) {
            return Err(Refusal::NotHeld);
        }
        self.release(session, token);
        Ok(Answer::Number(token))
    }
}
