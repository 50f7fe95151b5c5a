//! What a session keeps beside its pass.
ghost use Rattle.std.specs.Prelude.{◌≡◌, [], IfErr, IfOk, Ok, OnOk};
ghost use Rattle.cat_base.specs.declared.refusal.Refusal.TheVariants.{Memory};
ghost use Rattle.cat_ledger_laws.specs.lines.LineLaws.{tells};
ghost use Rattle.cat_threads.specs.cat_commands.cat_protocol.replies.Reply.{reply_of};
ghost use Rattle.cat_callers.specs.Sessions.{kept};
ghost use Rattle.cat_callers.specs.Told.{Holds};

use cat_base::{Refusal, SessionNo, Token};
use cat_lifetimes::rights::Rights;
use cat_threads::cat_cached_sets::filters::Filters;
use cat_threads::cat_protocol::ReaderStates;
use cat_threads::cat_protocol::replies::Answer;
use std::alloc::Global;
use std::marker::Model;

/// What a session keeps beside its pass: its rights to views, and the states of the facets that it counted last. (Lucene: the
/// searchers that a client has of `SearcherLifetimeManager.acquire`.)
///
/// It isn't dropped by leaving a scope: [`Front::end`](crate::Front::end) gives its rights back.
///
/// Contracts see it as the session's number, and the list of its rights.
pub(crate) struct Holdings {
    pub(crate) number: SessionNo,
    pub(crate) rights: Rights,
    // No set is in it: sets aren't shared among threads.
    pub(crate) filters: Option<Filters>,
    // With the token of the view that they are of.
    pub(crate) states: Option<(Token, ReaderStates)>,
}

impl Model for Holdings {
    ghost use Rattle.cat_callers.specs.Sessions.{IsKept, Kept, kept};

    ghost Value = { Kept };

    ghost view = { λ s. kept s.number s.rights };

    ghost invariant = { λ s. IsKept s.number s.rights s.filters s.states };
}

impl Holdings {
    /// A session without rights. It takes no memory.
    pub(crate) fn new(alloc: Global, number: SessionNo) -> Holdings
        ensures { result ≡ kept number [] }
    {
        Holdings {
            number,
            rights: Rights::new(alloc),
            filters: None,
            states: None,
        }
    }

    /// The token of a right that the session has.
    pub(crate) fn tell_held(&self, token: Token) -> Result<Answer, Refusal>
        ensures held { OnOk result (Holds self.now.rights self.now.session token) }
        ensures told { IfOk result (λ a. reply_of (Ok a) ≡ tells token) }
        ensures refusal { IfErr result (λ e. e ≡ Memory) }
    {
        if self.rights.get(self.number, token).is_some() {
            Ok(Answer::Number(token))
        } else {
            Err(Refusal::Memory)
        }
    }
}
