//! The sessions' rights, by session and token.
ghost use Rattle.std.specs.Prelude.{◌≡◌, ◌+◌, ◌<◌, ◌++◌, [], ◌∷◌, if◌then◌else◌, is_some, length, option_map};
ghost use Rattle.std.specs.Prelude.{None, Some, IfErr, IfNone, IfSome, OnErr, OnOk};
ghost use Rattle.cat_lifetimes.specs.rights.Rights.{PutsIn, TakesOut, right_of};

use crate::held::HeldToken;
use cat_base::{SessionNo, Token};
use cat_views::Hold;
use indexmap::IndexMap;
use std::alloc::Global;
use std::marker::Model;

/// The rights that sessions have to views, at most one for each session and token (Lucene: the searchers that a client has
/// of `SearcherLifetimeManager.acquire` and hasn't given to its `release`).
///
/// It isn't dropped by leaving a scope, no more than a [`Hold`] is: each right is taken out again, and then
/// [`destroy_empty`](Rights::destroy_empty) ends it.
///
/// Contracts see it as the list of the rights, in an order of its own.
///
/// ```text
/// let mut rights = Rights::new(alloc);
/// if let Err(hold) = rights.insert(hold) {
///     // There is no memory for it: it goes back to the ledger.
/// }
/// if let Some(hold) = rights.get(session, token) {
///     let page = Prepared::of(hold.view(), query)?.page(alloc, ask)?;
/// }
/// while let Some(hold) = rights.pop() {
///     // It goes back to the ledger.
/// }
/// rights.destroy_empty();
/// ```
pub struct Rights {
    // Each under its session and the token of its view.
    holds: IndexMap<HeldToken, Hold>,
}

impl Model for Rights {
    ghost use Rattle.std.specs.Prelude.{List};
    ghost use Rattle.indexmap.specs.IndexMap.{values};
    ghost use Rattle.cat_views.specs.Holds as model;
    ghost use Rattle.cat_lifetimes.specs.rights.Rights.{AreRightsKeyed};

    ghost Value = { List model.HeldView };

    ghost view = { λ r. values r.holds };

    ghost invariant = { λ r. AreRightsKeyed r.holds.entries };
}

impl Rights {
    /// No rights. The allocator gives the memory for those that come.
    pub fn new(alloc: Global) -> Rights
        ensures { result ≡ [] }
    {
        Rights {
            holds: IndexMap::new(alloc),
        }
    }

    /// The session's right to the view of the token; none where it has none, whoever else has one.
    pub fn get(&self, session: SessionNo, token: Token) -> Option<&Hold>
        ensures { option_map (λ h. h.now) result ≡ right_of self.now session token }
    {
        self.holds.get(&HeldToken::new(session, token))
    }

    /// Adds the right, whose session has none to its view. The error is for want of memory alone: the right comes back, and
    /// nothing has changed (Lucene: what the caller of `SearcherLifetimeManager.acquire` keeps).
    pub fn insert(&mut self, hold: Hold) -> Result<(), Hold>
        requires { right_of self.old hold.session hold.view.token ≡ None }
        ensures added { OnOk result (self.new ≡ self.old ++ hold ∷ []) }
        ensures found { OnOk result (PutsIn hold self.old self.new) }
        ensures returned { IfErr result (λ h. h ≡ hold) }
        ensures err { OnErr result (self.new ≡ self.old) }
    {
        let key = HeldToken::new(hold.session(), hold.token());
        match self.holds.insert(key, hold) {
            Ok(None) => Ok(()),
            Ok(Some(_other)) => unreachable!(),
            Err(refused) => {
                let (_, hold) = refused.value;
                Err(hold)
            }
        }
    }

    /// Takes out the session's right to the view of the token, which is [`get`](Rights::get)'s; all others stay. It takes no
    /// memory (Lucene: what goes to `SearcherLifetimeManager.release`).
    pub fn remove(&mut self, session: SessionNo, token: Token) -> Option<Hold>
        ensures removed { result ≡ right_of self.old session token }
        ensures others { TakesOut session token self.old self.new }
        ensures len { length self.new + (if is_some result then 1 else 0) ≡ length self.old }
        ensures unchanged { IfNone result (self.new ≡ self.old) }
    {
        self.holds.swap_remove(&HeldToken::new(session, token))
    }

    /// Takes out some right; none exactly where none is left. All others stay. It takes no memory.
    pub fn pop(&mut self) -> Option<Hold>
        ensures some { IfSome result (λ h. self.old ≡ self.new ++ h ∷ []) }
        ensures found { IfSome result (λ h. right_of self.old h.session h.view.token ≡ Some h) }
        ensures others { IfSome result (λ h. TakesOut h.session h.view.token self.old self.new) }
        ensures none { IfNone result (self.old ≡ []) }
        ensures unchanged { IfNone result (self.new ≡ self.old) }
        ensures len { length self.new + (if is_some result then 1 else 0) ≡ length self.old }
    {
        let (_, hold) = self.holds.pop()?;
        Some(hold)
    }

    /// Gives back its memory, once no right is left.
    pub fn destroy_empty(self)
        requires { self ≡ [] }
    {
        let Rights { holds } = self;
        holds.destroy_empty();
    }
}
