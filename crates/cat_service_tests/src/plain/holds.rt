//! The sessions' holds of tokens.
ghost use Rattle.std.specs.Prelude.{◌≡◌, ◌==◌, ◌&&◌, filter, not};
ghost use Rattle.cat_model.specs.State.{has_hold, held_in};

use cat_base::{SessionNo, Token};
use std::marker::Model;

/// That a session holds a token.
#[derive(Clone, Copy)]
pub(crate) struct Hold {
    pub(crate) session: SessionNo,
    pub(crate) token: Token,
}

impl Model for Hold {
    ghost use Rattle.cat_model.specs.State as model;

    ghost Value = { model.Hold };

    ghost view = { λ h. record { session = h.session; token = h.token } };

    ghost inverse = { λ h. record { session = h.session; token = h.token } };
}

impl Hold {
    /// Whether this is the session's hold of the token.
    fn is_of(&self, session: SessionNo, token: Token) -> bool
        ensures { result ≡ ((self.now.session == session) && (self.now.token == token)) }
    {
        self.session == session && self.token == token
    }
}

/// Whether the session holds the token.
pub(crate) fn is_holding(holds: &[Hold], session: SessionNo, token: Token) -> bool
    ensures { result ≡ has_hold holds.now session token }
{
    for hold in holds {
        if hold.is_of(session, token) {
            return true;
        }
    }
    false
}

/// Whether any session holds the token.
pub(crate) fn is_held(holds: &[Hold], token: Token) -> bool
    ensures { result ≡ held_in holds.now token }
{
    for hold in holds {
        if hold.token == token {
            return true;
        }
    }
    false
}

/// Ends the session's hold of the token.
pub(crate) fn remove_hold(holds: &mut Vec<Hold>, session: SessionNo, token: Token)
    ensures { holds.new.items ≡ filter (λ h. not ((h.session == session) && (h.token == token))) holds.old.items }
{
    holds.retain(|hold| !hold.is_of(session, token));
}
