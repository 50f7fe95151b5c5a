//! A session with a token: that it holds it, and by what its right to the view is found.
ghost use Rattle.std.specs.Prelude.{◌≡◌};

use cat_base::{SessionNo, Token};
use std::marker::Model;

/// A session, and a token that it holds.
#[derive(Clone, Copy, PartialEq, Eq, Hash)]
pub(crate) struct HeldToken {
    session: SessionNo,
    token: Token,
}

impl Model for HeldToken {
    ghost use Rattle.cat_model.specs.State as model;

    ghost Value = { model.Hold };

    ghost view = { λ h. record { session = h.session; token = h.token } };

    ghost inverse = { λ h. record { session = h.session; token = h.token } };
}

impl HeldToken {
    pub(crate) fn new(session: SessionNo, token: Token) -> HeldToken
        ensures { result ≡ record { session = session; token = token } }
    {
        HeldToken { session, token }
    }
}
