//! What a caller keeps.
ghost use Rattle.std.specs.Prelude.{◌≡◌, [], ◌∷◌};
ghost use Rattle.crossbeam_utils.specs.Seq.{cell_view};
ghost use Rattle.cat_threads.specs.history.Rules.{caller};
ghost use Rattle.cat_threads.specs.service.Passes.{AreOne, Follows, Idle, newcomer};

use crate::history::{self, Cell, Seat};
use crate::service::naming::Naming;
use cat_base::SessionNo;
use std::marker::{Model, PhantomData};
use std::sync::Wait;

/// A caller's session, with what it has seen: the list of accepted writes, of which the service's one list is a longer one, and
/// the token of the newest view. There is one for each session, and it can't be copied.
#[derive(Drop)]
pub struct Pass<J: Naming> {
    pub(crate) session: SessionNo,
    pub(crate) seat: Seat,
    of: PhantomData<J>,
}

impl<J: Naming> Model for Pass<J> {
    ghost use Rattle.std.specs.Prelude.{◌≡◌, ◌+◌, [], ◌∷◌};
    ghost use Rattle.std.specs.Coded.{codes};
    ghost use Rattle.crossbeam_utils.specs.Seq.{cell_view};
    ghost use Rattle.cat_commands.specs.cat_cached_sets.cache.Coding.{query_code};
    ghost use Rattle.cat_threads.specs.history.Rules.{caller};
    ghost use Rattle.cat_threads.specs.service.Passes.{Seen};

    ghost Value = { Seen };

    ghost coded = { Prim.hlevel (codes, query_code) };

    ghost view = { λ p. record { session = p.session; list = (cell_view p.seat).list; token = J.from.start.token + (cell_view p.seat).token } };

    ghost invariant = { λ p. (p.seat.table_id ≡ J.table)
        × (cell_view p.seat ≡ caller (cell_view p.seat).list (cell_view p.seat).token (p.session ∷ [])) };
}

impl<J: Naming> Pass<J> {
    /// A session that has seen nothing.
    pub(crate) fn new(session: SessionNo, seat: Seat) -> Pass<J>
        requires { (seat.table_id ≡ J.table) × (cell_view seat ≡ caller [] 0 (session ∷ [])) }
        ensures { result ≡ newcomer J.from.start.token session }
    {
        Pass {
            session,
            seat,
            of: PhantomData,
        }
    }

    /// The session's number.
    pub fn session(&self) -> SessionNo
        ensures { result ≡ self.now.session }
    {
        self.session
    }

    /// Both see what either had seen.
    pub(crate) fn meet<R: Wait>(&mut self, rt: &R, cell: &Cell, other: &mut Pass<J>)
        requires { cell.now.table.shared.table_id ≡ J.table }
        ensures seen { Follows self.old self.new × Follows other.old other.new }
        ensures idle { Idle self.old self.new × Idle other.old other.new }
        ensures before { AreOne self.old.list other.old.list }
        ensures met { (self.new.list ≡ other.new.list) × (self.new.token ≡ other.new.token) }
    {
        history::meet(rt, cell, &mut self.seat, &mut other.seat);
    }
}
