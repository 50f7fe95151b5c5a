//! Recorded views, and the sessions' holds of them.
//!
//! Lucene's `SearcherLifetimeManager`: `record`, `acquire`, `release`, `prune`. What a view shows is left to cat_search.
ghost use Rattle.std.specs.Prelude.{◌≡◌, ◌-◌, ◌==◌, [], true, false, filter, length, map, not, IfOk, OnOk, OnErr};
ghost use Rattle.std.specs.List.{list_any};
ghost use Rattle.cat_model.specs.Run.{is_full};
ghost use Rattle.cat_model.specs.State.{has_hold, held_in};
ghost use Rattle.cat_directory.specs.Names.{name_of};
ghost use Rattle.cat_lifetimes.specs.records.Records.{acquired, released, stays_by};
ghost use Rattle.cat_ledger_laws.specs.shape.Shapes.{names_of_views, view_now};
ghost use Rattle.cat_ledger_laws.specs.shape.Steps.{ShapeRecordsNow, IsPruned, tokens_of};
ghost use Rattle.cat_ledger_state.specs.Cores.{views_and_holds};

use crate::state::Core;
use crate::users::move_users;
use cat_base::{MAX_RECORDS, SessionNo, Token};
use cat_commits::View;
use cat_directory::FileName;
use cat_lifetimes::records::Records;
use std::alloc::{AllocError, Global};

impl Core {
    /// The segments that stand, as a searcher sees them now. All in it is shared.
    fn view(&self) -> Result<View, AllocError>
        ensures { IfOk result (λ v. v ≡ view_now self.now) }
    {
        let leaves = self.current.copy()?;
        View::of(self.alloc, self.schema.copy()?, leaves, self.count)
    }

    /// Records a view of now, where nothing waits, no view of now is recorded yet, and there is room for one; the view goes
    /// that has to, which nobody holds (Lucene: `SearcherLifetimeManager.record`). An error changes nothing.
    pub fn record_view(&mut self) -> Result<(), AllocError>
        requires flushed { self.old.buffered ≡ [] }
        requires fresh { list_any (λ v. v.token == self.old.count) self.old.views ≡ false }
        requires space { is_full (held_in self.old.holds) (tokens_of self.old.views) ≡ false }
        ensures ok { OnOk result (ShapeRecordsNow self.old self.new) }
        ensures err { OnErr result (self.new ≡ self.old) }
    {
        let view = self.view()?;
        let taken = view.files(self.alloc)?;
        let given = files_leaving(self.alloc, &self.records)?;
        prove!(self.records.len() <= MAX_RECORDS);
        move_users(&mut self.refs, &taken, &given)?;
        self.records.record(view);
        Ok(())
    }

    /// Lets the session hold the token, of which a view is recorded (Lucene: `SearcherLifetimeManager.acquire`). An error
    /// changes nothing.
    pub fn hold(&mut self, session: SessionNo, token: Token) -> Result<(), AllocError>
        requires { list_any (λ v. v.token == token) self.old.views ≡ true }
        ensures ok { OnOk result (self.new ≡ record self.old { holds = (acquired (views_and_holds self.old) session token).holds }) }
        ensures err { OnErr result (self.new ≡ self.old) }
    {
        let held = self.records.acquire(session, token);
        // Its contract says that each held token has a view.
        let _views = self.records.recorded();
        held
    }

    /// Ends the session's hold of the token, and answers whether it had one (Lucene: `SearcherLifetimeManager.release`). It
    /// takes no memory.
    pub fn let_go(&mut self, session: SessionNo, token: Token) -> bool
        ensures held { result ≡ has_hold self.old.holds session token }
        ensures released { self.new ≡ record self.old { holds = (released (views_and_holds self.old) session token).holds } }
    {
        let had = self.records.release(session, token);
        // Its contract says that each held token has a view.
        let _views = self.records.recorded();
        had
    }

    /// Takes out each view that isn't among the newest, as many as the count says but at least one, and that nobody holds;
    /// answers how many went (Lucene: `SearcherLifetimeManager.prune` by a `Pruner`). An error changes nothing.
    pub fn prune(&mut self, count: u64) -> Result<u64, AllocError>
        ensures went { IfOk result (λ n. n ≡ length self.old.views - length self.new.views) }
        ensures ok { OnOk result (IsPruned count self.old self.new) }
        ensures err { OnErr result (self.new ≡ self.old) }
    {
        let given = self.records.files_dropped(self.alloc, count)?;
        self.refs.give(&given);
        Ok(self.records.prune(count))
    }
}

/// The names of the files of the view that goes as one more is recorded: none where there is room.
fn files_leaving(alloc: Global, records: &Records) -> Result<Vec<FileName>, AllocError>
    ensures { IfOk result (λ names. map name_of names.items
        ≡ names_of_views (filter (λ v. not (stays_by records.now v)) records.now.views)) }
{
    match records.leaving() {
        Some(view) => view.files(alloc),
        None => Ok(Vec::new(alloc)),
    }
}
