//! The service: the ledger under a lock, beside the words that its callers share.
ghost use Rattle.std.specs.Prelude.{◌≡◌, ◌≢◌, ◌⊎◌, List, IfOk, OnErr, OnOk, IfErr, Ok, None, [], map, true};
ghost use Rattle.crossbeam_utils.specs.Seq.{cell_view};
ghost use Rattle.cat_base.specs.declared.refusal.Refusal.TheVariants.{Device, Full, Gone, Kind, Memory, NotHeld, Spent};
ghost use Rattle.cat_commands.specs.cat_ledger.Grants.{released_session, released_token};
ghost use Rattle.cat_commands.specs.cat_ledger.Ledgers.{device_in, shape_in};
ghost use Rattle.cat_threads.specs.history.Rules.{scribe as scribe_sight};
ghost use Rattle.cat_threads.specs.history.Entries.{LogEntry};
ghost use Rattle.cat_threads.specs.sharing.Grounds.{ground_of};
ghost use Rattle.cat_threads.specs.sharing.ShareLaws.{IsOfGroundList};
ghost use Rattle.cat_threads.specs.service.Begins.{OneHistory};
ghost use Rattle.cat_threads.specs.service.Passes.{AreOne, Follows, Granted, Idle, IfNew, Refreshed, Wrote, all_different, newcomer, seated_by};
ghost use Rattle.cat_threads.specs.service.Chores.{IsToldOver, chore_done};
ghost use Rattle.cat_threads.specs.service.Writes.{PutsForeign, write_of};

use crate::history::{self, Cell, Seat};
use crate::running::Gate;
use crate::service::begun::Begun;
use crate::service::chores::{Chore, Outcome};
use crate::service::desk::{Desk, Noted};
use crate::service::naming::Naming;
use crate::service::pass::Pass;
use crate::service::writes::Write;
use cat_base::{Refusal, SessionNo, Token, WriteNo};
use cat_commands::cat_cached_sets::Query;
use cat_commands::cat_cached_sets::filters::Filters;
use cat_commands::cat_ledger::{Grant, Hold, Ledger, Released};
use cat_commands::cat_protocol::Prepared;
use cat_directory::{Directory, Shelf};
use std::alloc::{AllocError, Global};
use std::sync::{Mutex, Wait};

/// One ledger for callers in their own threads. Each call that needs the ledger is one locked section with one call of
/// [`Ledger`] in it, where the caller also learns how the one list of accepted writes went on. Pages, stored texts and counts
/// are asked of a [`Hold`], which needs no lock. (Lucene: an `IndexWriter` and a `SearcherLifetimeManager` that threads share.)
///
/// What a call says holds if it returns; that it is ever given the lock isn't promised.
pub struct Service<D: Directory + Shelf, J: Naming> {
    cell: Cell,
    desk: Mutex<Desk<D, J>>,
    ghost named: { cell.table.shared.table_id ≡ J.table },
}

impl<D: Directory + Shelf + Drop, J: Naming> Drop for Service<D, J> {
    fn drop(self) {
        let Service { cell: _, desk } = self;
        drop(desk);
    }
}

impl<D: Directory + Shelf, J: Naming> Service<D, J> {
    /// Makes the write, and answers its number: the list that the caller has seen at the exit has the write at this number
    /// under the caller's session, behind all that the caller had seen before, and of its session nothing else is new. (Lucene:
    /// the sequence number that `IndexWriter.updateDocument` and `IndexWriter.deleteDocuments` return.)
    ///
    /// The refusals are those of [`Ledger::put`], [`Ledger::delete`] and [`Ledger::delete_where`]: [`Refusal::Kind`] only for
    /// an item of another schema than the service began with. What was refused isn't in the list.
    pub fn write<R: Wait>(&self, rt: &R, me: &mut Pass<J>, write: Write) -> Result<WriteNo, Refusal>
        ensures seen { Follows me.old me.new }
        ensures wrote { IfOk result (λ n. Wrote J.from.start.token n (write_of write) me.old me.new) }
        ensures idle { OnErr result (Idle me.old me.new) }
        ensures kind { IfErr result (λ e. e ≡ Kind → PutsForeign J.from.start.schema (write_of write)) }
        ensures refusal { IfErr result (λ e. (e ≡ Kind) ⊎ (e ≡ Memory) ⊎ (e ≡ Device) ⊎ (e ≡ Spent)) }
    {
        self.desk.lock(rt).write(rt, &self.cell, me, write)
    }

    /// Records a view of now, and answers its token, which is the number of writes: no fewer than the caller had seen at the
    /// entry. (Lucene: `SearcherLifetimeManager.record` of `DirectoryReader.open(IndexWriter)`.)
    ///
    /// The refusals are those of [`Ledger::refresh`].
    pub fn refresh<R: Wait>(&self, rt: &R, me: &mut Pass<J>) -> Result<Token, Refusal>
        ensures seen { Follows me.old me.new }
        ensures idle { Idle me.old me.new }
        ensures token { IfOk result (λ t. Refreshed J.from.start.token t me.old me.new) }
        ensures refusal { IfErr result (λ e. (e ≡ Full) ⊎ (e ≡ Memory) ⊎ (e ≡ Device) ⊎ (e ≡ Spent)) }
    {
        self.desk.lock(rt).refresh(rt, &self.cell, me)
    }

    /// Gives the caller's session the right to the view that is recorded under the token; with no token to the newest view,
    /// which is no older than what the caller had seen recorded. It shows the table of the list at its token. (Lucene:
    /// `SearcherLifetimeManager.acquire`.)
    ///
    /// [`Refusal::Gone`] where no view is recorded under the token; else [`Refusal::Memory`].
    pub fn open<R: Wait>(
        &self,
        rt: &R,
        me: &mut Pass<J>,
        token: Option<Token>,
    ) -> Result<Grant, Refusal>
        ensures seen { Follows me.old me.new }
        ensures idle { Idle me.old me.new }
        ensures given { IfOk result (λ g. IfNew g (λ h. Granted J.from token me.old me.new h)) }
        ensures gone { IfErr result (λ e. token ≡ None → e ≢ Gone) }
        ensures refusal { IfErr result (λ e. (e ≡ Gone) ⊎ (e ≡ Memory)) }
    {
        self.desk.lock(rt).open(rt, &self.cell, me, token)
    }

    /// The query, made ready for the view that the caller's session has a right to under the token, with the sets of rows that
    /// are cached for it. It shows the table of the list at the token; what is asked of it needs no lock. Where somebody else
    /// has the lock, the query comes back: it doesn't wait. (Lucene: an `IndexSearcher` of the reader that is held, with its
    /// `LRUQueryCache`.)
    ///
    /// [`Refusal::NotHeld`] where the session doesn't hold the token; else [`Refusal::Memory`].
    pub fn prepare_if_free<R: Wait>(
        &self,
        rt: &R,
        me: &mut Pass<J>,
        token: Token,
        query: Query,
    ) -> Result<Result<Prepared, Refusal>, Query>
        ensures seen { Follows me.old me.new }
        ensures idle { Idle me.old me.new }
        ensures query { IfOk result (λ told. IfOk told (λ p. p.query ≡ query)) }
        ensures shown { IfOk result (λ told. IfOk told (λ p. (p.view.token ≡ token) × IsOfGroundList J.from me.new.list p.view)) }
        ensures refusal { IfOk result (λ told. IfErr told (λ e. (e ≡ NotHeld) ⊎ (e ≡ Memory))) }
        ensures back { IfErr result (λ q. q ≡ query) }
    {
        match self.desk.try_lock() {
            Some(mut desk) => Ok(desk.prepare(rt, &self.cell, me, token, query)),
            None => Err(query),
        }
    }

    /// Notes that the query was asked, so that a [`warmer`](crate::running::warmer) makes sets for it. It takes no memory:
    /// [`Prepared::into_query`] gives a query back once its answer is made. None where somebody else has the lock: it doesn't
    /// wait. (Lucene: `UsageTrackingQueryCachingPolicy.onUse`.)
    pub fn note_if_free(&self, query: Query) -> Option<Noted> {
        match self.desk.try_lock() {
            Some(mut desk) => Some(desk.note(query)),
            None => {
                drop(query);
                None
            }
        }
    }

    /// Ends the right, after which its view may go. One that is another session's, or that the ledger doesn't count, is handed
    /// back. (Lucene: `SearcherLifetimeManager.release`.)
    pub fn close<R: Wait>(&self, rt: &R, me: &Pass<J>, hold: Hold) -> Result<Released, Hold>
        ensures released { IfOk result (λ r. (released_session r ≡ me.now.session) × (released_token r ≡ hold.view.token)) }
        ensures right { OnOk result (hold.session ≡ me.now.session) }
        ensures back { IfErr result (λ h. h ≡ hold) }
    {
        self.desk.lock(rt).close(me.session, hold)
    }

    /// Does a chore, which leaves the list and what callers have seen of it as they are. The outcome has the chore, and what a
    /// ledger with some list's writes answers to its line, where session 0 says it.
    pub fn maintain<R: Wait>(&self, rt: &R, chore: Chore) -> Outcome
        ensures chore { chore_done result ≡ chore }
        ensures answered { (list : List LogEntry) × IsToldOver D.bytes J.from list result }
    {
        self.desk.lock(rt).maintain(chore)
    }

    /// Does a chore, once the gate was told that the lock is held.
    pub(crate) fn turn<R: Wait, G: Gate>(&self, rt: &R, gate: &mut G, chore: Chore) -> Outcome
        ensures { chore_done result ≡ chore }
    {
        let mut desk = self.desk.lock(rt);
        gate.inside();
        desk.maintain(chore)
    }

    /// Two callers tell each other what they have seen: of their two lists one began the other, and both have the longer one
    /// afterwards, and the greater token. It needs no lock.
    pub fn meet<R: Wait>(&self, rt: &R, one: &mut Pass<J>, two: &mut Pass<J>)
        ensures seen { Follows one.old one.new × Follows two.old two.new }
        ensures idle { Idle one.old one.new × Idle two.old two.new }
        ensures before { AreOne one.old.list two.old.list }
        ensures met { (one.new.list ≡ two.new.list) × (one.new.token ≡ two.new.token) }
    {
        one.meet(rt, &self.cell, two);
    }
}

impl<D: Directory + Shelf, J: Naming> Service<D, J> {
    /// A service over the ledger, and a pass for each session, in their order. The ledger is handed back where memory is
    /// wanting.
    ///
    /// The sessions are different. `J` names this service: a function that is generic in it is called with `Brand`.
    pub fn new(
        alloc: Global,
        begun: Begun<D>,
        sessions: &[SessionNo],
    ) -> Result<(Service<D, J>, Vec<Pass<J>>), Ledger<D>>
        requires names { (begun.table ≡ J.table) × (J.from ≡ ground_of (shape_in begun.ledger)) × (J.sessions ≡ seated_by [] sessions.now) }
        requires different { all_different sessions.now ≡ true }
        ensures passes { IfOk result (λ r. r.1.items ≡ map (newcomer J.from.start.token) sessions.now) }
        ensures err { IfErr result (λ l. l ≡ begun.ledger) }
    {
        let (cell, mut scribe, ledger) = begun.into_parts();
        let Ok(passes) = seats(alloc, &cell, &mut scribe, sessions) else {
            return Err(ledger);
        };
        let Ok(filters) = Filters::new(alloc) else {
            return Err(ledger);
        };
        let desk = Desk::new(alloc, ledger, filters, scribe);
        let desk = Mutex::new(desk);
        Ok((Service { cell, desk }, passes))
    }

    /// The ledger, once all callers have ended. Its table is that of one list of writes, which begins with what each pass has
    /// seen, has of the session of each just the writes that its pass has seen, and has no write of a session that isn't the
    /// service's.
    pub fn finish<R: Wait>(self, rt: &R, passes: Vec<Pass<J>>) -> Ledger<D>
        ensures { OneHistory (D.bytes (device_in result)) (shape_in result) J.from J.sessions passes.items }
    {
        let Service { cell, desk } = self;
        desk.into_inner().into_ledger(rt, &cell, passes)
    }
}

/// A pass for each session, in their order.
fn seats<J: Naming>(
    alloc: Global,
    cell: &Cell,
    scribe: &mut Seat,
    sessions: &[SessionNo],
) -> Result<Vec<Pass<J>>, AllocError>
    requires cell { (cell.now.table.shared.table_id ≡ J.table) × (scribe.old.table_id ≡ J.table) × (cell_view scribe.old ≡ scribe_sight [] 0 [] []) }
    requires different { all_different sessions.now ≡ true }
    ensures table { scribe.new.table_id ≡ J.table }
    ensures passes { IfOk result (λ v. v.items ≡ map (newcomer J.from.start.token) sessions.now) }
    ensures scribe { IfOk result (λ v. cell_view scribe.new ≡ scribe_sight [] 0 (seated_by [] sessions.now) []) }
{
    let mut passes = Vec::new(alloc);
    for session in sessions {
        let seat = history::seat(cell, scribe, *session);
        passes.push(Pass::new(*session, seat))?;
    }
    Ok(passes)
}
