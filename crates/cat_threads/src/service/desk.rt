//! What lies under the lock.
ghost use Rattle.std.specs.Prelude.{◌≡◌, ◌≢◌, ◌⊎◌, ◌+◌, ◌-◌, ◌≤◌, suc, true, [], ◌∷◌, ◌++◌, length, IfOk, OnErr, OnOk, IfErr, Ok, None};
ghost use Rattle.crossbeam_utils.specs.Seq.{cell_view};
ghost use Rattle.cat_base.specs.declared.refusal.Refusal.TheVariants.{Device, Full, Gone, Kind, Memory, NotHeld, Spent};
ghost use Rattle.cat_commands.specs.cat_ledger.Grants.{released_session, released_token};
ghost use Rattle.cat_commands.specs.cat_ledger.Ledgers.{device_in, shape_in};
ghost use Rattle.cat_threads.specs.history.Entries.{entry, has_session};
ghost use Rattle.cat_threads.specs.history.Rules.{Each, noted, recorded, scribe as scribe_sight};
ghost use Rattle.cat_threads.specs.service.Passes.{Ends, Follows, Granted, Idle, IfNew, Refreshed, Wrote};
ghost use Rattle.cat_threads.specs.sharing.Grounds.{ground_of};
ghost use Rattle.cat_threads.specs.sharing.ShareLaws.{IsOfGroundList};
ghost use Rattle.cat_threads.specs.service.Begins.{IsJustOpened, OneHistory};
ghost use Rattle.cat_threads.specs.service.Chores.{IsToldOver, chore_done};
ghost use Rattle.cat_threads.specs.service.Writes.{PutsForeign, write_of};

use crate::history::{self, Cell, Noting, Seat};
use crate::service::chores::{self, Chore, Outcome};
use crate::service::lending::prepare;
use crate::service::naming::Naming;
use crate::service::pass::Pass;
use crate::service::writes::{Write, accept};
use cat_base::{Refusal, SessionNo, Token, WriteNo};
use cat_commands::cat_cached_sets::Query;
use cat_commands::cat_cached_sets::filters::Filters;
use cat_commands::cat_ledger::{Grant, Hold, Ledger, Released};
use cat_commands::cat_protocol::Prepared;
use cat_commands::sets::segments_are_one;
use cat_directory::{Directory, Shelf};
use std::alloc::Global;
use std::marker::{Brand, Model, PhantomData};
use std::sync::Wait;

/// That a query was noted. [`Service::note_if_free`](crate::Service::note_if_free) alone makes one, and it can't be copied, so who
/// has it is sure of the call.
#[derive(Drop)]
pub struct Noted {
    nothing: (),
}

/// A ledger, the sets of rows that are cached beside it, which make answers cheaper and change none, and the pass that knows the
/// ledger's whole list. (Lucene: an `IndexWriter`, and the `LRUQueryCache` of its searchers.)
pub(crate) struct Desk<D: Directory + Shelf, J: Naming> {
    alloc: Global,
    ledger: Ledger<D>,
    filters: Filters,
    start: WriteNo,
    // The token of the newest view.
    newest: Token,
    scribe: Seat,
    of: PhantomData<J>,
}

// By hand, and by a call of the ledger's: what is derived is proved anew in each crate that has a lock round a desk, down to the
// last field of a segment.
impl<D: Directory + Shelf + Drop, J: Naming> Drop for Desk<D, J> {
    fn drop(self) {
        let Desk {
            alloc: _,
            ledger,
            filters: _,
            start: _,
            newest: _,
            scribe: _,
            of: _,
        } = self;
        let _directory = ledger.into_directory();
    }
}

impl<D: Directory + Shelf, J: Naming> Model for Desk<D, J> {
    ghost use Rattle.std.specs.Prelude.{◌≡◌, ◌+◌};
    ghost use Rattle.std.specs.Coded.{codes};
    ghost use Rattle.crossbeam_utils.specs.Seq.{cell_view};
    ghost use Rattle.cat_commands.specs.cat_cached_sets.cache.Coding.{query_code};
    ghost use Rattle.cat_commands.specs.cat_ledger.Lasting.{IsCarried};
    ghost use Rattle.cat_commands.specs.cat_ledger.Ledgers.{device_in, shape_in};
    ghost use Rattle.cat_commands.specs.sets.Sets.{HasSets};
    ghost use Rattle.cat_threads.specs.sharing.Grounds.{Shares};
    ghost use Rattle.cat_threads.specs.service.Passes.{Shared};

    ghost Value = { Shared };

    ghost coded = { Prim.hlevel (codes, query_code) };

    ghost view = { λ d. record { list = (cell_view d.scribe).list; token = J.from.start.token + (cell_view d.scribe).token } };

    ghost invariant = { λ d. (d.scribe.table_id ≡ J.table) × (d.start ≡ J.from.start.token) × (d.newest ≡ J.from.start.token + (cell_view d.scribe).token)
        × Shares (D.bytes (device_in d.ledger)) (shape_in d.ledger) J.from J.sessions (cell_view d.scribe)
        × (IsCarried (D.bytes (device_in d.ledger)) (shape_in d.ledger) × HasSets d.filters (shape_in d.ledger)) };
}

impl<D: Directory + Shelf, J: Naming> Desk<D, J> {
    /// Makes a write, and notes it.
    pub(crate) fn write<R: Wait>(
        &mut self,
        rt: &R,
        cell: &Cell,
        me: &mut Pass<J>,
        write: Write,
    ) -> Result<WriteNo, Refusal>
        requires { cell.now.table.shared.table_id ≡ J.table }
        ensures told { (me.new.list ≡ self.new.list) × (me.new.token ≡ self.new.token) }
        ensures list { IfOk result (λ n. (self.new.list ≡ self.old.list ++ entry me.old.session (write_of write) ∷ [])
            × (n ≡ J.from.start.token + length self.new.list)) }
        ensures same { OnErr result (self.new.list ≡ self.old.list) }
        ensures token { self.new.token ≡ self.old.token }
        ensures seen { Follows me.old me.new }
        ensures wrote { IfOk result (λ n. Wrote J.from.start.token n (write_of write) me.old me.new) }
        ensures idle { OnErr result (Idle me.old me.new) }
        ensures kind { IfErr result (λ e. e ≡ Kind → PutsForeign J.from.start.schema (write_of write)) }
        ensures refusal { IfErr result (λ e. (e ≡ Kind) ⊎ (e ≡ Memory) ⊎ (e ≡ Device) ⊎ (e ≡ Spent)) }
    {
        self.write_as::<Brand, R>(rt, cell, me, write)
    }

    /// Makes the write that the call picks.
    fn write_as<W: Noting, R: Wait>(
        &mut self,
        rt: &R,
        cell: &Cell,
        me: &mut Pass<J>,
        write: Write,
    ) -> Result<WriteNo, Refusal>
        requires cell { cell.now.table.shared.table_id ≡ J.table }
        requires named { W.entry ≡ entry me.old.session (write_of write) }
        ensures told { (me.new.list ≡ self.new.list) × (me.new.token ≡ self.new.token) }
        ensures list { IfOk result (λ n. (self.new.list ≡ self.old.list ++ W.entry ∷ [])
            × (n ≡ J.from.start.token + length self.new.list)) }
        ensures same { OnErr result (self.new.list ≡ self.old.list) }
        ensures token { self.new.token ≡ self.old.token }
        ensures seen { Follows me.old me.new }
        ensures wrote { IfOk result (λ n. Wrote J.from.start.token n (write_of write) me.old me.new) }
        ensures idle { OnErr result (Idle me.old me.new) }
        ensures kind { IfErr result (λ e. e ≡ Kind → PutsForeign J.from.start.schema (write_of write)) }
        ensures refusal { IfErr result (λ e. (e ≡ Kind) ⊎ (e ≡ Memory) ⊎ (e ≡ Device) ⊎ (e ≡ Spent)) }
    {
        history::join(rt, cell, &mut self.scribe, &mut me.seat);
        match accept(&mut self.ledger, write) {
            Ok(number) => {
                note_number::<W, R>(rt, cell, &mut self.scribe, self.start, self.newest, number);
                history::part_into(cell, &mut self.scribe, &mut me.seat);
                Ok(number)
            }
            Err(refusal) => {
                history::part_into(cell, &mut self.scribe, &mut me.seat);
                Err(refusal)
            }
        }
    }

    /// Records a view of now, and its token is noted.
    pub(crate) fn refresh<R: Wait>(
        &mut self,
        rt: &R,
        cell: &Cell,
        me: &mut Pass<J>,
    ) -> Result<Token, Refusal>
        requires { cell.now.table.shared.table_id ≡ J.table }
        ensures told { (me.new.list ≡ self.new.list) × (me.new.token ≡ self.new.token) }
        ensures list { self.new.list ≡ self.old.list }
        ensures same { OnErr result (self.new.token ≡ self.old.token) }
        ensures seen { Follows me.old me.new }
        ensures idle { Idle me.old me.new }
        ensures token { IfOk result (λ t. Refreshed J.from.start.token t me.old me.new) }
        ensures refusal { IfErr result (λ e. (e ≡ Full) ⊎ (e ≡ Memory) ⊎ (e ≡ Device) ⊎ (e ≡ Spent)) }
    {
        history::join(rt, cell, &mut self.scribe, &mut me.seat);
        match self.ledger.refresh() {
            Ok(token) => {
                let start = self.start;
                record_token(rt, cell, &mut self.scribe, &mut self.newest, start, token);
                history::part_into(cell, &mut self.scribe, &mut me.seat);
                Ok(token)
            }
            Err(refusal) => {
                history::part_into(cell, &mut self.scribe, &mut me.seat);
                Err(refusal)
            }
        }
    }

    /// Gives the right to a recorded view.
    pub(crate) fn open<R: Wait>(
        &mut self,
        rt: &R,
        cell: &Cell,
        me: &mut Pass<J>,
        token: Option<Token>,
    ) -> Result<Grant, Refusal>
        requires { cell.now.table.shared.table_id ≡ J.table }
        ensures told { (me.new.list ≡ self.new.list) × (me.new.token ≡ self.new.token) }
        ensures same { (self.new.list ≡ self.old.list) × (self.new.token ≡ self.old.token) }
        ensures seen { Follows me.old me.new }
        ensures idle { Idle me.old me.new }
        ensures given { IfOk result (λ g. IfNew g (λ h. Granted J.from token me.old me.new h)) }
        ensures gone { IfErr result (λ e. token ≡ None → e ≢ Gone) }
        ensures refusal { IfErr result (λ e. (e ≡ Gone) ⊎ (e ≡ Memory)) }
    {
        let session = me.session;
        history::join(rt, cell, &mut self.scribe, &mut me.seat);
        let result = self.ledger.acquire(session, token);
        history::part_into(cell, &mut self.scribe, &mut me.seat);
        result
    }

    /// The query, made ready for the view that the caller's session has a right to under the token.
    pub(crate) fn prepare<R: Wait>(
        &mut self,
        rt: &R,
        cell: &Cell,
        me: &mut Pass<J>,
        token: Token,
        query: Query,
    ) -> Result<Prepared, Refusal>
        requires { cell.now.table.shared.table_id ≡ J.table }
        ensures told { (me.new.list ≡ self.new.list) × (me.new.token ≡ self.new.token) }
        ensures same { (self.new.list ≡ self.old.list) × (self.new.token ≡ self.old.token) }
        ensures seen { Follows me.old me.new }
        ensures idle { Idle me.old me.new }
        ensures query { IfOk result (λ p. p.query ≡ query) }
        ensures shown { IfOk result (λ p. (p.view.token ≡ token) × IsOfGroundList J.from me.new.list p.view) }
        ensures refusal { IfErr result (λ e. (e ≡ NotHeld) ⊎ (e ≡ Memory)) }
    {
        history::join(rt, cell, &mut self.scribe, &mut me.seat);
        let result = prepare(&self.ledger, &mut self.filters, me.session, token, query);
        history::part_into(cell, &mut self.scribe, &mut me.seat);
        result
    }

    /// Ends the session's right. One that isn't the session's, or isn't counted, is handed back.
    pub(crate) fn close(&mut self, session: SessionNo, hold: Hold) -> Result<Released, Hold>
        ensures same { self.new ≡ self.old }
        ensures released { IfOk result (λ r. (released_session r ≡ session) × (released_token r ≡ hold.view.token)) }
        ensures right { OnOk result (hold.session ≡ session) }
        ensures back { IfErr result (λ h. h ≡ hold) }
    {
        self.ledger.release(session, hold)
    }

    /// Notes that the query was asked.
    pub(crate) fn note(&mut self, query: Query) -> Noted
        ensures same { self.new ≡ self.old }
    {
        self.filters.note(query);
        Noted { nothing: () }
    }

    /// Does a chore, as session 0 asks for it.
    pub(crate) fn maintain(&mut self, chore: Chore) -> Outcome
        ensures same { self.new ≡ self.old }
        ensures chore { chore_done result ≡ chore }
        ensures answered { IsToldOver D.bytes J.from self.old.list result }
    {
        // The segments of now agree with those of the recorded views, whose sets are kept too.
        segments_are_one();
        let answer = chores::answer(self.alloc, &mut self.ledger, &mut self.filters, &chore);
        Outcome::of(chore, answer)
    }
}

impl<D: Directory + Shelf, J: Naming> Desk<D, J> {
    /// A ledger as it is opened, beside the scribe's pass. No set is cached.
    pub(crate) fn new(
        alloc: Global,
        ledger: Ledger<D>,
        filters: Filters,
        scribe: Seat,
    ) -> Desk<D, J>
        requires names { (scribe.table_id ≡ J.table) × (cell_view scribe ≡ scribe_sight [] 0 J.sessions []) }
        requires ground { J.from ≡ ground_of (shape_in ledger) }
        requires fresh { IsJustOpened (D.bytes (device_in ledger)) (shape_in ledger) }
        requires empty { filters ≡ record { cached = []; noted = []; warming = None } }
        ensures { (result.list ≡ []) × (result.token ≡ J.from.start.token) }
    {
        // A ledger of the model is carried, as any that was opened.
        ledger.newest_lasts();
        let start = ledger.count();
        Desk {
            alloc,
            ledger,
            filters,
            start,
            newest: start,
            scribe,
            of: PhantomData,
        }
    }

    /// The ledger, whose table is that of the list, once what each pass has seen was compared with the whole list. The passes are
    /// given up.
    pub(crate) fn into_ledger<R: Wait>(self, rt: &R, cell: &Cell, passes: Vec<Pass<J>>) -> Ledger<D>
        requires { cell.now.table.shared.table_id ≡ J.table }
        ensures { OneHistory (D.bytes (device_in result)) (shape_in result) J.from J.sessions passes.items }
    {
        let Desk {
            alloc: _,
            ledger,
            filters: _,
            start: _,
            newest: _,
            mut scribe,
            of: _,
        } = self;
        check_all(rt, cell, &mut scribe, passes);
        history::look(rt, cell, &mut scribe);
        ledger
    }
}

/// Compares what each pass has seen with the whole list. It needs the scribe's pass alone, and no ledger.
fn check_all<J: Naming, R: Wait>(rt: &R, cell: &Cell, scribe: &mut Seat, passes: Vec<Pass<J>>)
    requires cell { (cell.now.table.shared.table_id ≡ J.table) × (scribe.old.table_id ≡ J.table) }
    requires desk { cell_view scribe.old ≡ scribe_sight (cell_view scribe.old).list (cell_view scribe.old).token J.sessions [] }
    ensures same { (scribe.new.table_id ≡ scribe.old.table_id) × (cell_view scribe.new ≡ cell_view scribe.old) }
    ensures ends { Each (Ends (cell_view scribe.new).list) passes.items }
{
    for pass in passes {
        check(rt, cell, scribe, pass);
    }
}

/// Compares what a caller has seen with the whole list. The pass is given up.
fn check<J: Naming, R: Wait>(rt: &R, cell: &Cell, scribe: &mut Seat, pass: Pass<J>)
    requires cell { (cell.now.table.shared.table_id ≡ J.table) × (scribe.old.table_id ≡ J.table) }
    requires desk { cell_view scribe.old ≡ scribe_sight (cell_view scribe.old).list (cell_view scribe.old).token J.sessions [] }
    ensures same { (scribe.new.table_id ≡ scribe.old.table_id) × (cell_view scribe.new ≡ cell_view scribe.old) }
    ensures ends { Ends (cell_view scribe.new).list pass }
{
    let mut pass = pass;
    history::join(rt, cell, scribe, &mut pass.seat);
    history::part(cell, scribe);
}

/// The write that the call picks is noted, which was answered this number: it is the next behind the list.
fn note_number<W: Noting, R: Wait>(
    rt: &R,
    cell: &Cell,
    scribe: &mut Seat,
    start: WriteNo,
    newest: Token,
    number: WriteNo,
)
    requires desk { (scribe.old.table_id ≡ cell.now.table.shared.table_id) × (cell_view scribe.old ≡ scribe_sight (cell_view scribe.old).list (cell_view scribe.old).token (cell_view scribe.old).seated (cell_view scribe.old).own) }
    requires number { number ≡ start + suc (length (cell_view scribe.old).list) }
    requires newest { newest ≡ start + (cell_view scribe.old).token }
    requires own { has_session (W.entry).session (cell_view scribe.old).own ≡ true }
    ensures { (scribe.new.table_id ≡ scribe.old.table_id) × (cell_view scribe.new ≡ noted W.entry (cell_view scribe.old)) }
{
    let count = number - start;
    let token = newest - start;
    history::note::<W, R>(rt, cell, scribe, count, token);
}

/// The token of a new record is noted and kept as the newest one: it is the number of all writes.
fn record_token<R: Wait>(
    rt: &R,
    cell: &Cell,
    scribe: &mut Seat,
    newest: &mut Token,
    start: WriteNo,
    token: Token,
)
    requires desk { (scribe.old.table_id ≡ cell.now.table.shared.table_id) × (cell_view scribe.old ≡ scribe_sight (cell_view scribe.old).list (cell_view scribe.old).token (cell_view scribe.old).seated (cell_view scribe.old).own) }
    requires token { token ≡ start + length (cell_view scribe.old).list }
    requires rises { (cell_view scribe.old).token ≤ length (cell_view scribe.old).list }
    ensures scribe { (scribe.new.table_id ≡ scribe.old.table_id) × (cell_view scribe.new ≡ recorded (token - start) (cell_view scribe.old)) }
    ensures newest { newest.new ≡ token }
{
    let relative = token - start;
    history::record(rt, cell, scribe, relative, relative);
    *newest = token;
}
