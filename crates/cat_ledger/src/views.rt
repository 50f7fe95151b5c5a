//! Recorded views, and the sessions' rights to them.
//!
//! Lucene's `SearcherLifetimeManager`, with `IndexWriter.getReader` for the view of now.
ghost use Rattle.cat_directory.specs.Frames.{CountsFailures, OnlyReads};
ghost use Rattle.cat_directory.specs.Devices.{CountsReading, NoMore};
ghost use Rattle.cat_base.specs.declared.refusal.Refusal.TheVariants.{Damaged, Device, Full, Gone, Memory, NotHeld, Spent};
ghost use Rattle.cat_ledger.specs.Answering.{AnswersSaid, number_reply};
ghost use Rattle.cat_ledger.specs.Histories.{GoesOn};
ghost use Rattle.cat_ledger.specs.Ledgers.{DoesCall, Spares, device_in, shape_in};
ghost use Rattle.cat_ledger.specs.Refusals.{KeepsMerge};
ghost use Rattle.cat_ledger.specs.upkeep.Spared.{SparesCommits};
ghost use Rattle.std.specs.Prelude.{Err, IfErr, IfNone, IfOk, IfSome, List, None, Ok, OnErr, OnOk, [], false, length, not, option_map, true, ℕ, ◌&&◌, ◌==◌, ◌≡◌, ◌⊎◌, Some, find};
ghost use Rattle.cat_directory.specs.declared.name.FileName.{FileName};
ghost use Rattle.cat_ledger_state.specs.cat_views.Sources.{HoldsSource, MayReachSource, TellsSource, stored_length};
ghost use Rattle.cat_ledger.specs.Grants.{IsAsked, IsGrant, released_session, released_token, token_granted};
ghost use Rattle.cat_ledger_laws.specs.model.Replies.{IsLeft};
ghost use Rattle.cat_ledger_laws.specs.model.Ledger.{IsNew};
ghost use Rattle.cat_ledger_laws.specs.shape.Ties.{Makes, ToldFiles};
ghost use Rattle.cat_ledger_state.specs.Cores.{MayNotFlush};
ghost use Rattle.cat_ledger_laws.specs.lines.LineLaws.{MayRefresh, Refreshes};
ghost use Rattle.cat_ledger_laws.specs.model.Calls.{RecordsView};
ghost use Rattle.cat_model.specs.Lines.{Said};
ghost use Rattle.cat_model.specs.State.{has_hold, held_in};
ghost use Rattle.cat_ledger_laws.specs.lines.HoldLaws.{holding, letting_go};
ghost use Rattle.cat_ledger_laws.specs.lines.ReadLaws.{IsRecordedAs};
ghost use Rattle.cat_model.specs.Run.{is_full};
ghost use Rattle.std.specs.List.{list_any};
ghost use Rattle.cat_directory.specs.Names.{name_of};
ghost use Rattle.cat_model.specs.View.{View, records_in};
ghost use Rattle.cat_model.specs.Answer.{HasNoLineFeed, stored};
ghost use Rattle.cat_ledger_laws.specs.shape.Steps.{tokens_of};
ghost use Rattle.cat_ledger.specs.declared.views.Grant.{Grant};

use crate::ledger::Ledger;
use crate::room::flush;
use cat_base::{Refusal, SessionNo, Token};
use cat_directory::{Directory, Shelf};
use cat_ledger_state::{Core, Hold, View};
use std::alloc::AllocError;

/// What an [`acquire`](Ledger::acquire) grants.
pub enum Grant {
    /// The right to a view that the session didn't hold.
    New(Hold),
    /// The session holds the token already, by a right that it was granted before.
    Already(Token),
}

/// A right that was given back.
#[derive(Clone, Copy)]
pub struct Released {
    session: SessionNo,
    token: Token,
}

/// Whether a view of now isn't recorded, and can't be: each view is held, and no more may be recorded.
fn is_refused(core: &Core) -> bool
    ensures { result ≡ (not (list_any (λ v. v.token == core.now.count) core.now.views)
        && is_full (held_in core.now.holds) (tokens_of core.now.views)) }
{
    !core.is_recorded(core.count()) && core.is_full()
}

/// Records a view of now where nothing waits, and none is recorded yet. An error changes nothing.
fn record_where_none(core: &mut Core) -> Result<(), AllocError>
    requires flushed { core.old.buffered ≡ [] }
    requires may { MayRefresh core.old }
    ensures ok { OnOk result ((told : ToldFiles) → Makes RecordsView told core.old told core.new) }
    ensures err { OnErr result (core.new ≡ core.old) }
{
    if core.is_recorded(core.count()) {
        return Ok(());
    }
    core.record_view()
}

/// Flushes what waits, and then records a view of now.
fn flush_and_record<D: Directory>(core: &mut Core, device: &mut D) -> Result<(), Refusal>
    requires { MayRefresh core.old }
    ensures ok { OnOk result (Makes Refreshes (D.bytes device.old) core.old (D.bytes device.new) core.new) }
    ensures err { OnErr result (Makes IsLeft (D.bytes device.old) core.old (D.bytes device.new) core.new) }
    ensures stays { OnErr result (KeepsMerge core.old core.new) }
    ensures crash { (q : FileName) → (IsNew core.old.next_segment core.old.next_generation (name_of q) → ⊥)
        → NoMore (D.may_leave device.old q) (D.may_leave device.new q) }
    ensures commits { SparesCommits (D.may_leave device.old) (D.may_leave device.new) }
    ensures spent { IfErr result (λ e. e ≡ Spent → MayNotFlush core.old) }
    ensures due { IfErr result (λ e. (e ≡ Memory) ⊎ (e ≡ Device) → MayNotFlush core.old → ⊥) }
    ensures fails { CountsFailures D.can_fail D.fault_count device.old device.new result }
    ensures refusal { IfErr result (λ e. (e ≡ Memory) ⊎ (e ≡ Device) ⊎ (e ≡ Spent)) }
{
    if let Err(refusal) = flush(core, device) {
        return Err(refusal);
    }
    match record_where_none(core) {
        Ok(()) => Ok(()),
        Err(AllocError) => Err(Refusal::Memory),
    }
}

/// A copy of the view that is recorded under the token, whose segments are shared.
fn copy_view(core: &Core, token: Token) -> Result<View, AllocError>
    requires { list_any (λ v. v.token == token) core.now.views ≡ true }
    ensures view { IfOk result (λ v. find (λ u. u.token == token) core.now.views ≡ Some v) }
    ensures token { IfOk result (λ v. v.token ≡ token) }
{
    let Some(view) = core.view_at(token) else {
        unreachable!();
    };
    view.copy()
}

/// Gives the session the right to the view that is recorded under the token, which it doesn't hold. An error changes nothing.
fn grant_right(core: &mut Core, session: SessionNo, token: Token) -> Result<Hold, AllocError>
    requires there { list_any (λ v. v.token == token) core.old.views ≡ true }
    requires none { has_hold core.old.holds session token ≡ false }
    ensures right { IfOk result (λ hold. IsGrant core.old session (Grant.New hold)) }
    ensures token { IfOk result (λ hold. hold.view.token ≡ token) }
    ensures ok { OnOk result (core.new ≡ holding session token core.old) }
    ensures err { OnErr result (core.new ≡ core.old) }
{
    let view = copy_view(core, token)?;
    core.hold(session, token)?;
    Ok(Hold::of(session, view))
}

/// The token that is asked for, the newest one where none is named; none where no view is recorded under it.
fn token_asked(core: &Core, token: Option<Token>) -> Option<Token>
    ensures some { IfSome result (IsAsked core.now token) }
    ensures there { IfSome result (λ t. list_any (λ v. v.token == t) core.now.views ≡ true) }
    ensures none { IfNone result ((t : ℕ) → IsAsked core.now token t → ⊥) }
{
    let token = token.unwrap_or(core.newest_token());
    if !core.is_recorded(token) {
        return None;
    }
    Some(token)
}

/// Lets the session hold the view that is recorded under the token. It takes memory only where the session doesn't hold it yet,
/// and an error changes nothing.
fn hold_recorded(core: &mut Core, session: SessionNo, token: Token) -> Result<(), AllocError>
    requires { list_any (λ v. v.token == token) core.old.views ≡ true }
    ensures held { OnOk result (core.new ≡ holding session token core.old) }
    ensures due { OnErr result (has_hold core.old.holds session token ≡ false) }
    ensures err { OnErr result (core.new ≡ core.old) }
{
    if core.is_held_by(session, token) {
        return Ok(());
    }
    core.hold(session, token)
}

impl<D: Directory + Shelf> Ledger<D> {
    /// Records a view of now, where none is recorded yet, and answers its token, which is the number of writes. What waits is
    /// flushed first. Where 64 views are recorded the one of the least token goes that nobody holds. (Lucene:
    /// `SearcherLifetimeManager.record` of `DirectoryReader.open(IndexWriter)`.)
    ///
    /// [`Refusal::Full`] where no view of now is recorded, and each of 64 is held, which comes first and changes nothing;
    /// [`Refusal::Spent`] where no number is left for the segment of what waits, or as many stand as may; else
    /// [`Refusal::Device`] where the flush fails, or [`Refusal::Memory`], where the directory counted no failure. A flush that ended
    /// stays done; else an error leaves at most names that are pending. A merge in the making goes on.
    pub fn refresh(&mut self) -> Result<Token, Refusal>
        ensures answers { (session : ℕ) → AnswersSaid D.bytes session Said.refresh self.old (number_reply result) self.new }
        ensures token { IfOk result (λ t. t ≡ (shape_in self.old).count) }
        ensures ok { OnOk result (DoesCall D.bytes Refreshes self.old self.new) }
        ensures may { OnOk result (MayRefresh (shape_in self.old)) }
        ensures full { (MayRefresh (shape_in self.old) → ⊥) → (result ≡ Err Full) × (self.new ≡ self.old) }
        ensures spent { IfErr result (λ e. e ≡ Spent → MayNotFlush (shape_in self.old)) }
        ensures due { IfErr result (λ e. (e ≡ Memory) ⊎ (e ≡ Device) → MayNotFlush (shape_in self.old) → ⊥) }
        ensures err { OnErr result (DoesCall D.bytes IsLeft self.old self.new) }
        ensures stays { OnErr result (KeepsMerge (shape_in self.old) (shape_in self.new)) }
        ensures crash { Spares D.may_leave self.old self.new }
        ensures refusal { IfErr result (λ e. (e ≡ Full) ⊎ (e ≡ Memory) ⊎ (e ≡ Device) ⊎ (e ≡ Spent)) }
        ensures fails { CountsFailures D.can_fail D.fault_count (device_in self.old) (device_in self.new) result }
        ensures goes { GoesOn D.bytes D.may_leave self.old self.new }
    {
        let token = self.core.count();
        if is_refused(&self.core) {
            return Err(Refusal::Full);
        }
        if let Err(refusal) = flush_and_record(&mut self.core, &mut self.device) {
            return Err(refusal);
        }
        Ok(token)
    }

    /// Grants the session the right to the view of the token, or of the newest one. It lasts until the session itself gives it
    /// back. (Lucene: `SearcherLifetimeManager.acquire`.)
    ///
    /// [`Refusal::Gone`] where no view is recorded under the token; else [`Refusal::Memory`], but never where the session holds
    /// the token already. An error changes nothing.
    pub fn acquire(&mut self, session: SessionNo, token: Option<Token>) -> Result<Grant, Refusal>
        ensures asked { IfOk result (λ grant. IsAsked (shape_in self.old) token (token_granted grant)) }
        ensures grant { IfOk result (IsGrant (shape_in self.old) session) }
        ensures held { IfOk result (λ grant. shape_in self.new ≡ holding session (token_granted grant) (shape_in self.old)) }
        ensures gone { IfErr result (λ e. e ≡ Gone → (t : ℕ) → IsAsked (shape_in self.old) token t → ⊥) }
        ensures due { IfErr result (λ e. e ≡ Memory → (t : ℕ) × IsAsked (shape_in self.old) token t
            × (has_hold (shape_in self.old).holds session t ≡ false)) }
        ensures err { OnErr result (self.new ≡ self.old) }
        ensures same { device_in self.new ≡ device_in self.old }
        ensures refusal { IfErr result (λ e. (e ≡ Gone) ⊎ (e ≡ Memory)) }
        ensures goes { GoesOn D.bytes D.may_leave self.old self.new }
    {
        let Some(token) = token_asked(&self.core, token) else {
            return Err(Refusal::Gone);
        };
        if self.core.is_held_by(session, token) {
            return Ok(Grant::Already(token));
        }
        let hold = match grant_right(&mut self.core, session, token) {
            Ok(hold) => hold,
            Err(AllocError) => return Err(Refusal::Memory),
        };
        Ok(Grant::New(hold))
    }

    /// Ends the session's right, after which its view may go. It takes no memory. (Lucene: `SearcherLifetimeManager.release`.)
    ///
    /// Where the right is another session's, or this ledger counts none of its token for the session, it is handed back, which is
    /// told as [`Refusal::NotHeld`], and nothing changes.
    pub fn release(&mut self, session: SessionNo, hold: Hold) -> Result<Released, Hold>
        ensures released { IfOk result (λ r. (released_session r ≡ session) × (released_token r ≡ hold.view.token)) }
        ensures right { OnOk result ((hold.session ≡ session) × (has_hold (shape_in self.old).holds session hold.view.token ≡ true)) }
        ensures held { OnOk result (shape_in self.new ≡ letting_go session hold.view.token (shape_in self.old)) }
        ensures back { IfErr result (λ h. h ≡ hold) }
        ensures wrong { OnErr result (hold.session ≡ session → has_hold (shape_in self.old).holds session hold.view.token ≡ false) }
        ensures err { OnErr result (self.new ≡ self.old) }
        ensures same { device_in self.new ≡ device_in self.old }
        ensures goes { GoesOn D.bytes D.may_leave self.old self.new }
    {
        let token = hold.token();
        if hold.session() != session {
            return Err(hold);
        }
        if !self.let_go(session, token) {
            return Err(hold);
        }
        hold.give_up();
        Ok(Released { session, token })
    }

    /// Lets the session hold the view of the token, or of the newest one, until it [lets go](Ledger::let_go) of it, and answers the
    /// token: the ledger keeps the right itself, and [lends the view](Ledger::held_view). (Lucene: `SearcherLifetimeManager.acquire`.)
    ///
    /// Where the session holds the token already nothing changes. [`Refusal::Gone`] where no view is recorded under the token; else
    /// [`Refusal::Memory`], but never where the session holds the token already. An error changes nothing.
    pub fn hold(&mut self, session: SessionNo, token: Option<Token>) -> Result<Token, Refusal>
        ensures asked { IfOk result (λ t. IsAsked (shape_in self.old) token t) }
        ensures held { IfOk result (λ t. shape_in self.new ≡ holding session t (shape_in self.old)) }
        ensures gone { IfErr result (λ e. e ≡ Gone → (t : ℕ) → IsAsked (shape_in self.old) token t → ⊥) }
        ensures due { IfErr result (λ e. e ≡ Memory → (t : ℕ) × IsAsked (shape_in self.old) token t
            × (has_hold (shape_in self.old).holds session t ≡ false)) }
        ensures err { OnErr result (self.new ≡ self.old) }
        ensures same { device_in self.new ≡ device_in self.old }
        ensures refusal { IfErr result (λ e. (e ≡ Gone) ⊎ (e ≡ Memory)) }
        ensures goes { GoesOn D.bytes D.may_leave self.old self.new }
    {
        let Some(token) = token_asked(&self.core, token) else {
            return Err(Refusal::Gone);
        };
        match hold_recorded(&mut self.core, session, token) {
            Ok(()) => {}
            Err(AllocError) => return Err(Refusal::Memory),
        }
        Ok(token)
    }

    /// Ends the session's right to the view of the token, which may go then, and answers whether it had one; where it had none nothing
    /// changes. It takes no memory. (Lucene: `SearcherLifetimeManager.release`.)
    pub fn let_go(&mut self, session: SessionNo, token: Token) -> bool
        ensures had { result ≡ has_hold (shape_in self.old).holds session token }
        ensures held { result ≡ true → shape_in self.new ≡ letting_go session token (shape_in self.old) }
        ensures none { result ≡ false → self.new ≡ self.old }
        ensures same { device_in self.new ≡ device_in self.old }
        ensures goes { GoesOn D.bytes D.may_leave self.old self.new }
    {
        if !self.core.is_held_by(session, token) {
            return false;
        }
        let _had = self.core.let_go(session, token);
        true
    }

    /// The view that the session has a right to under the token; none where it holds no such token. (Lucene: the searcher that
    /// `SearcherLifetimeManager.acquire` gives once more.)
    pub fn held_view(&self, session: SessionNo, token: Token) -> Option<&View>
        ensures some { IfSome result (λ v. (has_hold (shape_in self.now).holds session token ≡ true)
            × IsRecordedAs (shape_in self.now).views token v.now) }
        ensures none { IfNone result (has_hold (shape_in self.now).holds session token ≡ false) }
    {
        if !self.core.is_held_by(session, token) {
            return None;
        }
        self.core.view_at(token)
    }

    /// Takes out each view that isn't among the newest, as many as the count says but at least one, and that nobody holds;
    /// answers how many went. (Lucene: `SearcherLifetimeManager.prune` by a `Pruner`.)
    ///
    /// [`Refusal::Memory`] alone, which changes nothing.
    pub fn prune(&mut self, count: u64) -> Result<u64, Refusal>
        ensures answers { (session : ℕ) → AnswersSaid D.bytes session (Said.prune count) self.old (number_reply result) self.new }
        ensures refusal { IfErr result (λ e. e ≡ Memory) }
        ensures err { OnErr result (self.new ≡ self.old) }
        ensures same { device_in self.new ≡ device_in self.old }
        ensures goes { GoesOn D.bytes D.may_leave self.old self.new }
    {
        let went = match self.core.prune(count) {
            Ok(went) => went,
            Err(AllocError) => return Err(Refusal::Memory),
        };
        Ok(went)
    }

    /// The text that the item of this id came as, in the view that the session holds under the token; none where no live row has the
    /// id. (Lucene: `StoredFields.document`.) It is what [`View::get`] answers on this ledger's directory, whose files stay as they
    /// are, also in a crash.
    ///
    /// [`Refusal::NotHeld`] where the session doesn't hold the token, and only then. [`Refusal::Damaged`] if the file with the text is
    /// absent, ends before the text does, or has a line feed in it. [`Refusal::Device`] if the directory fails; else
    /// [`Refusal::Memory`], which never hides that the file is absent or ends too soon.
    pub fn source(
        &mut self,
        session: SessionNo,
        token: Token,
        id: &str,
    ) -> Result<Option<Vec<u8>>, Refusal>
        ensures held { OnOk result ((has_hold (shape_in self.old).holds session token ≡ true)
            × ((view : View) × IsRecordedAs (shape_in self.old).views token view)) }
        ensures unheld { has_hold (shape_in self.old).holds session token ≡ false → (result ≡ Err NotHeld) × (self.new ≡ self.old) }
        ensures ok { IfOk result (λ found. (view : View) → IsRecordedAs (shape_in self.old).views token view → (files : ℕ → List ℕ)
            → TellsSource (D.bytes (device_in self.old)) files view id.now
            → option_map (λ bytes. bytes.items) found ≡ stored (records_in files view) id.now) }
        ensures whole { IfOk result (λ found. (view : View) → IsRecordedAs (shape_in self.old).views token view
            → option_map (λ bytes. length bytes.items) found ≡ stored_length view id.now) }
        ensures one_line { IfOk result (λ found. HasNoLineFeed (option_map (λ bytes. bytes.items) found)) }
        ensures none { has_hold (shape_in self.old).holds session token ≡ true → (view : View)
            → IsRecordedAs (shape_in self.old).views token view → stored_length view id.now ≡ None → result ≡ Ok None }
        ensures damaged { IfErr result (λ e. e ≡ Damaged → (view : View) → IsRecordedAs (shape_in self.old).views token view
            → (files : ℕ → List ℕ) → TellsSource (D.bytes (device_in self.old)) files view id.now → HoldsSource files view id.now → ⊥) }
        ensures due { IfErr result (λ e. e ≡ Memory → (view : View) → IsRecordedAs (shape_in self.old).views token view
            → MayReachSource (D.bytes (device_in self.old)) view id.now) }
        ensures shape { shape_in self.new ≡ shape_in self.old }
        ensures frame { OnlyReads D.bytes D.may_leave D.can_fail (device_in self.old) (device_in self.new) }
        ensures counted { has_hold (shape_in self.old).holds session token ≡ true
            → CountsReading (D.fault_count (device_in self.old)) (D.fault_count (device_in self.new)) result }
        ensures fails { CountsFailures D.can_fail D.fault_count (device_in self.old) (device_in self.new) result }
        ensures goes { GoesOn D.bytes D.may_leave self.old self.new }
    {
        if !self.core.is_held_by(session, token) {
            return Err(Refusal::NotHeld);
        }
        let Some(view) = self.core.view_at(token) else {
            unreachable!();
        };
        view.get(self.alloc, &mut self.device, id)
    }
}
