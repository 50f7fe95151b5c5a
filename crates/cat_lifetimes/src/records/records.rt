//! The recorded views, and which session holds which.
ghost use Rattle.std.specs.Prelude.{◌≡◌, ◌-◌, ◌<◌, ◌≤◌, ◌==◌, [], ◌∷◌, false, true, All, IfOk, OnErr, OnOk, Some};
ghost use Rattle.std.specs.Prelude.{filter, find, length, map, not, option_map, option_to_list, slice_get};
ghost use Rattle.std.specs.List.{flat_map};
ghost use Rattle.cat_model.specs.Limits.{view_limit};
ghost use Rattle.cat_model.specs.Run.{greatest, is_full};
ghost use Rattle.cat_model.specs.State.{has_hold, held_in};
ghost use Rattle.cat_model.specs.View.{needs};
ghost use Rattle.cat_directory.specs.Names.{name_of};
ghost use Rattle.cat_lifetimes.specs.records.Counts.{KeepsFrom};
ghost use Rattle.cat_lifetimes.specs.records.Records.{AreRecords, has_token, holders_of, stays_by, stays_in};
ghost use Rattle.cat_ledger_laws.specs.shape.Steps.{tokens_of};
ghost use Rattle.cat_lifetimes.specs.records.Records.{acquired, pruned_to, released, records_with_view};

use crate::held::HeldToken;
use crate::records::recorded::{
    Recorded, count_hold, count_release, files_below, first_free, index_of, recorded_under,
};
use cat_base::{MAX_RECORDS, SessionNo, Token};
use cat_directory::FileName;
use cat_views::View;
use indexmap::IndexSet;
use std::alloc::{AllocError, Global};
use std::marker::Model;

/// The recorded views, 1 to [`MAX_RECORDS`] in rising order of token, and which session holds which (Lucene:
/// `SearcherLifetimeManager`). That a view which a session holds never goes is our own: Lucene's pruner asks no holder.
///
/// Contracts see it as the list of the views, and the list of the holds in the order in which they began.
///
/// ```text
/// let mut records = Records::of(alloc, view)?;
/// records.acquire(session, records.newest().token())?;
/// // The table has changed since then; view is one of now.
/// if records.is_full() {
///     return Err(Refusal::Full);
/// }
/// records.record(view);
/// ```
pub struct Records {
    // In rising order of token. It has room for as many as may be recorded.
    recorded: Vec<Recorded>,
    // In the order in which they began.
    holds: IndexSet<HeldToken>,
}

impl Model for Records {
    ghost use Rattle.std.specs.Prelude.{◌≤◌, vec_capacity};
    ghost use Rattle.cat_model.specs.Limits.{view_limit};
    ghost use Rattle.cat_lifetimes.specs.records.Counts.{AreKept, views_of};
    ghost use Rattle.cat_lifetimes.specs.records.Records as model;

    ghost Value = { model.Records };

    ghost view = { λ r. record { views = views_of r.recorded.items; holds = r.holds.keys } };

    ghost invariant = { λ r. AreKept r.recorded.items r.holds.keys × (view_limit ≤ vec_capacity r.recorded) };
}

impl Drop for Records {
    fn drop(self) {
        let Records { recorded, holds } = self;
        drop(recorded);
        drop(holds);
    }
}

impl Records {
    /// The view as the one that is recorded, which nobody holds. All the room that views need is taken here.
    pub fn of(alloc: Global, view: View) -> Result<Records, AllocError>
        ensures ok { IfOk result (λ r. r ≡ record { views = view ∷ []; holds = [] }) }
    {
        let mut recorded = Vec::with_capacity(alloc, MAX_RECORDS)?;
        recorded.push_reserved(Recorded { view, holders: 0 });
        Ok(Records {
            recorded,
            holds: IndexSet::new(alloc),
        })
    }

    /// How many views are recorded, 1 to [`MAX_RECORDS`].
    pub fn len(&self) -> usize
        ensures len { result ≡ length self.now.views }
        ensures some { 1 ≤ result }
        ensures few { result ≤ view_limit }
    {
        self.recorded.len()
    }

    /// The recorded views in rising order of token, each with the number of its holders.
    pub fn recorded(&self) -> &[Recorded]
        ensures views { map (λ r. r.view) result.now ≡ self.now.views }
        ensures holders { All (λ r. r.holders ≡ holders_of self.now.holds r.view.token) result.now }
        ensures valid { AreRecords self.now }
    {
        // `len` is called for its clause that no hold stands twice.
        let _len = self.holds.len();
        self.recorded.as_slice()
    }

    /// The newest view, which has the greatest token.
    pub fn newest(&self) -> &View
        ensures last { slice_get self.now.views (length self.now.views - 1) ≡ Some result.now }
        ensures greatest { result.now.token ≡ greatest (tokens_of self.now.views) }
        ensures most { All (λ v. v.token ≤ result.now.token) self.now.views }
        ensures there { has_token self.now.views result.now.token ≡ true }
    {
        &self.recorded[self.recorded.len() - 1].view
    }

    /// The view of the token, by binary search (Lucene: the look-up of `SearcherLifetimeManager.acquire`).
    pub fn view(&self, token: Token) -> Option<&View>
        ensures { option_map (λ v. v.now) result ≡ find (λ v. v.token == token) self.now.views }
    {
        let recorded = recorded_under(&self.recorded, token)?;
        Some(&recorded.view)
    }

    /// Whether a view is recorded under the token.
    pub fn is_recorded(&self, token: Token) -> bool
        ensures { result ≡ has_token self.now.views token }
    {
        index_of(&self.recorded, token).is_some()
    }

    /// Whether the session holds the token.
    pub fn holds(&self, session: SessionNo, token: Token) -> bool
        ensures { result ≡ has_hold self.now.holds session token }
    {
        self.holds.contains(&HeldToken::new(session, token))
    }

    /// Whether as many views are recorded as may be, and each is held, so that none can be recorded.
    pub fn is_full(&self) -> bool
        ensures { result ≡ is_full (held_in self.now.holds) (tokens_of self.now.views) }
    {
        self.recorded.len() >= MAX_RECORDS && first_free(&self.recorded).is_none()
    }

    /// The view that goes as one more is recorded: none where there is room, else the one of the least token that nobody holds.
    pub fn leaving(&self) -> Option<&View>
        ensures { option_to_list (option_map (λ v. v.now) result) ≡ filter (λ v. not (stays_by self.now v)) self.now.views }
    {
        if self.recorded.len() < MAX_RECORDS {
            return None;
        }
        let index = first_free(&self.recorded)?;
        Some(&self.recorded[index].view)
    }

    /// Records the view, whose token is above all others; the one that is [`leaving`](Records::leaving) goes (Lucene:
    /// `SearcherLifetimeManager.record`). It asks that the views aren't [full](Records::is_full). It takes no memory.
    pub fn record(&mut self, view: View)
        requires space { is_full (held_in self.old.holds) (tokens_of self.old.views) ≡ false }
        requires newest { All (λ v. v.token < view.token) self.old.views }
        ensures { self.new ≡ records_with_view self.old view }
    {
        let recorded = Recorded { view, holders: 0 };
        if self.recorded.len() < MAX_RECORDS {
            self.recorded.push_reserved(recorded);
            return;
        }
        let Some(index) = first_free(&self.recorded) else {
            unreachable!()
        };
        self.recorded.remove(index);
        self.recorded.push_reserved(recorded);
    }

    /// Lets the session hold the token, of which a view is recorded; where it holds it already, nothing changes (Lucene:
    /// `SearcherLifetimeManager.acquire`, which counts each call). An error changes nothing.
    pub fn acquire(&mut self, session: SessionNo, token: Token) -> Result<(), AllocError>
        requires { has_token self.old.views token ≡ true }
        ensures ok { OnOk result (self.new ≡ acquired self.old session token) }
        ensures err { OnErr result (self.new ≡ self.old) }
        ensures due { OnErr result (has_hold self.old.holds session token ≡ false) }
    {
        // `len` is called for its bound, by which the number of holders fits.
        let _len = self.holds.len();
        if self.holds.insert(HeldToken::new(session, token))? {
            count_hold(&mut self.recorded, token);
        }
        Ok(())
    }

    /// Ends the session's hold of the token, and answers whether it had one (Lucene: `SearcherLifetimeManager.release`). It
    /// takes no memory.
    pub fn release(&mut self, session: SessionNo, token: Token) -> bool
        ensures held { result ≡ has_hold self.old.holds session token }
        ensures released { self.new ≡ released self.old session token }
    {
        // `len` is called for its clause that no hold stands twice.
        let _len = self.holds.len();
        let was_held = self.holds.shift_remove(&HeldToken::new(session, token));
        if was_held {
            count_release(&mut self.recorded, token);
        }
        was_held
    }

    /// The least token that a [`prune`](Records::prune) keeps whether or not it is held.
    fn kept_from(&self, count: u64) -> Token
        ensures keeps { KeepsFrom self.now count result }
        ensures there { has_token self.now.views result ≡ true }
    {
        let kept = count.clamp(1, self.recorded.len() as u64) as usize;
        self.recorded[self.recorded.len() - kept].view.token()
    }

    /// The names of the files of the views that a [`prune`](Records::prune) takes out, those of each in turn.
    pub fn files_dropped(&self, alloc: Global, count: u64) -> Result<Vec<FileName>, AllocError>
        ensures { IfOk result (λ names. map name_of names.items
            ≡ flat_map needs (filter (λ v. not (stays_in self.now count v)) self.now.views)) }
    {
        files_below(alloc, &self.recorded, self.kept_from(count))
    }

    /// Takes out each view that isn't among the newest, as many as the count says but at least one, and that nobody holds;
    /// answers how many went (Lucene: `SearcherLifetimeManager.prune` by a `Pruner`). It takes no memory.
    pub fn prune(&mut self, count: u64) -> u64
        ensures went { result ≡ length self.old.views - length self.new.views }
        ensures pruned { self.new ≡ pruned_to self.old count }
    {
        let before = self.recorded.len();
        let token = self.kept_from(count);
        self.recorded
            .retain(|recorded| recorded.is_kept_from(token));
        (before - self.recorded.len()) as u64
    }
}
