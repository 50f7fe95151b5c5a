//! What is asked of the state, which changes nothing and takes no memory.
//!
//! Lucene's `IndexWriter.getDocStats` and `numRamDocs`, and what `IndexFileDeleter` and `SearcherLifetimeManager` count.
ghost use Rattle.std.specs.Prelude.{◌≡◌, ◌+◌, ◌*◌, ◌≤◌, ◌==◌, ◌↔◌, length, count_by, find, option_map, is_some, true, IsTrue};
ghost use Rattle.std.specs.List.{list_any};
ghost use Rattle.cat_model.specs.Limits.{buffer_limit};
ghost use Rattle.cat_model.specs.Run.{greatest, is_full};
ghost use Rattle.cat_model.specs.State.{has_hold, held_in};
ghost use Rattle.cat_ledger_state.specs.Cores.{HasRowsLeft};
ghost use Rattle.cat_ledger_laws.specs.shape.Shapes.{IsShape};
ghost use Rattle.cat_ledger_laws.specs.shape.Steps.{tokens_of};

use crate::state::Core;
use cat_base::{Generation, SessionNo, Token, WriteNo};
use cat_commits::{Leaf, View};
use cat_live_table::Schema;

impl Core {
    /// The fields of the items.
    pub fn schema(&self) -> &Schema
        ensures { result.now ≡ self.now.schema }
    {
        &self.schema
    }

    /// How many writes were accepted, which is the number of the last one, and the token of a view of now.
    pub fn count(&self) -> WriteNo
        ensures count { result ≡ self.now.count }
        ensures shape { IsShape self.now }
    {
        self.count
    }

    /// The segments that stand, in order.
    pub fn leaves(&self) -> &[Leaf]
        ensures { result.now ≡ self.now.leaves }
    {
        self.current.leaves()
    }

    /// How many items wait for a flush.
    pub fn waiting(&self) -> usize
        ensures { result ≡ length self.now.buffered }
    {
        self.buffer.len()
    }

    /// Whether as many items wait as may, so that a flush has to come before the next put.
    pub fn is_due(&self) -> bool
        ensures { IsTrue result ↔ (buffer_limit ≤ length self.now.buffered) }
    {
        self.buffer.is_full()
    }

    /// Whether a view is recorded under the token.
    pub fn is_recorded(&self, token: Token) -> bool
        ensures { result ≡ list_any (λ v. v.token == token) self.now.views }
    {
        self.records.is_recorded(token)
    }

    /// How many views are recorded.
    pub fn recorded(&self) -> usize
        ensures { result ≡ length self.now.views }
    {
        self.records.len()
    }

    /// The generation that the next commit gets: one above the last number where none is left.
    pub fn next_generation(&self) -> Generation
        ensures { result ≡ self.now.next_generation }
    {
        self.next_generation
    }

    /// The token of the newest recorded view, which is the greatest.
    pub fn newest_token(&self) -> Token
        ensures greatest { result ≡ greatest (tokens_of self.now.views) }
        ensures there { list_any (λ v. v.token == result) self.now.views ≡ true }
    {
        self.records.newest().token()
    }

    /// The view that is recorded under the token.
    pub fn view_at(&self, token: Token) -> Option<&View>
        ensures { option_map (λ v. v.now) result ≡ find (λ v. v.token == token) self.now.views }
    {
        self.records.view(token)
    }

    /// Whether the session holds the token.
    pub fn is_held_by(&self, session: SessionNo, token: Token) -> bool
        ensures { result ≡ has_hold self.now.holds session token }
    {
        self.records.holds(session, token)
    }

    /// Whether as many views are recorded as may be, and each is held, so that none can be recorded.
    pub fn is_full(&self) -> bool
        ensures { result ≡ is_full (held_in self.now.holds) (tokens_of self.now.views) }
    {
        self.records.is_full()
    }

    /// Whether a merge is in the making.
    pub fn is_merging(&self) -> bool
        ensures { result ≡ is_some self.now.merging }
    {
        self.merging.is_some()
    }

    /// Whether the merge in the making has rows left to pass. There is one.
    pub fn has_rows_left(&self) -> bool
        requires { IsTrue (is_some self.now.merging) }
        ensures { IsTrue result ↔ HasRowsLeft self.now.merging }
    {
        match &self.merging {
            Some(merge) => !merge.is_passed(),
            None => unreachable!(),
        }
    }

    /// How many rows the merge in the making has passed, dead ones counted; none where there is no merge.
    pub fn rows_passed(&self) -> Option<usize>
        ensures { result ≡ option_map (λ m. m.passed) self.now.merging }
    {
        let merge = self.merging.as_ref()?;
        Some(merge.passed())
    }

    /// How many files are pending, which nobody needs: a sweep deletes them.
    pub fn pending(&self) -> u64
        ensures { result ≡ count_by (λ u. u.users == 0) self.now.users }
    {
        self.refs.pending()
    }

    /// Few files can be pending, for a caller's proof; it does nothing. The numbers of each known name were given out, and each stands
    /// once: below the next number of a segment and of a commit there are so many names, and two fewer.
    pub fn few_are_pending(&self)
        ensures { count_by (λ u. u.users == 0) self.now.users + 2 ≤ self.now.next_segment * (self.now.next_generation + 1) }
    {
        self.refs.stand_once();
    }
}
