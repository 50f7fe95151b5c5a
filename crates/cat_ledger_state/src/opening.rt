//! What memory has of a ledger that was opened: at a commit, or where none is.
//!
//! Lucene's constructor of `IndexWriter`, with that of its `IndexFileDeleter`. Which commit it is, and that its files hold it,
//! is left to cat_commits.
ghost use Rattle.std.specs.Prelude.{◌≡◌, ◌<◌, ◌≤◌, ◌+◌, ◌^◌, ℕ, [], ◌∷◌, true, All, IfOk, OnOk};
ghost use Rattle.cat_model.specs.CommitFile.{commit_needs};
ghost use Rattle.cat_model.specs.Files.{Name};
ghost use Rattle.cat_model.specs.Limits.{last_number};
ghost use Rattle.cat_model.specs.View.{IsView};
ghost use Rattle.cat_ledger_laws.specs.model.Ledger.{IsPast};
ghost use Rattle.cat_ledger_laws.specs.model.Opening.{IsRestored};
ghost use Rattle.cat_ledger_laws.specs.model.Users.{users_of, has_name, is_known, times};
ghost use Rattle.cat_lifetimes.specs.refs.Counts.{names_in};
ghost use Rattle.cat_ledger_laws.specs.shape.OpeningLaws.{IsCountedAt, IsCountedEmpty, MayHold, empty_at, opened_at};
ghost use Rattle.cat_ledger_laws.specs.shape.Ties.{ToldFiles};
ghost use Rattle.cat_ledger_state.specs.Commits.{users_at};
ghost use Rattle.cat_ledger_state.specs.Cores.{ComesUsed, KnownArePast};

use crate::state::Core;
use cat_base::{Generation, SegNo, Token};
use cat_commits::reading::Restored;
use cat_commits::writing::Listing;
use cat_commits::{Commit, Snapshots, View};
use cat_directory::FileName;
use cat_lifetimes::records::Records;
use cat_lifetimes::refs::FileRefs;
use cat_live_table::Schema;
use cat_live_table::buffer::Buffer;
use cat_live_table::current::Current;
use std::alloc::{AllocError, Global};

/// The names of a directory, which nobody uses yet: all are pending. No name stands there twice.
pub fn known_names(alloc: Global, names: &[FileName]) -> Result<FileRefs, AllocError>
    requires once { (q : Name) → times q (names_in names.now) ≤ 1 }
    ensures users { IfOk result (λ refs. (q : Name) → users_of refs q ≡ 0) }
    ensures known { IfOk result (λ refs. (q : Name) → is_known refs q ≡ has_name q (names_in names.now)) }
{
    let mut refs = FileRefs::new(alloc);
    refs.take(names)?;
    refs.give(names);
    Ok(refs)
}

/// The segments that stand, as a searcher sees them at the token. All in it is shared.
fn view_at(
    alloc: Global,
    schema: &Schema,
    current: &Current,
    token: Token,
) -> Result<View, AllocError>
    requires { IsView (record { schema = schema.now; leaves = current.now; token = token }) }
    ensures { IfOk result (λ v. v ≡ record { schema = schema.now; leaves = current.now; token = token }) }
{
    let leaves = current.copy()?;
    View::of(alloc, schema.copy()?, leaves, token)
}

/// Counts the segments of the view as standing, the view as recorded, and the commit as kept.
fn count_users(
    alloc: Global,
    refs: &mut FileRefs,
    view: &View,
    commit: &Commit,
) -> Result<(), AllocError>
    requires few { (q : Name) → users_of refs.old q + users_at view.now commit.now q < 2 ^ 64 }
    ensures users { OnOk result ((q : Name) → users_of refs.new q ≡ users_of refs.old q + users_at view.now commit.now q) }
    ensures known { OnOk result ((q : Name) → is_known refs.old q ≡ true → is_known refs.new q ≡ true) }
    ensures used { OnOk result (ComesUsed refs.old refs.new) }
{
    let files = view.files(alloc)?;
    refs.take(&files)?;
    refs.take(&files)?;
    refs.take(&commit.names()?)?;
    Ok(())
}

/// The commit alone.
fn alone(alloc: Global, commit: Commit) -> Result<Vec<Commit>, AllocError>
    ensures { IfOk result (λ commits. commits.items ≡ commit ∷ []) }
{
    let mut commits = Vec::new(alloc);
    commits.push(commit)?;
    Ok(commits)
}

impl Core {
    /// A commit that was read, with its segments: they stand, a view of them is recorded under the commit's token, and it is the
    /// only commit. Nobody holds a view, and no snapshot is taken. (Lucene: `IndexWriter` over an `IndexCommit`.)
    ///
    /// Nobody uses a name before, and the numbers are those that are taken next, which no file of the commit has, nor has a known
    /// name.
    pub fn opened(
        alloc: Global,
        schema: Schema,
        restored: Restored,
        mut refs: FileRefs,
        next_segment: SegNo,
        next_generation: Generation,
    ) -> Result<Core, AllocError>
        requires restored { (told : ToldFiles) × (g : ℕ) × IsRestored (MayHold told) schema g restored }
        requires unused { (q : Name) → users_of refs q ≡ 0 }
        requires past { All (IsPast next_segment next_generation) (commit_needs restored.commit) }
        requires known { KnownArePast refs next_segment next_generation }
        requires some { 0 < next_segment }
        requires left { (next_segment ≤ last_number + 1) × (next_generation ≤ last_number + 1) }
        ensures counted { IfOk result (λ c. IsCountedAt schema restored c.users next_segment next_generation) }
        ensures known { IfOk result (λ c. (q : Name) → is_known refs q ≡ true → is_known c.users q ≡ true) }
        ensures opened { IfOk result (λ c. c ≡ opened_at schema restored c.users next_segment next_generation) }
    {
        let Restored { commit, leaves } = restored;
        let current = Current::of(leaves)?;
        let count = commit.token;
        let view = view_at(alloc, &schema, &current, count)?;
        count_users(alloc, &mut refs, &view, &commit)?;
        let listing = Listing::of(alloc, &commit.segments, current.leaves())?;
        let commits = alone(alloc, commit)?;
        let records = Records::of(alloc, view)?;
        let buffer = Buffer::new(alloc, &schema)?;
        Ok(Core {
            alloc,
            schema,
            current,
            buffer,
            count,
            records,
            commits,
            listing,
            snapshots: Snapshots::new(alloc),
            merging: None,
            refs,
            next_segment,
            next_generation,
        })
    }

    /// No item, segment or commit: a view of nothing is recorded under token 0. Nobody uses a name, and the numbers are those
    /// that are taken next, which no known name has.
    pub fn empty(
        alloc: Global,
        schema: Schema,
        refs: FileRefs,
        next_segment: SegNo,
        next_generation: Generation,
    ) -> Result<Core, AllocError>
        requires counted { IsCountedEmpty refs next_segment next_generation }
        requires known { KnownArePast refs next_segment next_generation }
        ensures { IfOk result (λ c. c ≡ empty_at schema refs next_segment next_generation) }
    {
        let view = View::of(alloc, schema.copy()?, Vec::new(alloc), 0)?;
        let records = Records::of(alloc, view)?;
        let buffer = Buffer::new(alloc, &schema)?;
        Ok(Core {
            alloc,
            schema,
            current: Current::new(alloc),
            buffer,
            count: 0,
            records,
            commits: Vec::new(alloc),
            listing: Listing::new(alloc),
            snapshots: Snapshots::new(alloc),
            merging: None,
            refs,
            next_segment,
            next_generation,
        })
    }
}
