//! Which commits stay, and the names of the files of those that go.
//!
//! Lucene's `IndexDeletionPolicy.onCommit`, as a `SnapshotDeletionPolicy` over a `KeepOnlyLastCommitDeletionPolicy` has it.
ghost use Rattle.std.specs.Prelude.{◌≡◌, ◌<◌, ◌==◌, ◌++◌, [], ◌∷◌, Some, filter, find, map, not, option_map, vec_len, vec_capacity, IfOk, OnOk};
ghost use Rattle.cat_directory.specs.Names.{name_of};
ghost use Rattle.cat_model.specs.State.{stays_kept};
ghost use Rattle.cat_ledger_laws.specs.shape.Shapes.{names_of_commits};
ghost use Rattle.cat_ledger_laws.specs.shape.Steps.{newest_generation};
ghost use Rattle.cat_ledger_state.specs.Commits.{stays_with};

use cat_base::Generation;
use cat_commits::{Commit, KeepLast, Snapshots};
use cat_directory::FileName;
use std::alloc::{AllocError, Global};

/// The newest of commits in rising order.
pub(crate) fn newest_of(commits: &[Commit]) -> Option<Generation>
    ensures { result ≡ newest_generation commits.now }
{
    match commits.last() {
        Some(commit) => Some(commit.generation),
        None => None,
    }
}

/// The commit of the generation, if there is one.
pub(crate) fn commit_under(commits: &[Commit], generation: Generation) -> Option<&Commit>
    ensures { option_map (λ c. c.now) result ≡ find (λ c. c.generation == generation) commits.now }
{
    commits
        .iter()
        .find(|commit| commit.generation == generation)
}

/// Whether the commit stays where `newest` is the last one, once a snapshot of the released one, if there is one, is given back.
fn stays(
    generation: Generation,
    newest: Option<Generation>,
    snapshots: &Snapshots,
    released: Option<Generation>,
) -> bool
    ensures { result ≡ stays_with snapshots.now released newest generation }
{
    if released == Some(generation) {
        return newest == Some(generation) || snapshots.count(generation) > 1;
    }
    KeepLast::stays(generation, newest, snapshots)
}

/// Adds the names of the files that the commit needs, where it goes.
fn add_leaving(
    names: &mut Vec<FileName>,
    commit: &Commit,
    newest: Option<Generation>,
    snapshots: &Snapshots,
    released: Option<Generation>,
) -> Result<(), AllocError>
    ensures { OnOk result (map name_of names.new.items ≡ map name_of names.old.items
        ++ names_of_commits (filter (λ c. not (stays_with snapshots.now released newest c.generation)) (commit.now ∷ []))) }
{
    if stays(commit.generation, newest, snapshots, released) {
        return Ok(());
    }
    names.extend_from_slice(&commit.names()?)?;
    Ok(())
}

/// The names of the files of the commits that go where `newest` is the last one, once a snapshot of the released one, if there is
/// one, is given back.
pub(crate) fn files_leaving(
    alloc: Global,
    commits: &[Commit],
    newest: Option<Generation>,
    snapshots: &Snapshots,
    released: Option<Generation>,
) -> Result<Vec<FileName>, AllocError>
    ensures { IfOk result (λ names. map name_of names.items
        ≡ names_of_commits (filter (λ c. not (stays_with snapshots.now released newest c.generation)) commits.now)) }
{
    let mut names = Vec::new(alloc);
    for commit in commits {
        add_leaving(&mut names, commit, newest, snapshots, released)?;
    }
    Ok(names)
}

/// Lets the commits go that don't stay where `newest` is the last one. It takes no memory.
pub(crate) fn keep_staying(
    commits: &mut Vec<Commit>,
    newest: Option<Generation>,
    snapshots: &Snapshots,
)
    ensures { commits.new.items ≡ filter (λ c. stays_kept snapshots.now newest c.generation) commits.old.items }
{
    commits.retain(|kept| KeepLast::stays(kept.generation, newest, snapshots));
}

/// Keeps the new commit, the newest, and lets those go that don't stay. There is room for it, so that it takes no memory.
pub(crate) fn keep(commits: &mut Vec<Commit>, snapshots: &Snapshots, commit: Commit)
    requires { vec_len commits.old < vec_capacity commits.old }
    ensures { commits.new.items
        ≡ filter (λ c. stays_kept snapshots.now (Some commit.generation) c.generation) commits.old.items ++ commit ∷ [] }
{
    let newest = commit.generation;
    commits.push_reserved(commit);
    keep_staying(commits, Some(newest), snapshots);
}
