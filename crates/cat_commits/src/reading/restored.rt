//! A commit with what the files of its segments hold.
ghost use Rattle.std.specs.Prelude.{◌≡◌, ◌≢◌, ◌↔◌, Some, None, IfOk, IfErr, IsTrue};
ghost use Rattle.cat_base.specs.declared.refusal.Refusal.TheVariants.{Kind, Damaged, Device, Memory};
ghost use Rattle.cat_directory.specs.Frames.{FailsReading, OnlyReads};
ghost use Rattle.cat_model.specs.CommitFile as file;
ghost use Rattle.cat_model.specs.Merged.{rows_of_all};
ghost use Rattle.cat_commits.specs.reading.Judged.{AreInOrder, Differ, live_ids};
ghost use Rattle.cat_model.specs.Restored as model;
ghost use Rattle.cat_ledger_laws.specs.model.Opening.{HasCommit, IsForeign, IsRestored};
ghost use Rattle.cat_commits.specs.reading.Refused.{CountsOpening};
ghost use Rattle.cat_ledger_laws.specs.shape.OpeningLaws.{MayHold};
ghost use Rattle.cat_commits.specs.reading.Told.{Tells};

use crate::reading::file::read_file;
use crate::reading::ids::ids_differ;
use crate::reading::laws::leaves_are_told_by_their_files;
use crate::reading::leaves::read_leaves;
use crate::reading::order::in_order;
use crate::{Commit, ListedSegment};
use cat_base::{Generation, Refusal};
use cat_directory::{FileName, Shelf};
use cat_items::Schema;
use cat_model::commits_are_told_by_their_bytes;
use cat_views::Leaf;
use std::alloc::{AllocError, Global};
use std::marker::Model;

/// A commit, with its segments and their live sets, as its files hold them. (Lucene: what `StandardDirectoryReader.open`
/// makes of an `IndexCommit`.)
#[derive(Drop)]
pub struct Restored {
    /// What the commit's own file says.
    pub commit: Commit,
    /// Its segments in order, each with its live rows.
    pub leaves: Vec<Leaf>,
}

impl Model for Restored {
    ghost use Rattle.cat_model.specs.Merged.{rows_of_all};
    ghost use Rattle.cat_commits.specs.reading.Judged.{AreInOrder, Differ, live_ids};
    ghost use Rattle.cat_model.specs.Restored as model;

    ghost Value = { model.Restored };

    ghost view = { λ r. record { commit = r.commit; leaves = r.leaves.items } };
}

/// The commit that its own file holds, with the number of the file's name; else [`Refusal::Damaged`].
fn read_own<S: Shelf>(
    alloc: Global,
    shelf: &mut S,
    generation: Generation,
) -> Result<Commit, Refusal>
    ensures ok { IfOk result (HasCommit (MayHold (S.bytes shelf.old)) generation) }
    ensures damaged { IfErr result (λ e. e ≡ Damaged → (c : file.CommitFile) → HasCommit (Tells (S.bytes shelf.old)) generation c → ⊥) }
    ensures due { IfErr result (λ e. e ≡ Memory → S.bytes shelf.old (FileName.Commit generation) ≢ Some None) }
    ensures fails { FailsReading S.can_fail S.fault_count shelf.old shelf.new result }
    ensures frame { OnlyReads S.bytes S.may_leave S.can_fail shelf.old shelf.new }
{
    commits_are_told_by_their_bytes();
    let bytes = read_file(alloc, shelf, FileName::Commit(generation))?;
    let commit = Commit::decode(alloc, &bytes)?;
    if commit.generation != generation {
        return Err(Refusal::Damaged);
    }
    Ok(commit)
}

/// Whether the commit has the fields of the schema.
fn is_under(commit: &Commit, schema: &Schema) -> bool
    ensures { IsTrue result ↔ (commit.now.schema ≡ schema.now) }
{
    commit.schema == *schema
}

/// The segments that the commit lists.
fn listed(commit: &Commit) -> &[ListedSegment]
    ensures { result.now ≡ commit.now.segments }
{
    &commit.segments
}

/// Whether numbers of writes rise over all rows, none is above the commit's token, and the ids of live rows differ.
fn agree(alloc: Global, commit: &Commit, leaves: &[Leaf]) -> Result<bool, AllocError>
    ensures { IfOk result (λ well. IsTrue well ↔ (AreInOrder commit.now.token (rows_of_all leaves.now) × Differ (live_ids leaves.now))) }
{
    if !in_order(leaves, commit.token) {
        return Ok(false);
    }
    let differ = ids_differ(alloc, leaves)?;
    Ok(differ)
}

/// The commit of the generation, as the files hold it, each of which is read once. (Lucene: `DirectoryReader.open` of an
/// `IndexCommit`, with what `CheckIndex` asks of it.)
///
/// [`Refusal::Damaged`] exactly where a device that tells all its files holds no such commit under the schema, and
/// [`Refusal::Kind`] where it holds one under another; that is judged before a file of a segment is read.
/// [`Refusal::Device`] where the device failed. The files stay as they are.
///
/// [`Refusal::Memory`] comes at the place where memory was refused, and no file that was looked for before is absent. Who is
/// told it doesn't know the place, so the contract says this of the commit's own file alone: to read that takes memory, and
/// where it is refused nothing is known of the files that the commit lists.
pub fn read_commit<S: Shelf>(
    alloc: Global,
    shelf: &mut S,
    schema: &Schema,
    generation: Generation,
) -> Result<Restored, Refusal>
    ensures ok { IfOk result (IsRestored (MayHold (S.bytes shelf.old)) schema.now generation) }
    ensures damaged { IfErr result (λ e. e ≡ Damaged → (r : model.Restored) → IsRestored (Tells (S.bytes shelf.old)) schema.now generation r → ⊥) }
    ensures own { IfErr result (λ e. e ≡ Damaged → IsForeign (Tells (S.bytes shelf.old)) schema.now generation → ⊥) }
    ensures foreign { IfErr result (λ e. e ≡ Kind → IsForeign (MayHold (S.bytes shelf.old)) schema.now generation) }
    ensures due { IfErr result (λ e. e ≡ Memory → S.bytes shelf.old (FileName.Commit generation) ≢ Some None) }
    ensures device { IfErr result (λ e. e ≡ Device → S.can_fail shelf.old) }
    ensures frame { OnlyReads S.bytes S.may_leave S.can_fail shelf.old shelf.new }
    ensures counted { CountsOpening (S.fault_count shelf.old) (S.fault_count shelf.new) result }
{
    commits_are_told_by_their_bytes();
    leaves_are_told_by_their_files();
    let commit = read_own(alloc, shelf, generation)?;
    if !is_under(&commit, schema) {
        return Err(Refusal::Kind);
    }
    let leaves = read_leaves(alloc, shelf, schema, listed(&commit))?;
    let well = agree(alloc, &commit, &leaves)?;
    if !well {
        return Err(Refusal::Damaged);
    }
    Ok(Restored { commit, leaves })
}
