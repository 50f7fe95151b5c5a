//! What is judged of a commit.
ghost use Rattle.std.specs.Prelude.{◌≡◌, IfOk, IfErr};
ghost use Rattle.cat_base.specs.declared.refusal.Refusal.TheVariants.{Device, Damaged};
ghost use Rattle.cat_ledger_laws.specs.model.Opening.{IsRestored};
ghost use Rattle.cat_ledger_laws.specs.shape.OpeningLaws.{MayHold};
ghost use Rattle.cat_directory.specs.Frames.{OnlyReads};
ghost use Rattle.cat_check.specs.Said.{SaysCommit};
ghost use Rattle.cat_check.specs.Judged.{IsLost, IsJudged};

use crate::counts::{Counts, counts_of};
use crate::fault::Fault;
use crate::look::look;
use cat_base::{Generation, Refusal};
use cat_commits::Commit;
use cat_commits::reading::{Restored, read_commit};
use cat_directory::{FileName, Shelf};
use cat_items::Schema;
use cat_model::commits_are_told_by_their_bytes;
use std::alloc::{AllocError, Global};

/// What is judged of a commit: what an opening at it answers, under the fields that its own file says. (Lucene: `CheckIndex.Status`.)
#[derive(Drop)]
pub enum Verdict {
    /// An opening reads it.
    Whole(Counts),
    /// An opening is refused by 31: these files break these rules.
    Damaged(Vec<Fault>),
    /// The device failed, so that nothing is known.
    Unread,
}

/// The fields of the commit.
fn fields(commit: &Commit) -> &Schema
    ensures { result.now ≡ commit.now.schema }
{
    &commit.schema
}

/// What an opening at the commit reads, under the fields of the commit that its own file says. [`Refusal::Damaged`] also where
/// that file has other fields by now.
pub fn open_said<S: Shelf>(
    alloc: Global,
    shelf: &mut S,
    commit: &Commit,
    generation: Generation,
) -> Result<Restored, Refusal>
    requires { SaysCommit (MayHold (S.bytes shelf.old)) generation commit.now }
    ensures ok { IfOk result (λ r. IsRestored (MayHold (S.bytes shelf.old)) r.commit.schema generation r) }
    ensures damaged { IfErr result (λ e. e ≡ Damaged → IsLost (S.bytes shelf.old) generation) }
    ensures device { IfErr result (λ e. e ≡ Device → S.can_fail shelf.old) }
    ensures frame { OnlyReads S.bytes S.may_leave S.can_fail shelf.old shelf.new }
{
    commits_are_told_by_their_bytes();
    match read_commit(alloc, shelf, fields(commit), generation) {
        Ok(restored) => Ok(restored),
        Err(Refusal::Kind) => Err(Refusal::Damaged),
        Err(refusal) => Err(refusal),
    }
}

/// What is judged of the commit, which its own file says.
pub(crate) fn verdict_of<S: Shelf>(
    alloc: Global,
    shelf: &mut S,
    commit: &Commit,
    generation: Generation,
) -> Result<Verdict, AllocError>
    requires { SaysCommit (MayHold (S.bytes shelf.old)) generation commit.now }
    ensures judged { IfOk result (IsJudged (S.bytes shelf.old) (S.can_fail shelf.old) generation) }
    ensures frame { OnlyReads S.bytes S.may_leave S.can_fail shelf.old shelf.new }
{
    match open_said(alloc, shelf, commit, generation) {
        Ok(restored) => Ok(Verdict::Whole(counts_of(&restored.leaves))),
        Err(Refusal::Damaged) => Ok(Verdict::Damaged(look(alloc, shelf, commit, generation)?)),
        Err(Refusal::Device) => Ok(Verdict::Unread),
        Err(_) => Err(AllocError),
    }
}
