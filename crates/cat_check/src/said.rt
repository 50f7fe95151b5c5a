//! What a commit's own file says.
ghost use Rattle.std.specs.Prelude.{◌≡◌, IfOk, IfErr};
ghost use Rattle.cat_base.specs.declared.refusal.Refusal.TheVariants.{Damaged};
ghost use Rattle.cat_ledger_laws.specs.shape.OpeningLaws.{MayHold};
ghost use Rattle.cat_directory.specs.Frames.{FailsReading, OnlyReads};
ghost use Rattle.cat_check.specs.Said.{SaysCommit, IsTorn};

use cat_base::{Generation, Refusal};
use cat_commits::Commit;
use cat_commits::reading::read_file;
use cat_directory::{FileName, Shelf};
use std::alloc::Global;

/// The commit that the file of the generation's name says, whatever number it gives itself. [`Refusal::Damaged`] where the file
/// is absent, or its bytes are no commit's.
pub(crate) fn read_said<S: Shelf>(
    alloc: Global,
    shelf: &mut S,
    generation: Generation,
) -> Result<Commit, Refusal>
    ensures ok { IfOk result (SaysCommit (MayHold (S.bytes shelf.old)) generation) }
    ensures torn { IfErr result (λ e. e ≡ Damaged → IsTorn (S.bytes shelf.old) generation) }
    ensures fails { FailsReading S.can_fail S.fault_count shelf.old shelf.new result }
    ensures frame { OnlyReads S.bytes S.may_leave S.can_fail shelf.old shelf.new }
{
    let bytes = read_file(alloc, shelf, FileName::Commit(generation))?;
    let commit = Commit::decode(alloc, &bytes)?;
    Ok(commit)
}
