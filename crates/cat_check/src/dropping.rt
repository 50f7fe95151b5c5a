//! The way back after a crash in the middle of a commit: the file of a torn commit is deleted where the one before is whole.
ghost use Rattle.std.specs.Prelude.{◌≡◌, ◌≢◌, ◌⊎◌, IfOk, IfErr, OnOk, MatchBool};
ghost use Rattle.cat_base.specs.declared.refusal.Refusal.TheVariants.{Device};
ghost use Rattle.cat_model.specs.CommitFile.{CommitFile};
ghost use Rattle.cat_directory.specs.Devices.{IsSettled, removed, told_after};
ghost use Rattle.cat_ledger_laws.specs.shape.OpeningLaws.{MayHold};
ghost use Rattle.cat_directory.specs.Frames.{OnlyReads};
ghost use Rattle.cat_check.specs.Said.{SaysCommit, IsTorn};
ghost use Rattle.cat_check.specs.Judged.{IsLost, IsCommitWhole};
ghost use Rattle.cat_check.specs.Standing.{IsDroppable, IsDropped, IsStanding, StandsSo};

use crate::commits::commit_below;
use crate::said::read_said;
use crate::verdict::open_said;
use cat_base::{Generation, Refusal};
use cat_commits::reading::newest_commit;
use cat_directory::{Directory, FileName, Shelf};
use std::alloc::Global;

/// How the newest commit of a directory stands.
#[derive(Clone, Copy, Drop)]
pub enum Standing {
    /// There is no commit.
    Empty,
    /// Its own file says a commit: it isn't torn.
    Readable(Generation),
    /// It is torn, and no other is there.
    Alone(Generation),
    /// It is torn, and so is the one before it, or else damaged.
    OverDamaged(Generation, Generation),
    /// It is torn, and the one before it is whole.
    OverWhole(Generation, Generation),
}

/// Whether the own file of the commit is none's.
fn is_torn<S: Shelf>(alloc: Global, shelf: &mut S, generation: Generation) -> Result<bool, Refusal>
    ensures ok { IfOk result (λ torn. MatchBool torn (IsTorn (S.bytes shelf.old) generation)
        ((c : CommitFile) × SaysCommit (MayHold (S.bytes shelf.old)) generation c)) }
    ensures device { IfErr result (λ e. e ≡ Device → S.can_fail shelf.old) }
    ensures frame { OnlyReads S.bytes S.may_leave S.can_fail shelf.old shelf.new }
{
    match read_said(alloc, shelf, generation) {
        Ok(_) => Ok(false),
        Err(Refusal::Damaged) => Ok(true),
        Err(refusal) => Err(refusal),
    }
}

/// Whether an opening reads the commit, under the fields of its own file.
fn is_whole<S: Shelf>(alloc: Global, shelf: &mut S, generation: Generation) -> Result<bool, Refusal>
    ensures ok { IfOk result (λ whole. MatchBool whole (IsCommitWhole (S.bytes shelf.old) generation) (IsLost (S.bytes shelf.old) generation)) }
    ensures device { IfErr result (λ e. e ≡ Device → S.can_fail shelf.old) }
    ensures frame { OnlyReads S.bytes S.may_leave S.can_fail shelf.old shelf.new }
{
    let commit = match read_said(alloc, shelf, generation) {
        Ok(commit) => commit,
        Err(Refusal::Damaged) => return Ok(false),
        Err(refusal) => return Err(refusal),
    };
    match open_said(alloc, shelf, &commit, generation) {
        Ok(_) => Ok(true),
        Err(Refusal::Damaged) => Ok(false),
        Err(refusal) => Err(refusal),
    }
}

/// How the newest commit of these names stands.
fn standing_of<S: Shelf>(
    alloc: Global,
    shelf: &mut S,
    names: &[FileName],
) -> Result<Standing, Refusal>
    ensures ok { IfOk result (StandsSo (S.bytes shelf.old) names.now) }
    ensures device { IfErr result (λ e. e ≡ Device → S.can_fail shelf.old) }
    ensures frame { OnlyReads S.bytes S.may_leave S.can_fail shelf.old shelf.new }
{
    let Some(newest) = newest_commit(names) else {
        return Ok(Standing::Empty);
    };
    let torn = is_torn(alloc, shelf, newest)?;
    if !torn {
        return Ok(Standing::Readable(newest));
    }
    let Some(below) = commit_below(names, newest) else {
        return Ok(Standing::Alone(newest));
    };
    let whole = is_whole(alloc, shelf, below)?;
    if !whole {
        return Ok(Standing::OverDamaged(newest, below));
    }
    Ok(Standing::OverWhole(newest, below))
}

/// How the newest commit of the directory stands. No file is changed.
pub fn find_standing<D: Directory + Shelf>(
    alloc: Global,
    device: &mut D,
) -> Result<Standing, Refusal>
    ensures ok { IfOk result (IsStanding (D.bytes device.old)) }
    ensures device { IfErr result (λ e. e ≡ Device → D.can_fail device.old) }
    ensures frame { OnlyReads D.bytes D.may_leave D.can_fail device.old device.new }
{
    let names = device.names(alloc)?;
    let standing = standing_of(alloc, device, &names)?;
    Ok(standing)
}

/// Deletes the file, which then stays away whatever comes.
fn delete_lasting<D: Directory>(device: &mut D, name: FileName) -> Result<(), Refusal>
    ensures others { (q : FileName) → q ≢ name → D.bytes device.new q ≡ D.bytes device.old q }
    ensures ok { OnOk result (D.bytes device.new name ≡ told_after removed (D.bytes device.old name)) }
    ensures lasts { OnOk result (IsSettled (told_after removed (D.bytes device.old name)) (D.may_leave device.new name)) }
    ensures device { IfErr result (λ e. e ≡ Device → D.can_fail device.old) }
{
    device.delete(name)?;
    device.sync(&[])?;
    Ok(())
}

/// Deletes the own file of the newest commit where it is torn and the one before it is whole, so that the next opening opens
/// that one; and waits until the file would stay away after a loss of power. In every other case nothing is deleted. What the
/// directory was before is answered. Other files of the torn commit are left to the next opening, which sweeps them.
///
/// [`Refusal::Device`] where the device fails, or [`Refusal::Memory`]: the file is as it was, or gone.
pub fn drop_torn<D: Directory + Shelf>(alloc: Global, device: &mut D) -> Result<Standing, Refusal>
    ensures ok { IfOk result (IsStanding (D.bytes device.old)) }
    ensures only { (q : FileName) → (D.bytes device.new q ≡ D.bytes device.old q) ⊎ IsDroppable (D.bytes device.old) q }
    ensures gone { IfOk result (IsDropped (D.bytes device.old) (D.bytes device.new) (D.may_leave device.new)) }
    ensures device { IfErr result (λ e. e ≡ Device → D.can_fail device.old) }
{
    let standing = find_standing(alloc, device)?;
    if let Standing::OverWhole(torn, _) = standing {
        delete_lasting(device, FileName::Commit(torn))?;
    }
    Ok(standing)
}
