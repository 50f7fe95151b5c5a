//! Opening: at the newest commit of a directory, or where there is none.
//!
//! Lucene's constructor of `IndexWriter` with `OpenMode.CREATE_OR_APPEND`, and that of its `IndexFileDeleter`.
ghost use Rattle.std.specs.Prelude.{◌≡◌, ◌⊎◌, ◌<◌, ◌≤◌, ◌+◌, true, Some, None, IfOk, IfErr, OnOk};
ghost use Rattle.cat_base.specs.declared.refusal.Refusal.TheVariants.{Kind, Device, Damaged};
ghost use Rattle.cat_model.specs.CommitFile.{commit_needs};
ghost use Rattle.cat_model.specs.Files.{Name};
ghost use Rattle.cat_model.specs.Limits.{last_number};
ghost use Rattle.cat_directory.specs.Devices.{CountsWriting, IsSettled};
ghost use Rattle.cat_directory.specs.Frames.{FailsWriting, OnlyReads};
ghost use Rattle.cat_directory.specs.Names.{name_of};
ghost use Rattle.cat_ledger_laws.specs.model.Ledger.{IsTaken};
ghost use Rattle.cat_ledger_laws.specs.model.Opening.{IsForeign, IsRestored};
ghost use Rattle.cat_ledger_laws.specs.model.Users.{users_of, has_name, is_known};
ghost use Rattle.cat_ledger_laws.specs.shape.OpeningLaws.{IsCountedEmpty, MayHold, empty_at};
ghost use Rattle.cat_commits.specs.reading.Refused.{CountsOpening};
ghost use Rattle.cat_commits.specs.reading.Told.{Tells};
ghost use Rattle.cat_ledger_laws.specs.shape.Ties.{ToldFiles};
ghost use Rattle.cat_ledger_state.specs.Cores.{KnownArePast};
ghost use Rattle.cat_ledger_state.specs.startup.Found.{TellsNames};
ghost use Rattle.cat_ledger_state.specs.startup.Opened.{HasOpened, IsRestoredAt, IsStateAt};
ghost use Rattle.cat_ledger_state.specs.startup.Refused.{IsLostUnder, IsNewestDamaged, IsNewestForeign};

use crate::{Core, known_names};
use cat_base::{Generation, Refusal, SegNo};
use cat_commits::Commit;
use cat_commits::reading::{Restored, newest_commit, next_numbers, read_commit};
use cat_directory::{Directory, FileName, Shelf};
use cat_lifetimes::refs::FileRefs;
use cat_live_table::Schema;
use std::alloc::{AllocError, Global};

/// What the names of a directory tell: which are known, the numbers that are taken next, and the newest commit, if there is one.
#[derive(Drop)]
struct Found {
    refs: FileRefs,
    next: (SegNo, Generation),
    newest: Option<Generation>,
}

/// Reads the names of the directory. Nobody uses one yet.
fn find<D: Directory>(alloc: Global, device: &mut D) -> Result<Found, Refusal>
    ensures ok { IfOk result (λ f. TellsNames (D.bytes device.old) f.refs f.next.0 f.next.1 f.newest) }
    ensures fails { FailsWriting D.can_fail D.fault_count device.old device.new result }
    ensures frame { OnlyReads D.bytes D.may_leave D.can_fail device.old device.new }
{
    let names = device.names(alloc)?;
    let refs = known_names(alloc, &names)?;
    let next = next_numbers(&names);
    let newest = newest_commit(&names);
    Ok(Found { refs, next, newest })
}

/// Makes the files last that the commit needs.
fn sync_needed<D: Directory>(device: &mut D, commit: &Commit) -> Result<(), Refusal>
    ensures lasts { OnOk result ((q : FileName) → has_name (name_of q) (commit_needs commit.now) ≡ true
        → IsSettled (D.bytes device.old q) (D.may_leave device.new q)) }
    ensures gone { OnOk result ((q : FileName) → D.bytes device.old q ≡ Some None
        → IsSettled (D.bytes device.old q) (D.may_leave device.new q)) }
    ensures device { IfErr result (λ e. e ≡ Device → D.can_fail device.old
        ⊎ ((q : FileName) × (has_name (name_of q) (commit_needs commit.now) ≡ true) × (D.bytes device.old q ≡ Some None))) }
    ensures frame { OnlyReads D.bytes D.may_leave D.can_fail device.old device.new }
    ensures counted { CountsWriting (D.fault_count device.old) (D.fault_count device.new) result }
{
    let needed = commit.names()?;
    device.sync(&needed)
}

/// The commit of the generation, as its files hold it, which last then.
fn read_synced<D: Directory + Shelf>(
    alloc: Global,
    device: &mut D,
    schema: &Schema,
    generation: Generation,
) -> Result<Restored, Refusal>
    ensures ok { IfOk result (IsRestored (MayHold (D.bytes device.old)) schema.now generation) }
    ensures lasts { IfOk result (λ r. (q : FileName) → has_name (name_of q) (commit_needs r.commit) ≡ true
        → IsSettled (D.bytes device.old q) (D.may_leave device.new q)) }
    ensures gone { OnOk result ((q : FileName) → D.bytes device.old q ≡ Some None
        → IsSettled (D.bytes device.old q) (D.may_leave device.new q)) }
    ensures damaged { IfErr result (λ e. e ≡ Damaged → IsLostUnder (D.bytes device.old) schema.now generation) }
    ensures own { IfErr result (λ e. e ≡ Damaged → IsForeign (Tells (D.bytes device.old)) schema.now generation → ⊥) }
    ensures foreign { IfErr result (λ e. e ≡ Kind → IsForeign (MayHold (D.bytes device.old)) schema.now generation) }
    ensures device { IfErr result (λ e. e ≡ Device → D.can_fail device.old) }
    ensures frame { OnlyReads D.bytes D.may_leave D.can_fail device.old device.new }
    ensures counted { CountsOpening (D.fault_count device.old) (D.fault_count device.new) result }
{
    let restored = read_commit(alloc, device, schema, generation)?;
    // What is kept is to last before anything goes, and what is gone is not to come back under a number that is given out anew.
    sync_needed(device, &restored.commit)?;
    Ok(restored)
}

/// The state at the commit that was read. Nobody uses a name before, and the numbers are those that are taken next, but that of
/// a segment may be less than the commit's.
fn state_at(
    alloc: Global,
    schema: Schema,
    restored: Restored,
    refs: FileRefs,
    next: (SegNo, Generation),
) -> Result<Core, AllocError>
    requires restored { (told : ToldFiles) × IsRestored (MayHold told) schema restored.commit.generation restored }
    requires unused { (q : Name) → users_of refs q ≡ 0 }
    requires known { KnownArePast refs next.0 next.1 }
    requires numbers { (0 < next.0) × IsTaken next.1 restored.commit.generation }
    requires left { (next.0 ≤ last_number + 1) × (next.1 ≤ last_number + 1) }
    ensures ok { IfOk result (IsStateAt schema restored next.0 next.1) }
    ensures known { IfOk result (λ s. (q : Name) → is_known refs q ≡ true → is_known s.users q ≡ true) }
{
    let next_segment = next.0.max(restored.commit.next_segment);
    Core::opened(alloc, schema, restored, refs, next_segment, next.1)
}

/// The state at the commit of the generation, whose files last then. Nobody uses a name before, and the numbers are those that
/// are taken next, but that of a segment may be less than the commit's.
fn open_at<D: Directory + Shelf>(
    alloc: Global,
    device: &mut D,
    schema: Schema,
    refs: FileRefs,
    next: (SegNo, Generation),
    generation: Generation,
) -> Result<Core, Refusal>
    requires unused { (q : Name) → users_of refs q ≡ 0 }
    requires known { KnownArePast refs next.0 next.1 }
    requires numbers { (0 < next.0) × IsTaken next.1 generation }
    requires left { (next.0 ≤ last_number + 1) × (next.1 ≤ last_number + 1) }
    ensures ok { IfOk result (IsRestoredAt (D.bytes device.old) schema generation next.0 next.1) }
    ensures known { IfOk result (λ s. (q : Name) → is_known refs q ≡ true → is_known s.users q ≡ true) }
    ensures lasts { IfOk result (λ s. (q : FileName) → 0 < users_of s.users (name_of q)
        → IsSettled (D.bytes device.old q) (D.may_leave device.new q)) }
    ensures gone { OnOk result ((q : FileName) → D.bytes device.old q ≡ Some None
        → IsSettled (D.bytes device.old q) (D.may_leave device.new q)) }
    ensures damaged { IfErr result (λ e. e ≡ Damaged → IsLostUnder (D.bytes device.old) schema generation) }
    ensures own { IfErr result (λ e. e ≡ Damaged → IsForeign (Tells (D.bytes device.old)) schema generation → ⊥) }
    ensures foreign { IfErr result (λ e. e ≡ Kind → IsForeign (MayHold (D.bytes device.old)) schema generation) }
    ensures device { IfErr result (λ e. e ≡ Device → D.can_fail device.old) }
    ensures frame { OnlyReads D.bytes D.may_leave D.can_fail device.old device.new }
    ensures counted { CountsOpening (D.fault_count device.old) (D.fault_count device.new) result }
{
    let restored = read_synced(alloc, device, &schema, generation)?;
    Ok(state_at(alloc, schema, restored, refs, next)?)
}

/// The state where no commit is. Nobody uses a name, and the numbers are those that are taken next.
fn open_empty<D: Directory>(
    alloc: Global,
    device: &mut D,
    schema: Schema,
    refs: FileRefs,
    next: (SegNo, Generation),
) -> Result<Core, Refusal>
    requires counted { IsCountedEmpty refs next.0 next.1 }
    requires known { KnownArePast refs next.0 next.1 }
    ensures ok { IfOk result (λ s. s ≡ empty_at schema refs next.0 next.1) }
    ensures gone { OnOk result ((q : FileName) → D.bytes device.old q ≡ Some None
        → IsSettled (D.bytes device.old q) (D.may_leave device.new q)) }
    ensures fails { FailsWriting D.can_fail D.fault_count device.old device.new result }
    ensures frame { OnlyReads D.bytes D.may_leave D.can_fail device.old device.new }
{
    device.sync(&[])?;
    Ok(Core::empty(alloc, schema, refs, next.0, next.1)?)
}

/// The state at the newest commit of the directory, or of an empty catalogue where there is none, under this schema: the
/// commit's segments stand, a view of them is recorded, and it is the only commit. Nobody holds a view, and nothing is in the
/// buffer. The next numbers lie above all those in names of files. (Lucene: the constructor of `IndexWriter` with
/// `OpenMode.CREATE_OR_APPEND`, and that of its `IndexFileDeleter`.)
///
/// No file is changed. Those that the commit doesn't need are pending: [`Core::sweep`] deletes them, which is left to the
/// caller. What the commit needs, and that absent files are absent, outlasts a loss of power then.
///
/// [`Refusal::Kind`] where the commit has another schema, [`Refusal::Damaged`] where its files don't hold it,
/// [`Refusal::Device`] where the directory fails, or [`Refusal::Memory`].
pub fn open<D: Directory + Shelf>(
    alloc: Global,
    device: &mut D,
    schema: Schema,
) -> Result<Core, Refusal>
    ensures ok { IfOk result (HasOpened (D.bytes device.old) schema (D.bytes device.new)) }
    ensures lasts { IfOk result (λ s. (q : FileName) → 0 < users_of s.users (name_of q)
        → IsSettled (D.bytes device.old q) (D.may_leave device.new q)) }
    ensures gone { OnOk result ((q : FileName) → D.bytes device.old q ≡ Some None
        → IsSettled (D.bytes device.old q) (D.may_leave device.new q)) }
    ensures damaged { IfErr result (λ e. e ≡ Damaged → IsNewestDamaged (D.bytes device.old) schema) }
    ensures foreign { IfErr result (λ e. e ≡ Kind → IsNewestForeign (D.bytes device.old) schema) }
    ensures device { IfErr result (λ e. e ≡ Device → D.can_fail device.old) }
    ensures frame { OnlyReads D.bytes D.may_leave D.can_fail device.old device.new }
    ensures counted { CountsOpening (D.fault_count device.old) (D.fault_count device.new) result }
{
    let Found { refs, next, newest } = find(alloc, device)?;
    match newest {
        Some(generation) => open_at(alloc, device, schema, refs, next, generation),
        None => open_empty(alloc, device, schema, refs, next),
    }
}
