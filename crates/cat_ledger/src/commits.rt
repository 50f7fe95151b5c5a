//! Commits and snapshots.
//!
//! Lucene's `IndexWriter.commit` with `setLiveCommitData`, under a `SnapshotDeletionPolicy` over a `KeepOnlyLastCommitDeletionPolicy`.
ghost use Rattle.cat_directory.specs.Frames.{CountsFailures};
ghost use Rattle.cat_ledger_laws.specs.lines.LineLaws.{Commits};
ghost use Rattle.cat_base.specs.declared.refusal.Refusal.TheVariants.{Device, Memory, Spent};
ghost use Rattle.cat_ledger.specs.Answering.{AnswersSaid, number_reply};
ghost use Rattle.cat_ledger.specs.Histories.{GoesBy, GoesOn, MayHaveTried, SparesOtherCommits};
ghost use Rattle.cat_ledger.specs.Lasting.{IsCarried, IsLasting, OwnComesLast};
ghost use Rattle.cat_ledger.specs.Ledgers.{Spares, device_in, policy_in, shape_in};
ghost use Rattle.cat_ledger.specs.Refusals.{KeepsMerge};
ghost use Rattle.std.specs.Prelude.{Err, IfErr, IfOk, Ok, OnErr, OnOk, Some, ℕ, ◌<◌, ◌≡◌, ◌≤◌, ◌⊎◌};
ghost use Rattle.cat_directory.specs.declared.name.FileName.{FileName};
ghost use Rattle.cat_model.specs.Lines.{Said};
ghost use Rattle.cat_model.specs.Forms.{IsCommitText};
ghost use Rattle.cat_ledger_laws.specs.model.Replies.{IsLeft};
ghost use Rattle.cat_ledger_laws.specs.model.Ledger.{IsNew};
ghost use Rattle.cat_ledger_laws.specs.shape.Ties.{Makes};
ghost use Rattle.cat_ledger_state.specs.Cores.{MayNotFlush};
ghost use Rattle.cat_directory.specs.Devices.{CountsOne, NoMore};
ghost use Rattle.cat_model.specs.Heard.{commit_text_of};
ghost use Rattle.cat_model.specs.Limits.{last_number, snapshot_limit};
ghost use Rattle.cat_directory.specs.Names.{name_of};
ghost use Rattle.cat_ledger_laws.specs.shape.Steps.{newest_generation};
ghost use Rattle.cat_model.specs.State.{snapshots_in};

use crate::ledger::Ledger;
use crate::room::flush;
use cat_base::{Generation, LAST_NUMBER, Refusal};
use cat_directory::{Directory, Shelf};
use cat_ledger_state::{Core, judge_commit_text, needed_are_synced};

/// Flushes what waits, and then keeps a commit of now. A generation is left for it.
fn flush_and_commit<D: Directory>(
    core: &mut Core,
    device: &mut D,
    text: &str,
) -> Result<Generation, Refusal>
    requires text { IsCommitText text.now }
    requires left { core.old.next_generation ≤ last_number }
    ensures number { IfOk result (λ g. g ≡ core.old.next_generation) }
    ensures ok { OnOk result (Makes (Commits text.now) (D.bytes device.old) core.old (D.bytes device.new) core.new) }
    ensures err { OnErr result (Makes IsLeft (D.bytes device.old) core.old (D.bytes device.new) core.new) }
    ensures stays { OnErr result (KeepsMerge core.old core.new) }
    ensures crash { (q : FileName) → (IsNew core.old.next_segment core.old.next_generation (name_of q) → ⊥)
        → NoMore (D.may_leave device.old q) (D.may_leave device.new q) }
    ensures commits { SparesOtherCommits core.old.next_generation (D.may_leave device.old) (D.may_leave device.new) }
    ensures order { OwnComesLast (D.bytes device.old) (D.may_leave device.old) core.old
        (D.bytes device.new) (D.may_leave device.new) core.new.leaves }
    ensures newest { IfOk result (λ g. newest_generation core.new.commits ≡ Some g) }
    ensures next { OnOk result (core.old.next_generation < core.new.next_generation) }
    ensures tried { OnErr result (MayHaveTried D.bytes D.may_leave text.now device.old core.old device.new core.new) }
    ensures lasts { OnOk result (IsLasting D.bytes D.may_leave device.old core.old
        → IsLasting D.bytes D.may_leave device.new core.new) }
    ensures spent { IfErr result (λ e. e ≡ Spent → MayNotFlush core.old) }
    ensures due { IfErr result (λ e. (e ≡ Memory) ⊎ (e ≡ Device) → MayNotFlush core.old → ⊥) }
    ensures device { IsCarried (D.bytes device.old) core.old → IfErr result (λ e. e ≡ Device → D.can_fail device.old) }
    ensures counted { IfErr result (λ e. e ≡ Device → CountsOne (D.fault_count device.old) (D.fault_count device.new)) }
    ensures memory { IfErr result (λ e. e ≡ Memory → D.fault_count device.new ≡ D.fault_count device.old) }
    ensures can { D.can_fail device.new → D.can_fail device.old }
    ensures rises { D.fault_count device.old ≤ D.fault_count device.new }
    ensures refusal { IfErr result (λ e. (e ≡ Memory) ⊎ (e ≡ Device) ⊎ (e ≡ Spent)) }
{
    needed_are_synced();
    if let Err(refusal) = flush(core, device) {
        return Err(refusal);
    }
    // Its contract says that what stands is a ledger's.
    let _count = core.count();
    match core.commit(device, text) {
        Ok(generation) => Ok(generation),
        Err(refusal) => Err(refusal),
    }
}

impl<D: Directory + Shelf> Ledger<D> {
    /// Keeps a commit of now with this text, and answers its generation. What waits is flushed first. All that the commit needs lasts
    /// then; its own file is begun once all that it lists does. The newest commit and those with snapshots are kept; the files of others are pending where nobody else needs them.
    /// (Lucene: `IndexWriter.commit`, after `setLiveCommitData`.)
    ///
    /// The first of these that is due comes: [`Refusal::Large`] where the text has more than 256 bytes, [`Refusal::Kind`] where it
    /// has a control character; [`Refusal::Spent`] where no generation is left, and nothing is done then; [`Refusal::Spent`] where
    /// no number is left for the segment of what waits, or as many stand as may; else [`Refusal::Device`] where the directory
    /// fails, or [`Refusal::Memory`], where it counted no failure. A flush that ended stays done, names that were begun are
    /// pending, and a generation whose file was begun isn't given out again. A merge in the making goes on.
    pub fn commit(&mut self, text: &str) -> Result<Generation, Refusal>
        ensures answers { (session : ℕ) → AnswersSaid D.bytes session (Said.commit text.now) self.old (number_reply result) self.new }
        ensures wrong { IfErr (commit_text_of text.now) (λ e. (result ≡ Err e) × (self.new ≡ self.old)) }
        ensures none { commit_text_of text.now ≡ Ok text.now → last_number < (shape_in self.old).next_generation
            → (result ≡ Err Spent) × (self.new ≡ self.old) }
        ensures spent { commit_text_of text.now ≡ Ok text.now → IfErr result (λ e. e ≡ Spent
            → (last_number < (shape_in self.old).next_generation) ⊎ MayNotFlush (shape_in self.old)) }
        ensures due { IfErr result (λ e. (e ≡ Memory) ⊎ (e ≡ Device) → MayNotFlush (shape_in self.old) → ⊥) }
        ensures stays { OnErr result (KeepsMerge (shape_in self.old) (shape_in self.new)) }
        ensures crash { Spares D.may_leave self.old self.new }
        ensures order { OwnComesLast (D.bytes (device_in self.old)) (D.may_leave (device_in self.old)) (shape_in self.old)
            (D.bytes (device_in self.new)) (D.may_leave (device_in self.new)) (shape_in self.new).leaves }
        ensures fails { CountsFailures D.can_fail D.fault_count (device_in self.old) (device_in self.new) result }
        ensures history { GoesBy D.bytes D.may_leave (Some (Said.commit text.now)) (number_reply result) self.old self.new }
        ensures policy { policy_in self.new ≡ policy_in self.old }
    {
        if let Err(refusal) = judge_commit_text(text) {
            return Err(refusal);
        }
        if self.core.next_generation() > LAST_NUMBER {
            return Err(Refusal::Spent);
        }
        flush_and_commit(&mut self.core, &mut self.device, text)
    }

    /// Takes a snapshot of the newest commit, and answers its generation: it is kept until as many were given back as were taken.
    /// (Lucene: `SnapshotDeletionPolicy.snapshot`.)
    ///
    /// [`Refusal::NoCommit`] where no commit is kept, [`Refusal::Spent`] where the newest has 65,535 snapshots; else
    /// [`Refusal::Memory`]. An error changes nothing.
    pub fn snapshot(&mut self) -> Result<Generation, Refusal>
        ensures answers { (session : ℕ) → AnswersSaid D.bytes session Said.snapshot self.old (number_reply result) self.new }
        ensures due { IfErr result (λ e. e ≡ Memory → (g : ℕ) × (newest_generation (shape_in self.old).commits ≡ Some g)
            × (snapshots_in (shape_in self.old).taken g < snapshot_limit)) }
        ensures err { OnErr result (self.new ≡ self.old) }
        ensures same { device_in self.new ≡ device_in self.old }
        ensures goes { GoesOn D.bytes D.may_leave self.old self.new }
    {
        self.core.snapshot()
    }

    /// Gives a snapshot of the commit back, and answers how many it has left. Where that was the last one, and another commit is the
    /// newest, the commit goes, and its files are pending where nobody else needs them. (Lucene:
    /// `SnapshotDeletionPolicy.release`.)
    ///
    /// [`Refusal::NoSnapshot`] where it has none; else [`Refusal::Memory`]. An error changes nothing.
    pub fn unsnapshot(&mut self, generation: Generation) -> Result<u32, Refusal>
        ensures answers { (session : ℕ) → AnswersSaid D.bytes session (Said.release_snapshot generation) self.old (number_reply result) self.new }
        ensures due { IfErr result (λ e. e ≡ Memory → 0 < snapshots_in (shape_in self.old).taken generation) }
        ensures err { OnErr result (self.new ≡ self.old) }
        ensures same { device_in self.new ≡ device_in self.old }
        ensures goes { GoesOn D.bytes D.may_leave self.old self.new }
    {
        let left = self.core.unsnapshot(generation)?;
        Ok(left)
    }
}
