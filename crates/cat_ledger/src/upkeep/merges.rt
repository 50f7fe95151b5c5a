//! Merges of the segments that the policy picks, step by step.
//!
//! Lucene's `IndexWriter.maybeMerge` with a `LogDocMergePolicy`; there a scheduler's threads run a merge whole.
ghost use Rattle.cat_directory.specs.Frames.{CountsFailures};
ghost use Rattle.std.specs.Prelude.{◌≡◌, ◌≢◌, ◌⊎◌, ◌<◌, ◌≤◌, is_some, Some, None, IfOk, IfErr, OnOk, OnErr, IsTrue};
ghost use Rattle.cat_base.specs.declared.refusal.Refusal.TheVariants.{Memory, Device, Damaged, Spent};
ghost use Rattle.cat_model.specs.Limits.{last_number};
ghost use Rattle.cat_model.specs.Run.{Chore, News};
ghost use Rattle.cat_model.specs.Window.{IsWindow};
ghost use Rattle.cat_directory.specs.Devices.{NoMore};
ghost use Rattle.cat_directory.specs.Names.{name_of};
ghost use Rattle.cat_directory.specs.declared.name.FileName.{FileName};
ghost use Rattle.cat_ledger_laws.specs.model.Ledger.{IsNew};
ghost use Rattle.cat_ledger_laws.specs.model.Plans as plans;
ghost use Rattle.cat_ledger_laws.specs.model.Replies.{Maintains, IsLeft};
ghost use Rattle.cat_ledger_laws.specs.shape.Ties.{Makes};
ghost use Rattle.cat_ledger_state.specs.Cores.{HasRowsLeft, LacksInput, LacksOwn, LacksToCopy, MayCopy};
ghost use Rattle.cat_ledger_state.specs.Installs.{IsOfMerge};
ghost use Rattle.cat_ledger_laws.specs.lines.PlanLaws.{sizes_in};
ghost use Rattle.cat_ledger.specs.Refusals.{KeepsSegments};
ghost use Rattle.cat_ledger.specs.upkeep.Due.{IsMergeDue};
ghost use Rattle.cat_ledger.specs.upkeep.News.{news_of};
ghost use Rattle.cat_ledger.specs.upkeep.Spared.{SparesCommits};

use crate::upkeep::due::window_of;
use crate::upkeep::news::MergeNews;
use crate::upkeep::policy::MergePolicy;
use cat_base::Refusal;
use cat_directory::{Directory, FileName, Shelf};
use cat_ledger_state::Core;
use std::alloc::{AllocError, Global};

/// Begins the merge of the segments from this index on, which the policy picks. No merge is in the making.
fn begin_at<D: Directory>(
    core: &mut Core,
    device: &mut D,
    policy: MergePolicy,
    index: usize,
) -> Result<MergeNews, Refusal>
    requires idle { core.old.merging ≡ None }
    requires window { IsWindow policy.factor policy.least (sizes_in core.old.leaves) (Some index) }
    ensures ok { IfOk result (λ news. Makes (Maintains policy Chore.merge (news_of news))
        (D.bytes device.old) core.old (D.bytes device.new) core.new) }
    ensures err { OnErr result (Makes IsLeft (D.bytes device.old) core.old (D.bytes device.new) core.new) }
    ensures segments { OnErr result (KeepsSegments core.old core.new) }
    ensures crash { (q : FileName) → (IsNew core.old.next_segment core.old.next_generation (name_of q) → ⊥)
        → NoMore (D.may_leave device.old q) (D.may_leave device.new q) }
    ensures commits { SparesCommits (D.may_leave device.old) (D.may_leave device.new) }
    ensures spent { IfErr result (λ e. e ≡ Spent → last_number < core.old.next_segment) }
    ensures left { IfErr result (λ e. (e ≡ Memory) ⊎ (e ≡ Device) → core.old.next_segment ≤ last_number) }
    ensures fails { CountsFailures D.can_fail D.fault_count device.old device.new result }
    ensures refusal { IfErr result (λ e. (e ≡ Memory) ⊎ (e ≡ Device) ⊎ (e ≡ Spent)) }
{
    let count = policy.factor() as usize;
    if let Err(refusal) = core.begin_merge(device, index, count) {
        return Err(refusal);
    }
    Ok(MergeNews::Begun(count))
}

/// Begins the merge of the segments that the policy picks, if it picks some. No merge is in the making.
fn begin_window<D: Directory>(
    core: &mut Core,
    device: &mut D,
    alloc: Global,
    policy: MergePolicy,
) -> Result<MergeNews, Refusal>
    requires { core.old.merging ≡ None }
    ensures ok { IfOk result (λ news. Makes (Maintains policy Chore.merge (news_of news))
        (D.bytes device.old) core.old (D.bytes device.new) core.new) }
    ensures err { OnErr result (Makes IsLeft (D.bytes device.old) core.old (D.bytes device.new) core.new) }
    ensures segments { OnErr result (KeepsSegments core.old core.new) }
    ensures crash { (q : FileName) → (IsNew core.old.next_segment core.old.next_generation (name_of q) → ⊥)
        → NoMore (D.may_leave device.old q) (D.may_leave device.new q) }
    ensures commits { SparesCommits (D.may_leave device.old) (D.may_leave device.new) }
    ensures due { IfErr result (λ e. e ≢ Memory → IsMergeDue policy core.old) }
    ensures spent { IfErr result (λ e. e ≡ Spent → last_number < core.old.next_segment) }
    ensures left { IfErr result (λ e. e ≡ Device → core.old.next_segment ≤ last_number) }
    ensures fails { CountsFailures D.can_fail D.fault_count device.old device.new result }
    ensures refusal { IfErr result (λ e. (e ≡ Memory) ⊎ (e ≡ Device) ⊎ (e ≡ Spent)) }
{
    match window_of(alloc, core.leaves(), policy) {
        Ok(Some(index)) => begin_at(core, device, policy, index),
        Ok(None) => Ok(MergeNews::Idle),
        Err(AllocError) => Err(Refusal::Memory),
    }
}

/// Passes a step's rows of the merge in the making, which has some left, and answers how many are passed in all.
fn copy<D: Directory + Shelf>(core: &mut Core, device: &mut D) -> Result<usize, Refusal>
    requires { HasRowsLeft core.old.merging }
    ensures ok { IfOk result (λ passed. (policy : plans.MergePolicy) → Makes (Maintains policy Chore.merge (News.copied passed))
        (D.bytes device.old) core.old (D.bytes device.new) core.new) }
    ensures err { OnErr result (Makes IsLeft (D.bytes device.old) core.old (D.bytes device.new) core.new) }
    ensures segments { OnErr result (KeepsSegments core.old core.new) }
    ensures crash { (q : FileName) → (IsOfMerge core.old.merging q → ⊥) → NoMore (D.may_leave device.old q) (D.may_leave device.new q) }
    ensures commits { SparesCommits (D.may_leave device.old) (D.may_leave device.new) }
    ensures lacking { IfErr result (λ e. e ≡ Damaged → LacksToCopy (D.bytes device.old) core.old.merging) }
    ensures short { IfErr result (λ e. e ≡ Damaged → LacksInput (D.bytes device.old) core.old.merging) }
    ensures fails { CountsFailures (λ d. D.can_fail d ⊎ LacksOwn (D.bytes device.old) core.old.merging) D.fault_count device.old device.new result }
    ensures reach { IfErr result (λ e. e ≡ Memory → MayCopy (D.bytes device.old) core.old.merging) }
    ensures can { D.can_fail device.new → D.can_fail device.old }
    ensures refusal { IfErr result (λ e. (e ≡ Memory) ⊎ (e ≡ Device) ⊎ (e ≡ Damaged)) }
{
    if let Err(refusal) = core.copy_rows(device) {
        return Err(refusal);
    }
    let Some(passed) = core.rows_passed() else {
        unreachable!();
    };
    Ok(passed)
}

/// Puts the segment of the merge in the making, which has passed all rows, in the place of those that it took.
fn finish<D: Directory>(core: &mut Core, device: &mut D) -> Result<(), Refusal>
    requires some { IsTrue (is_some core.old.merging) }
    requires all { HasRowsLeft core.old.merging → ⊥ }
    ensures ok { OnOk result ((policy : plans.MergePolicy) → Makes (Maintains policy Chore.merge News.done)
        (D.bytes device.old) core.old (D.bytes device.new) core.new) }
    ensures err { OnErr result (Makes IsLeft (D.bytes device.old) core.old (D.bytes device.new) core.new) }
    ensures segments { OnErr result (KeepsSegments core.old core.new) }
    ensures crash { (q : FileName) → (IsOfMerge core.old.merging q → ⊥) → NoMore (D.may_leave device.old q) (D.may_leave device.new q) }
    ensures commits { SparesCommits (D.may_leave device.old) (D.may_leave device.new) }
    ensures fails { CountsFailures D.can_fail D.fault_count device.old device.new result }
    ensures refusal { IfErr result (λ e. (e ≡ Memory) ⊎ (e ≡ Device)) }
{
    // Its contract says that the merge has passed no more rows than there are.
    let _count = core.count();
    if let Err(refusal) = core.install(device) {
        return Err(refusal);
    }
    Ok(())
}

/// Takes the next step of the merge in the making.
fn go_on<D: Directory + Shelf>(core: &mut Core, device: &mut D) -> Result<MergeNews, Refusal>
    requires { IsTrue (is_some core.old.merging) }
    ensures ok { IfOk result (λ news. (policy : plans.MergePolicy) → Makes (Maintains policy Chore.merge (news_of news))
        (D.bytes device.old) core.old (D.bytes device.new) core.new) }
    ensures err { OnErr result (Makes IsLeft (D.bytes device.old) core.old (D.bytes device.new) core.new) }
    ensures segments { OnErr result (KeepsSegments core.old core.new) }
    ensures crash { (q : FileName) → (IsOfMerge core.old.merging q → ⊥) → NoMore (D.may_leave device.old q) (D.may_leave device.new q) }
    ensures commits { SparesCommits (D.may_leave device.old) (D.may_leave device.new) }
    ensures damaged { IfErr result (λ e. e ≡ Damaged → HasRowsLeft core.old.merging) }
    ensures lacking { IfErr result (λ e. e ≡ Damaged → LacksToCopy (D.bytes device.old) core.old.merging) }
    ensures short { IfErr result (λ e. e ≡ Damaged → LacksInput (D.bytes device.old) core.old.merging) }
    ensures fails { CountsFailures (λ d. D.can_fail d ⊎ LacksOwn (D.bytes device.old) core.old.merging) D.fault_count device.old device.new result }
    ensures reach { IfErr result (λ e. e ≡ Memory → MayCopy (D.bytes device.old) core.old.merging) }
    ensures can { D.can_fail device.new → D.can_fail device.old }
    ensures refusal { IfErr result (λ e. (e ≡ Memory) ⊎ (e ≡ Device) ⊎ (e ≡ Damaged)) }
{
    if core.has_rows_left() {
        return match copy(core, device) {
            Ok(passed) => Ok(MergeNews::Copied(passed)),
            Err(refusal) => Err(refusal),
        };
    }
    match finish(core, device) {
        Ok(()) => Ok(MergeNews::Done),
        Err(refusal) => Err(refusal),
    }
}

/// Takes a step of maintenance: begins the merge that the policy picks, if it picks one; or passes 256 rows more of the one in
/// the making; or, once all are passed, puts its segment in the place of those that it took. (Lucene:
/// `IndexWriter.maybeMerge`, there to the end.)
///
/// [`Refusal::Spent`] where a merge is to be begun and no number is left for its segment; [`Refusal::Damaged`] where a text
/// that is to be copied isn't in the file of its segment; [`Refusal::Device`] where the directory fails, or the file that the
/// merge copies to is absent; or [`Refusal::Memory`], which may come before it is known whether the policy picks any segments,
/// and never hides that such a text isn't in its file. A merge in the making is over then, and its files are pending.
pub fn merge_step<D: Directory + Shelf>(
    core: &mut Core,
    device: &mut D,
    alloc: Global,
    policy: MergePolicy,
) -> Result<MergeNews, Refusal>
    ensures ok { IfOk result (λ news. Makes (Maintains policy Chore.merge (news_of news))
        (D.bytes device.old) core.old (D.bytes device.new) core.new) }
    ensures err { OnErr result (Makes IsLeft (D.bytes device.old) core.old (D.bytes device.new) core.new) }
    ensures segments { OnErr result (KeepsSegments core.old core.new) }
    ensures crash { (q : FileName) → (IsNew core.old.next_segment core.old.next_generation (name_of q) → ⊥)
        → (IsOfMerge core.old.merging q → ⊥) → NoMore (D.may_leave device.old q) (D.may_leave device.new q) }
    ensures commits { SparesCommits (D.may_leave device.old) (D.may_leave device.new) }
    ensures spent { IfErr result (λ e. e ≡ Spent → IsMergeDue policy core.old × (last_number < core.old.next_segment)) }
    ensures left { IfErr result (λ e. (e ≡ Device) ⊎ (e ≡ Damaged)
        → (core.old.merging ≢ None) ⊎ (IsMergeDue policy core.old × (core.old.next_segment ≤ last_number))) }
    ensures damaged { IfErr result (λ e. e ≡ Damaged → HasRowsLeft core.old.merging) }
    ensures lacking { IfErr result (λ e. e ≡ Damaged → LacksToCopy (D.bytes device.old) core.old.merging) }
    ensures short { IfErr result (λ e. e ≡ Damaged → LacksInput (D.bytes device.old) core.old.merging) }
    ensures fails { CountsFailures (λ d. D.can_fail d ⊎ LacksOwn (D.bytes device.old) core.old.merging) D.fault_count device.old device.new result }
    ensures reach { IfErr result (λ e. e ≡ Memory → MayCopy (D.bytes device.old) core.old.merging) }
    ensures can { D.can_fail device.new → D.can_fail device.old }
    ensures refusal { IfErr result (λ e. (e ≡ Memory) ⊎ (e ≡ Device) ⊎ (e ≡ Damaged) ⊎ (e ≡ Spent)) }
{
    if core.is_merging() {
        return go_on(core, device);
    }
    begin_window(core, device, alloc, policy)
}
