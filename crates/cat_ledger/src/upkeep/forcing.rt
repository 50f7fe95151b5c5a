//! A merge of all segments into one.
//!
//! Lucene's `IndexWriter.forceMerge(1)`, which runs it to the end.
ghost use Rattle.cat_directory.specs.Frames.{CountsFailures};
ghost use Rattle.std.specs.Prelude.{◌≡◌, ◌⊎◌, ◌<◌, ◌≤◌, None, IfOk, IfErr, OnErr};
ghost use Rattle.cat_base.specs.declared.refusal.Refusal.TheVariants.{Memory, Device, Spent};
ghost use Rattle.cat_model.specs.Limits.{last_number};
ghost use Rattle.cat_model.specs.Run.{Chore};
ghost use Rattle.cat_directory.specs.Devices.{NoMore};
ghost use Rattle.cat_directory.specs.Names.{name_of};
ghost use Rattle.cat_directory.specs.declared.name.FileName.{FileName};
ghost use Rattle.cat_ledger_laws.specs.model.Ledger.{IsNew};
ghost use Rattle.cat_ledger_laws.specs.model.Plans as plans;
ghost use Rattle.cat_ledger_laws.specs.model.Replies.{Maintains, IsLeft};
ghost use Rattle.cat_ledger_laws.specs.shape.Ties.{Makes};
ghost use Rattle.cat_ledger.specs.Refusals.{KeepsMerge, KeepsSegments};
ghost use Rattle.cat_ledger.specs.upkeep.Due.{IsForceDue};
ghost use Rattle.cat_ledger.specs.upkeep.News.{news_of};
ghost use Rattle.cat_ledger.specs.upkeep.Spared.{SparesCommits};

use crate::upkeep::due::may_be_forced;
use crate::upkeep::news::MergeNews;
use cat_base::Refusal;
use cat_directory::{Directory, FileName};
use cat_ledger_state::Core;

/// Begins the merge of all segments, where that is of some use. No merge is in the making.
fn begin_all<D: Directory>(core: &mut Core, device: &mut D) -> Result<MergeNews, Refusal>
    requires { core.old.merging ≡ None }
    ensures ok { IfOk result (λ news. (policy : plans.MergePolicy) → Makes (Maintains policy Chore.force (news_of news))
        (D.bytes device.old) core.old (D.bytes device.new) core.new) }
    ensures err { OnErr result (Makes IsLeft (D.bytes device.old) core.old (D.bytes device.new) core.new) }
    ensures stays { OnErr result (KeepsMerge core.old core.new) }
    ensures segments { OnErr result (KeepsSegments core.old core.new) }
    ensures crash { (q : FileName) → (IsNew core.old.next_segment core.old.next_generation (name_of q) → ⊥)
        → NoMore (D.may_leave device.old q) (D.may_leave device.new q) }
    ensures commits { SparesCommits (D.may_leave device.old) (D.may_leave device.new) }
    ensures due { OnErr result (IsForceDue core.old) }
    ensures spent { IfErr result (λ e. e ≡ Spent → last_number < core.old.next_segment) }
    ensures left { IfErr result (λ e. (e ≡ Memory) ⊎ (e ≡ Device) → core.old.next_segment ≤ last_number) }
    ensures fails { CountsFailures D.can_fail D.fault_count device.old device.new result }
    ensures refusal { IfErr result (λ e. (e ≡ Memory) ⊎ (e ≡ Device) ⊎ (e ≡ Spent)) }
{
    if !may_be_forced(core.leaves()) {
        return Ok(MergeNews::Idle);
    }
    let count = core.leaves().len();
    if let Err(refusal) = core.begin_merge(device, 0, count) {
        return Err(refusal);
    }
    Ok(MergeNews::Begun(count))
}

/// Begins a merge of all segments into one, where none is in the making, that is of some use, and one segment can hold
/// their rows. What waits is no segment yet. (Lucene: `IndexWriter.forceMerge(1)`, there to the end.)
///
/// It is [`MergeNews::Busy`] where a merge is in the making, whatever else stands, and [`MergeNews::Idle`] where no
/// segment stands, one alone without a deleted row, or those that stand have more than 262,144 rows together.
///
/// [`Refusal::Spent`] where no number is left for the new segment; else [`Refusal::Device`], or [`Refusal::Memory`]. An
/// error leaves at most names that are pending.
pub fn force<D: Directory>(core: &mut Core, device: &mut D) -> Result<MergeNews, Refusal>
    ensures ok { IfOk result (λ news. (policy : plans.MergePolicy) → Makes (Maintains policy Chore.force (news_of news))
        (D.bytes device.old) core.old (D.bytes device.new) core.new) }
    ensures err { OnErr result (Makes IsLeft (D.bytes device.old) core.old (D.bytes device.new) core.new) }
    ensures stays { OnErr result (KeepsMerge core.old core.new) }
    ensures segments { OnErr result (KeepsSegments core.old core.new) }
    ensures crash { (q : FileName) → (IsNew core.old.next_segment core.old.next_generation (name_of q) → ⊥)
        → NoMore (D.may_leave device.old q) (D.may_leave device.new q) }
    ensures commits { SparesCommits (D.may_leave device.old) (D.may_leave device.new) }
    ensures due { OnErr result (IsForceDue core.old) }
    ensures spent { IfErr result (λ e. e ≡ Spent → last_number < core.old.next_segment) }
    ensures left { IfErr result (λ e. (e ≡ Memory) ⊎ (e ≡ Device) → core.old.next_segment ≤ last_number) }
    ensures fails { CountsFailures D.can_fail D.fault_count device.old device.new result }
    ensures refusal { IfErr result (λ e. (e ≡ Memory) ⊎ (e ≡ Device) ⊎ (e ≡ Spent)) }
{
    if core.is_merging() {
        return Ok(MergeNews::Busy);
    }
    begin_all(core, device)
}
