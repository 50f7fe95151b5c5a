//! Merges, step by step: of the segments that the policy picks, or of all.
//!
//! Lucene's `IndexWriter.maybeMerge` with a `LogDocMergePolicy`, and `forceMerge(1)`; there a scheduler's threads run a merge whole.
ghost use Rattle.cat_directory.specs.Frames.{CountsFailures};
ghost use Rattle.std.specs.Prelude.{◌≡◌, ◌≢◌, ◌⊎◌, ◌<◌, ◌≤◌, None, IfOk, IfErr, OnErr};
ghost use Rattle.cat_base.specs.declared.refusal.Refusal.TheVariants.{Memory, Device, Damaged, Spent};
ghost use Rattle.cat_model.specs.Limits.{last_number};
ghost use Rattle.cat_model.specs.Run.{Chore};
ghost use Rattle.cat_ledger_laws.specs.model.Replies.{Maintains, IsLeft};
ghost use Rattle.cat_ledger_state.specs.Cores.{HasRowsLeft, LacksInput, LacksToCopy, MayCopy};
ghost use Rattle.cat_ledger.specs.upkeep.Due.{IsForceDue, IsMergeDue};
ghost use Rattle.cat_ledger.specs.upkeep.News.{news_of};
ghost use Rattle.cat_ledger.specs.Histories.{GoesOn};
ghost use Rattle.cat_ledger.specs.Ledgers.{DoesCall, Spares, device_in, policy_in, shape_in};
ghost use Rattle.cat_ledger.specs.Refusals.{HasUntoldInput, KeepsMerge, KeepsSegments};

use crate::ledger::Ledger;
use crate::upkeep::MergeNews;
use cat_base::Refusal;
use cat_directory::{Directory, Shelf};

impl<D: Directory + Shelf> Ledger<D> {
    /// Takes a step of maintenance: begins the merge that the policy picks, if it picks one; or passes 256 rows more of the one in
    /// the making; or, once all are passed, puts its segment in the place of those that it took. (Lucene:
    /// `IndexWriter.maybeMerge`, there to the end.)
    ///
    /// [`Refusal::Spent`] where a merge is to be begun and no number is left for its segment; [`Refusal::Damaged`] where a text
    /// that is to be copied isn't in the file of its segment; [`Refusal::Device`] where the directory fails; or
    /// [`Refusal::Memory`], where the directory counted no failure, which may come before it is known whether the policy picks any
    /// segments, and never hides that such a text isn't in its file. A merge in the making is over then, and its files are
    /// pending; nothing is flushed.
    pub fn merge_step(&mut self) -> Result<MergeNews, Refusal>
        ensures ok { IfOk result (λ news. DoesCall D.bytes (Maintains (policy_in self.old) Chore.merge (news_of news)) self.old self.new) }
        ensures err { OnErr result (DoesCall D.bytes IsLeft self.old self.new) }
        ensures segments { OnErr result (KeepsSegments (shape_in self.old) (shape_in self.new)) }
        ensures crash { Spares D.may_leave self.old self.new }
        ensures spent { IfErr result (λ e. e ≡ Spent → IsMergeDue (policy_in self.old) (shape_in self.old)
            × (last_number < (shape_in self.old).next_segment)) }
        ensures left { IfErr result (λ e. (e ≡ Device) ⊎ (e ≡ Damaged) → ((shape_in self.old).merging ≢ None)
            ⊎ (IsMergeDue (policy_in self.old) (shape_in self.old) × ((shape_in self.old).next_segment ≤ last_number))) }
        ensures damaged { IfErr result (λ e. e ≡ Damaged → HasRowsLeft (shape_in self.old).merging) }
        ensures lacking { IfErr result (λ e. e ≡ Damaged → LacksToCopy (D.bytes (device_in self.old)) (shape_in self.old).merging) }
        ensures short { IfErr result (λ e. e ≡ Damaged → LacksInput (D.bytes (device_in self.old)) (shape_in self.old).merging) }
        ensures untold { IfErr result (λ e. e ≡ Damaged → HasUntoldInput (D.bytes (device_in self.old)) (shape_in self.old).merging) }
        ensures reach { IfErr result (λ e. e ≡ Memory → MayCopy (D.bytes (device_in self.old)) (shape_in self.old).merging) }
        ensures fails { CountsFailures D.can_fail D.fault_count (device_in self.old) (device_in self.new) result }
        ensures goes { GoesOn D.bytes D.may_leave self.old self.new }
        ensures refusal { IfErr result (λ e. (e ≡ Memory) ⊎ (e ≡ Device) ⊎ (e ≡ Damaged) ⊎ (e ≡ Spent)) }
    {
        crate::upkeep::merge_step(&mut self.core, &mut self.device, self.alloc, self.policy)
    }

    /// Begins a merge of all segments into one, where none is in the making, that is of some use, and one segment can hold
    /// their rows. What waits is no segment yet. (Lucene: `IndexWriter.forceMerge(1)`, there to the end.)
    ///
    /// It is [`MergeNews::Busy`] where a merge is in the making, whatever else stands, and [`MergeNews::Idle`] where no
    /// segment stands, one alone without a deleted row, or those that stand have more than 262,144 rows together.
    ///
    /// [`Refusal::Spent`] where no number is left for the new segment; else [`Refusal::Device`], or [`Refusal::Memory`], where
    /// the directory counted no failure. An error leaves at most names that are pending.
    pub fn force(&mut self) -> Result<MergeNews, Refusal>
        ensures ok { IfOk result (λ news. DoesCall D.bytes (Maintains (policy_in self.old) Chore.force (news_of news)) self.old self.new) }
        ensures err { OnErr result (DoesCall D.bytes IsLeft self.old self.new) }
        ensures stays { OnErr result (KeepsMerge (shape_in self.old) (shape_in self.new)) }
        ensures segments { OnErr result (KeepsSegments (shape_in self.old) (shape_in self.new)) }
        ensures crash { Spares D.may_leave self.old self.new }
        ensures due { OnErr result (IsForceDue (shape_in self.old)) }
        ensures spent { IfErr result (λ e. e ≡ Spent → last_number < (shape_in self.old).next_segment) }
        ensures left { IfErr result (λ e. (e ≡ Memory) ⊎ (e ≡ Device) → (shape_in self.old).next_segment ≤ last_number) }
        ensures fails { CountsFailures D.can_fail D.fault_count (device_in self.old) (device_in self.new) result }
        ensures goes { GoesOn D.bytes D.may_leave self.old self.new }
        ensures refusal { IfErr result (λ e. (e ≡ Memory) ⊎ (e ≡ Device) ⊎ (e ≡ Spent)) }
    {
        crate::upkeep::force(&mut self.core, &mut self.device)
    }
}
