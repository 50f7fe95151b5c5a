//! The merge in the making: begun, and copied step by step.
//!
//! Lucene's `IndexWriter.merge` (`mergeInit`, `mergeMiddle`). When one is due, and of which segments, is left to who asks.
ghost use Rattle.std.specs.Prelude.{◌≡◌, ◌≢◌, ◌⊎◌, ◌+◌, ◌<◌, ◌≤◌, ◌^◌, [], ◌∷◌, length, take, drop, Some, None, IfErr, OnOk, OnErr};
ghost use Rattle.cat_base.specs.declared.refusal.Refusal.TheVariants.{Damaged, Memory, Device, Spent};
ghost use Rattle.cat_model.specs.Files.{Name};
ghost use Rattle.cat_model.specs.Limits.{last_number, row_limit};
ghost use Rattle.cat_model.specs.Merged.{rows_of_all};
ghost use Rattle.cat_directory.specs.Devices.{CountsReading, NoMore};
ghost use Rattle.cat_directory.specs.Frames.{CountsFailures};
ghost use Rattle.cat_directory.specs.declared.name.FileName.{FileName};
ghost use Rattle.cat_ledger_laws.specs.model.Users.{users_of, times, Changes};
ghost use Rattle.cat_ledger_laws.specs.shape.Steps.{IsBegun};
ghost use Rattle.cat_ledger_laws.specs.shape.Ties.{IsTold, TouchesOnly};
ghost use Rattle.cat_ledger_state.specs.Cores.{HasCopied, HasEnded, HasGivenUp, HasRowsLeft, IsSourceOf, LacksInput, LacksOwn, LacksToCopy, MayCopy, StayKnown};

use crate::state::Core;
use cat_base::{LAST_NUMBER, MAX_RECORDS, Refusal, SegNo};
use cat_directory::{Directory, FileName, Shelf};
use cat_lifetimes::refs::FileRefs;
use cat_merge::files::MergeInMaking;
use std::alloc::AllocError;

/// Counts a merge as a user of its file of sources. An error changes nothing.
fn take_source(refs: &mut FileRefs, number: SegNo) -> Result<(), AllocError>
    requires { (q : Name) → users_of refs.old q + times q (Name.source number ∷ []) < 2 ^ 64 }
    ensures ok { OnOk result (Changes (Name.source number ∷ []) [] refs.old refs.new) }
    ensures err { OnErr result (refs.new ≡ refs.old) }
{
    refs.take(&[FileName::Source(number)])
}

/// Counts it no more. It takes no memory.
pub(crate) fn give_source(refs: &mut FileRefs, number: SegNo)
    requires { (q : Name) → times q (Name.source number ∷ []) ≤ users_of refs.old q }
    ensures { Changes [] (Name.source number ∷ []) refs.old refs.new }
{
    refs.give(&[FileName::Source(number)]);
}

impl Core {
    /// Begins the merge of so many segments from the one of this index on, where none is in the making (Lucene:
    /// `IndexWriter.mergeInit`). They stand in the list, and one segment can hold their rows.
    ///
    /// [`Refusal::Spent`] where no number is left for the new segment; else [`Refusal::Device`] where the directory fails, which
    /// leaves the name of its file of sources pending, or [`Refusal::Memory`], where the directory counted no failure. What was
    /// pending stays so.
    pub fn begin_merge<D: Directory>(
        &mut self,
        device: &mut D,
        index: usize,
        count: usize,
    ) -> Result<(), Refusal>
        requires idle { self.old.merging ≡ None }
        requires some { 0 < count }
        requires within { index + count ≤ length self.old.leaves }
        requires few { length (rows_of_all (take count (drop index self.old.leaves))) ≤ row_limit }
        ensures ok { OnOk result (IsBegun index count self.old self.new) }
        ensures told { OnOk result (IsTold (D.bytes device.new (FileName.Source self.old.next_segment)) (Some [])) }
        ensures others { TouchesOnly (Name.source self.old.next_segment ∷ []) (D.bytes device.old) (D.bytes device.new) }
        ensures err { OnErr result
            (HasGivenUp (Name.source self.old.next_segment ∷ []) (D.bytes device.old) self.old (D.bytes device.new) self.new) }
        ensures known { OnErr result (StayKnown self.old.users self.new.users) }
        ensures crash { (q : FileName) → q ≢ FileName.Source self.old.next_segment
            → NoMore (D.may_leave device.old q) (D.may_leave device.new q) }
        ensures spent { IfErr result (λ e. e ≡ Spent → last_number < self.old.next_segment) }
        ensures due { IfErr result (λ e. (e ≡ Memory) ⊎ (e ≡ Device) → self.old.next_segment ≤ last_number) }
        ensures fails { CountsFailures D.can_fail D.fault_count device.old device.new result }
        ensures refusal { IfErr result (λ e. (e ≡ Memory) ⊎ (e ≡ Device) ⊎ (e ≡ Spent)) }
    {
        let number = self.next_segment;
        if number > LAST_NUMBER {
            return Err(Refusal::Spent);
        }
        prove!(self.records.len() <= MAX_RECORDS);
        let window = &self.current.leaves()[index..index + count];
        let merge = MergeInMaking::of(self.alloc, &self.schema, number, index, window)?;
        take_source(&mut self.refs, number)?;
        self.next_segment = number + 1;
        match merge.begin_file(device) {
            Ok(()) => {
                self.merging = Some(merge);
                Ok(())
            }
            Err(refusal) => {
                give_source(&mut self.refs, number);
                Err(refusal)
            }
        }
    }

    /// Passes a step's rows of the merge in the making, which has some left (Lucene: `SegmentMerger.merge`).
    ///
    /// [`Refusal::Damaged`] where a source that is to be copied isn't in the file of its segment, [`Refusal::Device`] where the
    /// device fails, or the merge's own file of sources is absent, or [`Refusal::Memory`], which never hides that a source isn't
    /// in its file. Whichever comes, the merge is over, and its file of sources pending.
    pub fn copy_rows<D: Directory + Shelf>(&mut self, device: &mut D) -> Result<(), Refusal>
        requires { HasRowsLeft self.old.merging }
        ensures ok { OnOk result (HasCopied (D.bytes device.old) self.old (D.bytes device.new) self.new) }
        ensures err { OnErr result (HasEnded (D.bytes device.old) self.old (D.bytes device.new) self.new) }
        ensures lacking { IfErr result (λ e. e ≡ Damaged → LacksToCopy (D.bytes device.old) self.old.merging) }
        ensures short { IfErr result (λ e. e ≡ Damaged → LacksInput (D.bytes device.old) self.old.merging) }
        ensures due { IfErr result (λ e. e ≡ Memory → MayCopy (D.bytes device.old) self.old.merging) }
        ensures device { IfErr result (λ e. e ≡ Device → D.can_fail device.old ⊎ LacksOwn (D.bytes device.old) self.old.merging) }
        ensures crash { (q : FileName) → (IsSourceOf self.old.merging q → ⊥)
            → NoMore (D.may_leave device.old q) (D.may_leave device.new q) }
        ensures can { D.can_fail device.new → D.can_fail device.old }
        ensures rises { D.fault_count device.old ≤ D.fault_count device.new }
        ensures counted { CountsReading (D.fault_count device.old) (D.fault_count device.new) result }
    {
        let Some(mut merge) = self.merging.take() else {
            unreachable!();
        };
        match merge.copy_step(device) {
            Ok(()) => {
                self.merging = Some(merge);
                Ok(())
            }
            Err(refusal) => {
                give_source(&mut self.refs, merge.number());
                Err(refusal)
            }
        }
    }
}
