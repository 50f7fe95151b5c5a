//! A merge in the making, from the first call to the last.
ghost use Rattle.std.specs.Prelude.{◌≡◌, ◌≢◌, ◌⊎◌, ◌+◌, ◌-◌, ◌++◌, ◌∷◌, ◌↔◌, ℕ, List, [], true, false, min, Some, None, length, Any, IsTrue, OnOk, OnErr, IfOk, IfErr};
ghost use Rattle.std.specs.List.{flat_map};
ghost use Rattle.std.specs.Option.{option_to_list};
ghost use Rattle.cat_base.specs.declared.refusal.Refusal.TheVariants.{Device, Memory, Damaged};
ghost use Rattle.cat_directory.specs.Devices.{CountsReading, NoMore, emptied, told_after};
ghost use Rattle.cat_directory.specs.Frames.{FailsReading, FailsWriting, OnlyReads};
ghost use Rattle.cat_ledger_laws.specs.shape.MergeLaws.{CopiesOn};
ghost use Rattle.cat_ledger_laws.specs.shape.Steps.{passed_on};
ghost use Rattle.cat_ledger_laws.specs.shape.Ties.{IsTold, TouchesNothing, TouchesOnly};
ghost use Rattle.cat_ledger_laws.specs.model.Stored.{joined_sources};
ghost use Rattle.cat_merge.specs.Copied.{bytes_in};
ghost use Rattle.cat_merge.specs.Merging.{MayMerge};
ghost use Rattle.cat_merge.specs.Ranges.{AreWithin};
ghost use Rattle.cat_model.specs.Files.{IsFileNumber, Name};
ghost use Rattle.cat_model.specs.Limits.{step_limit};
ghost use Rattle.cat_model.specs.Merged.{AreDeletedFrom, records_kept, rows_of_all};
ghost use Rattle.cat_merge.specs.files.Making.{merged_leaves};
ghost use Rattle.cat_merge.specs.files.Sources.{AreJudged, LacksBytes, LacksSources, MayReachSources};

use crate::files::inputs::inputs_of;
use crate::files::sealing::settled_leaf;
use crate::files::sources::append_ranges;
use crate::{Merge, SourceRange};
use cat_base::{Refusal, SegNo};
use cat_directory::{Directory, FileName, Shelf};
use cat_items::Schema;
use cat_views::Leaf;
use std::alloc::{AllocError, Global};
use std::marker::Model;

/// A merge in the making: which segments it takes, under which number it makes theirs, and how far it is. (Lucene: a running
/// `MergePolicy.OneMerge` with its `SegmentMerger`.)
///
/// It writes two files, that of the sources of the new segment step by step, and at its end that of the segment. What it has
/// written of them where it is refused, or given up, is of no use.
pub struct MergeInMaking {
    alloc: Global,
    number: SegNo,
    index: usize,
    // How many segments it takes.
    count: usize,
    merge: Merge,
}

impl Model for MergeInMaking {
    ghost use Rattle.cat_merge.specs.files.Making.{InMaking, AreOneMerge};

    ghost Value = { InMaking };

    ghost view = { λ m. record {
      schema = m.merge.schema;
      shape = record { number = m.merge.number; index = m.index; inputs = m.merge.inputs; passed = m.merge.passed };
    } };

    ghost invariant = { λ m. AreOneMerge m.number m.count m.merge };
}

impl Drop for MergeInMaking {
    fn drop(self) {
        let MergeInMaking {
            alloc: _,
            number: _,
            index: _,
            count: _,
            merge,
        } = self;
        drop(merge);
    }
}

/// Passes the rows of the next step, and answers where their sources stand. Want of memory hides none that isn't in its file.
fn next_ranges<S: Shelf>(
    merge: &mut Merge,
    shelf: &mut S,
    alloc: Global,
) -> Result<Vec<SourceRange>, Refusal>
    ensures ok { OnOk result (merge.new ≡ record merge.old { passed = merge.old.passed + min step_limit (length (rows_of_all merge.old.inputs) - merge.old.passed) }) }
    ensures sources { IfOk result (λ ranges. (files : ℕ → List ℕ)
        → joined_sources (records_kept files merge.old.inputs merge.old.passed) ++ flat_map (bytes_in files) ranges.items
        ≡ joined_sources (records_kept files merge.new.inputs merge.new.passed)) }
    ensures within { IfOk result (λ ranges. AreWithin merge.old.inputs ranges.items) }
    ensures err { OnErr result (merge.new ≡ merge.old) }
    ensures damaged { IfErr result (λ e. e ≡ Damaged → AreJudged (S.bytes shelf.old) merge.old.inputs merge.old.passed
        (merge.old.passed + min step_limit (length (rows_of_all merge.old.inputs) - merge.old.passed)) true) }
    ensures due { IfErr result (λ e. e ≡ Memory → AreJudged (S.bytes shelf.old) merge.old.inputs merge.old.passed
        (merge.old.passed + min step_limit (length (rows_of_all merge.old.inputs) - merge.old.passed)) false) }
    ensures frame { OnlyReads S.bytes S.may_leave S.can_fail shelf.old shelf.new }
    ensures fails { FailsReading S.can_fail S.fault_count shelf.old shelf.new result }
{
    match merge.copy_step(alloc) {
        Ok(ranges) => Ok(ranges),
        Err(AllocError) => Err(merge.why_not_made(shelf)),
    }
}

impl MergeInMaking {
    /// The merge of the segments of these leaves, which stand one behind another from the index on, into one under the number. It
    /// keeps the rows that are live now. (Lucene: `IndexWriter.mergeInit`.)
    pub fn of(
        alloc: Global,
        schema: &Schema,
        number: SegNo,
        index: usize,
        leaves: &[Leaf],
    ) -> Result<MergeInMaking, AllocError>
        requires { MayMerge number schema.now leaves.now }
        ensures ok { IfOk result (λ m. m
            ≡ record { schema = schema.now; shape = record { number = number; index = index; inputs = leaves.now; passed = 0 } }) }
    {
        let inputs = inputs_of(alloc, leaves)?;
        let merge = Merge::begin(alloc, number, schema, inputs)?;
        Ok(MergeInMaking {
            alloc,
            number,
            index,
            count: leaves.len(),
            merge,
        })
    }

    /// Begins the file for the sources of the new segment, which is there then, without a byte. It comes before the first step.
    ///
    /// [`Refusal::Memory`] changes nothing, and else comes [`Refusal::Device`].
    pub fn begin_file<D: Directory>(&self, device: &mut D) -> Result<(), Refusal>
        ensures begun { OnOk result (D.bytes device.new (FileName.Source self.now.shape.number)
            ≡ told_after emptied (D.bytes device.old (FileName.Source self.now.shape.number))) }
        ensures told { OnOk result (IsTold (D.bytes device.new (FileName.Source self.now.shape.number)) (Some [])) }
        ensures others { TouchesOnly (Name.source self.now.shape.number ∷ []) (D.bytes device.old) (D.bytes device.new) }
        ensures crash { (q : FileName) → q ≢ FileName.Source self.now.shape.number
            → NoMore (D.may_leave device.old q) (D.may_leave device.new q) }
        ensures memory { IfErr result (λ e. e ≡ Memory → TouchesNothing (D.bytes device.old) (D.bytes device.new)) }
        ensures unwritten { IfErr result (λ e. e ≡ Memory
            → (q : FileName) → NoMore (D.may_leave device.old q) (D.may_leave device.new q)) }
        ensures fails { FailsWriting D.can_fail D.fault_count device.old device.new result }
    {
        device.create(self.alloc, FileName::Source(self.number))?;
        Ok(())
    }

    /// The number of the segment that it makes.
    pub fn number(&self) -> SegNo
        ensures { result ≡ self.now.shape.number }
    {
        self.number
    }

    /// How many segments stand before those that it takes.
    pub fn index(&self) -> usize
        ensures { result ≡ self.now.shape.index }
    {
        self.index
    }

    /// How many segments it takes.
    pub fn count(&self) -> usize
        ensures { result ≡ length self.now.shape.inputs }
    {
        self.count
    }

    /// How many of their rows are passed, dead ones too.
    pub fn passed(&self) -> usize
        ensures { result ≡ self.now.shape.passed }
    {
        self.merge.passed()
    }

    /// Whether all are.
    pub fn is_passed(&self) -> bool
        ensures { IsTrue result ↔ (self.now.shape.passed ≡ length (rows_of_all self.now.shape.inputs)) }
    {
        self.merge.rows_left() == 0
    }

    /// Passes 256 rows more, or all that are left, dead ones counted, and copies the sources of those that it keeps out of the
    /// files of their segments to the end of its own. (Lucene: `SegmentMerger.mergeFields`, of so many documents.)
    ///
    /// [`Refusal::Damaged`] if a source isn't in the file of its segment; [`Refusal::Device`] if the device fails, or its own
    /// file is absent; else [`Refusal::Memory`], which never hides that a source isn't in its file. Behind an error rows may be
    /// passed whose sources aren't copied, so that the merge can only be given up.
    pub fn copy_step<D: Directory + Shelf>(&mut self, device: &mut D) -> Result<(), Refusal>
        ensures ok { OnOk result (self.new ≡ record self.old { shape = passed_on self.old.shape }) }
        ensures copied { OnOk result (CopiesOn self.old.shape (D.bytes device.old) (D.bytes device.new)) }
        ensures err { OnErr result (self.new
            ≡ record self.old { shape = record self.old.shape { passed = self.new.shape.passed } }) }
        ensures others { TouchesOnly (Name.source self.old.shape.number ∷ []) (D.bytes device.old) (D.bytes device.new) }
        ensures crash { (q : FileName) → q ≢ FileName.Source self.old.shape.number
            → NoMore (D.may_leave device.old q) (D.may_leave device.new q) }
        ensures damaged { IfErr result (λ e. e ≡ Damaged → LacksSources self.old.shape (D.bytes device.old)) }
        ensures short { IfErr result (λ e. e ≡ Damaged → Any (LacksBytes (D.bytes device.old)) self.old.shape.inputs) }
        ensures due { IfErr result (λ e. e ≡ Memory → MayReachSources self.old.shape (D.bytes device.old)) }
        ensures device { IfErr result (λ e. e ≡ Device
            → D.can_fail device.old ⊎ (D.bytes device.old (FileName.Source self.old.shape.number) ≡ Some None)) }
        ensures can { D.can_fail device.new → D.can_fail device.old }
        ensures counted { CountsReading (D.fault_count device.old) (D.fault_count device.new) result }
    {
        let ranges = next_ranges(&mut self.merge, device, self.alloc)?;
        append_ranges(device, self.alloc, &ranges, FileName::Source(self.number))?;
        Ok(())
    }

    /// The new segment, once all rows are passed, with those of its rows live that are so now. The leaves are those that stand now
    /// in the place of the segments that it takes. Where no row was kept there is no new segment. (Lucene: the end of
    /// `IndexWriter.mergeMiddle`, and what `commitMerge` carries over.)
    ///
    /// No file has changed: [`write_segment`](crate::files::write_segment) writes that of the new segment. Whatever comes, the merge is
    /// over. The error is want of memory.
    pub fn settle(self, window: &[Leaf]) -> Result<Option<Leaf>, AllocError>
        requires all { self.shape.passed ≡ length (rows_of_all self.shape.inputs) }
        requires window { AreDeletedFrom self.shape.inputs window.now }
        ensures ok { IfOk result (λ o. option_to_list o ≡ merged_leaves self.shape.number self.schema self.shape.inputs window.now) }
        ensures numbered { IsFileNumber self.shape.number }
    {
        let MergeInMaking {
            alloc,
            number: _,
            index: _,
            count: _,
            merge,
        } = self;
        settled_leaf(alloc, merge, window)
    }
}
