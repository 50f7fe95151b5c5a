//! The flush: what waits becomes a segment, in files of its own.
//!
//! Lucene's `DocumentsWriter.flush`, with `IndexWriter.publishFlushedSegment`. When it is due is left to who writes; that the
//! files last, to a commit.
ghost use Rattle.std.specs.Prelude.{◌≡◌, ◌≢◌, ◌⊎◌, false, ◌<◌, ◌≤◌, ◌+◌, ◌-◌, ◌^◌, [], ◌∷◌, ◌++◌, length, take, Some, IfOk, IfErr, OnOk, OnErr};
ghost use Rattle.cat_base.specs.declared.refusal.Refusal.TheVariants.{Memory, Device, Spent};
ghost use Rattle.cat_model.specs.Files.{Name, IsFileNumber};
ghost use Rattle.cat_model.specs.Layout.{SpellsSegment};
ghost use Rattle.cat_directory.specs.Devices.{NoMore};
ghost use Rattle.cat_directory.specs.Frames.{CountsFailures, FailsWriting};
ghost use Rattle.cat_directory.specs.declared.name.FileName.{FileName};
ghost use Rattle.cat_ledger_laws.specs.model.Leaves.{AreLeaves};
ghost use Rattle.cat_ledger_laws.specs.model.Portions.{all_live, leaf_of};
ghost use Rattle.cat_ledger_laws.specs.model.Stored.{joined_sources};
ghost use Rattle.cat_ledger_laws.specs.model.Users.{users_of, times, Changes};
ghost use Rattle.cat_ledger_laws.specs.shape.Shapes.{names_of_leaves};
ghost use Rattle.cat_ledger_laws.specs.shape.Ties.{IsTold};
ghost use Rattle.cat_ledger_state.specs.Cores.{HasFlushed, HasGivenUp, MayNotFlush, StayKnown, flush_begins, is_begun};

use crate::state::Core;
use cat_base::{LAST_NUMBER, MAX_RECORDS, MAX_SEGMENTS, Refusal, SegNo};
use cat_commits::Leaf;
use cat_directory::{Directory, FileName, write_file};
use cat_lifetimes::refs::FileRefs;
use cat_live_table::buffer::{Buffer, Sealed};
use cat_live_table::current::Current;
use cat_merge::{Live, encode_seg};
use std::alloc::{AllocError, Global};
use std::sync::Arc;

/// The bytes of the two files of a segment.
#[derive(Drop)]
struct NewFiles {
    bytes: Vec<u8>,
    sources: Vec<u8>,
}

/// The segment that a flush makes, with what its files will hold.
#[derive(Drop)]
struct NewSegment {
    leaf: Leaf,
    files: NewFiles,
}

/// The segment of what waits, all of it live, and what its files will hold.
fn new_segment(alloc: Global, buffer: &Buffer, number: SegNo) -> Result<NewSegment, AllocError>
    requires some { 1 ≤ length buffer.now.records }
    requires number { IsFileNumber number }
    ensures leaf { IfOk result (λ s. s.leaf ≡ leaf_of buffer.now.schema (all_live number buffer.now.records)) }
    ensures bytes { IfOk result (λ s. SpellsSegment s.files.bytes.items s.leaf.segment) }
    ensures sources { IfOk result (λ s. s.files.sources.items ≡ joined_sources buffer.now.records) }
{
    let Sealed { segment, sources } = buffer.seal(number)?;
    let bytes = encode_seg(alloc, &segment)?;
    let live = Live::all(alloc, segment.len())?;
    let leaf = Leaf::new(Arc::new(alloc, segment)?, Arc::new(alloc, live)?);
    Ok(NewSegment {
        leaf,
        files: NewFiles { bytes, sources },
    })
}

/// The names of a segment's files.
fn files_of(number: SegNo) -> [FileName; 2]
    ensures { result ≡ FileName.Segment number ∷ FileName.Source number ∷ [] }
{
    [FileName::Segment(number), FileName::Source(number)]
}

/// Puts the segment last, and counts it as a user of its files. An error changes nothing.
fn add_segment(current: &mut Current, refs: &mut FileRefs, leaf: Leaf) -> Result<(), AllocError>
    requires stands { AreLeaves (current.old ++ leaf ∷ []) }
    requires fit { (q : Name) → users_of refs.old q + times q (names_of_leaves (leaf ∷ [])) < 2 ^ 64 }
    ensures current { OnOk result (current.new ≡ current.old ++ leaf ∷ []) }
    ensures refs { OnOk result (Changes (names_of_leaves (leaf ∷ [])) [] refs.old refs.new) }
    ensures err { OnErr result ((current.new ≡ current.old) × (refs.new ≡ refs.old)) }
{
    let files = files_of(leaf.segment().number());
    current.push(leaf)?;
    if let Err(refused) = refs.take(&files) {
        current.pop();
        return Err(refused);
    }
    Ok(())
}

/// Takes the last segment out again, whose files are then nobody's. It takes no memory.
fn remove_segment(current: &mut Current, refs: &mut FileRefs, number: SegNo)
    requires some { 0 < length current.old }
    requires had { (q : Name) → times q (Name.segment number ∷ Name.source number ∷ []) ≤ users_of refs.old q }
    ensures current { current.new ≡ take (length current.old - 1) current.old }
    ensures refs { Changes [] (Name.segment number ∷ Name.source number ∷ []) refs.old refs.new }
{
    current.pop();
    refs.give(&files_of(number));
}

/// Writes the two files of a segment. They need not outlast a loss of power yet.
fn write_segment<D: Directory>(
    device: &mut D,
    alloc: Global,
    number: SegNo,
    bytes: &[u8],
    sources: &[u8],
) -> Result<(), Refusal>
    requires number { IsFileNumber number }
    ensures others { (q : FileName) → q ≢ FileName.Segment number → q ≢ FileName.Source number
        → D.bytes device.new q ≡ D.bytes device.old q }
    ensures crash { (q : FileName) → q ≢ FileName.Segment number → q ≢ FileName.Source number
        → NoMore (D.may_leave device.old q) (D.may_leave device.new q) }
    ensures segment { OnOk result (IsTold (D.bytes device.new (FileName.Segment number)) (Some bytes.now)) }
    ensures source { OnOk result (IsTold (D.bytes device.new (FileName.Source number)) (Some sources.now)) }
    ensures fails { FailsWriting D.can_fail D.fault_count device.old device.new result }
{
    write_file(device, alloc, FileName::Segment(number), bytes)?;
    write_file(device, alloc, FileName::Source(number), sources)
}

/// Writes the two files of the segment that stands last, which is taken out again where the directory refuses them.
fn write_last<D: Directory>(
    current: &mut Current,
    refs: &mut FileRefs,
    device: &mut D,
    alloc: Global,
    number: SegNo,
    files: NewFiles,
) -> Result<(), Refusal>
    requires number { IsFileNumber number }
    requires some { 0 < length current.old }
    requires had { (q : Name) → times q (Name.segment number ∷ Name.source number ∷ []) ≤ users_of refs.old q }
    ensures others { (q : FileName) → q ≢ FileName.Segment number → q ≢ FileName.Source number
        → D.bytes device.new q ≡ D.bytes device.old q }
    ensures crash { (q : FileName) → q ≢ FileName.Segment number → q ≢ FileName.Source number
        → NoMore (D.may_leave device.old q) (D.may_leave device.new q) }
    ensures segment { OnOk result (IsTold (D.bytes device.new (FileName.Segment number)) (Some files.bytes.items)) }
    ensures source { OnOk result (IsTold (D.bytes device.new (FileName.Source number)) (Some files.sources.items)) }
    ensures stands { OnOk result (current.new ≡ current.old) }
    ensures used { OnOk result (refs.new ≡ refs.old) }
    ensures taken_out { OnErr result (current.new ≡ take (length current.old - 1) current.old) }
    ensures given { OnErr result (Changes [] (Name.segment number ∷ Name.source number ∷ []) refs.old refs.new) }
    ensures fails { FailsWriting D.can_fail D.fault_count device.old device.new result }
{
    match write_segment(device, alloc, number, &files.bytes, &files.sources) {
        Ok(()) => Ok(()),
        Err(refusal) => {
            remove_segment(current, refs, number);
            Err(refusal)
        }
    }
}

impl Core {
    /// Makes a segment of what waits, with files of its own; nothing where nothing waits.
    ///
    /// [`Refusal::Spent`] where no number is left for a segment, or as many stand as may; else [`Refusal::Device`] where the
    /// directory fails, or [`Refusal::Memory`], where it counted no failure. What waits still waits then; files that were begun are
    /// pending, and those that were pending stay so.
    pub fn flush<D: Directory>(&mut self, device: &mut D) -> Result<(), Refusal>
        ensures ok { OnOk result (HasFlushed (D.bytes device.old) self.old (D.bytes device.new) self.new) }
        ensures err { OnErr result (HasGivenUp (flush_begins self.old) (D.bytes device.old) self.old (D.bytes device.new) self.new) }
        ensures known { OnErr result (StayKnown self.old.users self.new.users) }
        ensures crash { (q : FileName) → is_begun (flush_begins self.old) q ≡ false
            → NoMore (D.may_leave device.old q) (D.may_leave device.new q) }
        ensures spent { IfErr result (λ e. e ≡ Spent → MayNotFlush self.old) }
        ensures may { OnOk result (MayNotFlush self.old → ⊥) }
        ensures due { IfErr result (λ e. (e ≡ Memory) ⊎ (e ≡ Device) → MayNotFlush self.old → ⊥) }
        ensures fails { CountsFailures D.can_fail D.fault_count device.old device.new result }
        ensures quiet { OnOk result (D.fault_count device.new ≡ D.fault_count device.old) }
        ensures refusal { IfErr result (λ e. (e ≡ Memory) ⊎ (e ≡ Device) ⊎ (e ≡ Spent)) }
    {
        if self.buffer.is_empty() {
            return Ok(());
        }
        let number = self.next_segment;
        if number > LAST_NUMBER || self.current.leaves().len() >= MAX_SEGMENTS {
            return Err(Refusal::Spent);
        }
        prove!(self.records.len() <= MAX_RECORDS);
        let NewSegment { leaf, files } = new_segment(self.alloc, &self.buffer, number)?;
        add_segment(&mut self.current, &mut self.refs, leaf)?;
        self.next_segment = number + 1;
        match write_last(
            &mut self.current,
            &mut self.refs,
            device,
            self.alloc,
            number,
            files,
        ) {
            Ok(()) => {
                self.buffer.clear();
                Ok(())
            }
            Err(refusal) => Err(refusal),
        }
    }
}
