//! The end of a merge: its segment stands in the place of those that it took.
//!
//! Lucene's `IndexWriter.commitMerge`, with the end of `mergeMiddle`.
ghost use Rattle.std.specs.Prelude.{◌≡◌, ◌≢◌, ◌⊎◌, ℕ, ◌+◌, ◌<◌, ◌^◌, ◌++◌, ◌∷◌, [], map, length, take, IfOk, IfErr, OnOk, OnErr, ◌≤◌};
ghost use Rattle.std.specs.List.{AllByRecursion};
ghost use Rattle.std.specs.Option.{option_to_list};
ghost use Rattle.cat_base.specs.declared.refusal.Refusal.TheVariants.{Memory, Device};
ghost use Rattle.cat_model.specs.Files.{Name, IsFileNumber};
ghost use Rattle.cat_model.specs.Layout.{SpellsSegment};
ghost use Rattle.cat_model.specs.Merged.{AreDeletedFrom, rows_of_all};
ghost use Rattle.cat_merge.specs.files.Making.{merged_leaves};
ghost use Rattle.cat_lifetimes.specs.refs.Counts.{names_in};
ghost use Rattle.cat_directory.specs.Devices.{NoMore};
ghost use Rattle.cat_directory.specs.Frames.{FailsWriting};
ghost use Rattle.cat_directory.specs.Names.{name_of};
ghost use Rattle.cat_directory.specs.declared.name.FileName.{FileName};
ghost use Rattle.cat_ledger_laws.specs.model.Ledger.{IsTaken};
ghost use Rattle.cat_ledger_laws.specs.model.Users.{users_of, times, Changes};
ghost use Rattle.cat_ledger_laws.specs.shape.Shapes.{names_of_leaves};
ghost use Rattle.cat_ledger_laws.specs.shape.Steps.{window_now};
ghost use Rattle.cat_ledger_laws.specs.shape.Ties.{TellsBytes};
ghost use Rattle.cat_ledger_state.specs.Cores.{KnownArePast, StayKnown};
ghost use Rattle.cat_ledger_state.specs.Installs.{HasAllPassed, HasFailed, HasInstalled, IsOfMerge, MayInstall, MayPlace, made_of, placed_in};

use crate::merges::give_source;
use crate::state::Core;
use cat_base::{MAX_RECORDS, Refusal, SegNo};
use cat_commits::Leaf;
use cat_directory::{Directory, FileName};
use cat_lifetimes::refs::FileRefs;
use cat_live_table::current::Current;
use cat_merge::files::{MergeInMaking, write_segment};
use std::alloc::{AllocError, Global};

/// The names of the files that a merge moves users of: those of the segment that it makes, which get one, and those of the segments that
/// it takes, which lose one.
#[derive(Drop)]
struct Moves {
    taken: Vec<FileName>,
    given: Vec<FileName>,
}

/// The segment that a merge makes, if a row was kept, and the names of files whose users move with it.
#[derive(Drop)]
struct Settled {
    merged: Option<Leaf>,
    moves: Moves,
}

/// Adds the names of the segment's files.
fn add_files(names: &mut Vec<FileName>, leaf: &Leaf) -> Result<(), AllocError>
    ensures { OnOk result (map name_of names.new.items ≡ map name_of names.old.items ++ names_of_leaves (leaf.now ∷ [])) }
{
    let number = leaf.segment().number();
    names.push(FileName::Segment(number))?;
    names.push(FileName::Source(number))?;
    Ok(())
}

/// The names of the files of the segments.
fn files_of_all(alloc: Global, leaves: &[Leaf]) -> Result<Vec<FileName>, AllocError>
    ensures { IfOk result (λ names. map name_of names.items ≡ names_of_leaves leaves.now) }
{
    let mut names = Vec::new(alloc);
    for leaf in leaves {
        add_files(&mut names, leaf)?;
    }
    Ok(names)
}

/// The names of the files of the segment, if there is one.
fn files_of_new(alloc: Global, merged: &Option<Leaf>) -> Result<Vec<FileName>, AllocError>
    ensures { IfOk result (λ names. map name_of names.items ≡ names_of_leaves (option_to_list merged.now)) }
{
    let mut names = Vec::new(alloc);
    if let Some(leaf) = merged {
        add_files(&mut names, leaf)?;
    }
    Ok(names)
}

/// Writes the file of the segment, if there is one.
fn write_new<D: Directory>(
    device: &mut D,
    alloc: Global,
    merged: &Option<Leaf>,
    number: SegNo,
) -> Result<(), Refusal>
    requires number { IsFileNumber number }
    requires same { AllByRecursion (λ leaf. leaf.segment.number ≡ number) (option_to_list merged.now) }
    ensures others { (q : FileName) → q ≢ FileName.Segment number → D.bytes device.new q ≡ D.bytes device.old q }
    ensures crash { (q : FileName) → q ≢ FileName.Segment number → NoMore (D.may_leave device.old q) (D.may_leave device.new q) }
    ensures ok { OnOk result (AllByRecursion
        (λ leaf. TellsBytes (D.bytes device.new) (FileName.Segment number) (λ bytes. SpellsSegment bytes leaf.segment))
        (option_to_list merged.now)) }
    ensures fails { FailsWriting D.can_fail D.fault_count device.old device.new result }
    ensures refusal { IfErr result (λ e. (e ≡ Memory) ⊎ (e ≡ Device)) }
{
    match merged {
        Some(leaf) => write_segment(device, alloc, leaf.segment()),
        None => Ok(()),
    }
}

/// Writes the file of the segment, if there is one, and puts it in the place of the `count` segments from `index` on. An error leaves
/// these as they stand.
fn write_and_place<D: Directory>(
    current: &mut Current,
    device: &mut D,
    alloc: Global,
    place: (usize, usize),
    merged: Option<Leaf>,
    number: SegNo,
) -> Result<(), Refusal>
    requires number { IsFileNumber number }
    requires same { AllByRecursion (λ leaf. leaf.segment.number ≡ number) (option_to_list merged) }
    requires place { MayPlace current.old place.0 place.1 (option_to_list merged) }
    ensures others { (q : FileName) → q ≢ FileName.Segment number → D.bytes device.new q ≡ D.bytes device.old q }
    ensures crash { (q : FileName) → q ≢ FileName.Segment number → NoMore (D.may_leave device.old q) (D.may_leave device.new q) }
    ensures written { OnOk result (AllByRecursion
        (λ leaf. TellsBytes (D.bytes device.new) (FileName.Segment number) (λ bytes. SpellsSegment bytes leaf.segment))
        (option_to_list merged)) }
    ensures ok { OnOk result (current.new ≡ placed_in current.old place.0 place.1 (option_to_list merged)) }
    ensures err { OnErr result (current.new ≡ current.old) }
    ensures fails { FailsWriting D.can_fail D.fault_count device.old device.new result }
    ensures refusal { IfErr result (λ e. (e ≡ Memory) ⊎ (e ≡ Device)) }
{
    write_new(device, alloc, &merged, number)?;
    current.install(place.0, place.1, merged)?;
    Ok(())
}

/// Makes the segment of the merge, and counts it as a user of its files. The window is of the segments that it takes. An error leaves
/// the users as they are.
fn settle(
    refs: &mut FileRefs,
    alloc: Global,
    window: &[Leaf],
    merge: MergeInMaking,
) -> Result<Settled, AllocError>
    requires passed { merge.shape.passed ≡ length (rows_of_all merge.shape.inputs) }
    requires deleted { AreDeletedFrom merge.shape.inputs window.now }
    requires fit { (q : Name) → users_of refs.old q
        + times q (names_of_leaves (merged_leaves merge.shape.number merge.schema merge.shape.inputs window.now)) < 2 ^ 64 }
    ensures merged { IfOk result (λ s. option_to_list s.merged
        ≡ merged_leaves merge.shape.number merge.schema merge.shape.inputs window.now) }
    ensures taken { IfOk result (λ s. map name_of s.moves.taken.items ≡ names_of_leaves (option_to_list s.merged)) }
    ensures given { IfOk result (λ s. map name_of s.moves.given.items ≡ names_of_leaves window.now) }
    ensures numbered { OnOk result (IsFileNumber merge.shape.number) }
    ensures counted { IfOk result (λ s. Changes (names_in s.moves.taken.items) [] refs.old refs.new) }
    ensures err { OnErr result (refs.new ≡ refs.old) }
{
    let merged = merge.settle(window)?;
    let given = files_of_all(alloc, window)?;
    let taken = files_of_new(alloc, &merged)?;
    refs.take(&taken)?;
    Ok(Settled {
        merged,
        moves: Moves { taken, given },
    })
}

/// Where the segment was placed, those that it takes lose their users; else its own users are taken back. It takes no memory.
fn end_moves(refs: &mut FileRefs, moves: Moves, placed: &Result<(), Refusal>)
    requires taken { (q : Name) → times q (names_in moves.taken.items) ≤ users_of refs.old q }
    requires given { (q : Name) → times q (names_in moves.given.items) ≤ users_of refs.old q }
    ensures ok { OnOk placed.now (Changes [] (names_in moves.given.items) refs.old refs.new) }
    ensures err { OnErr placed.now (Changes [] (names_in moves.taken.items) refs.old refs.new) }
{
    match placed {
        Ok(()) => refs.give(&moves.given),
        Err(_) => refs.give(&moves.taken),
    }
}

/// Puts the segment of the merge in the place of those that it takes, writes its file, and moves the users of the files of all of
/// these. An error leaves the list and the users as they are; the names of the new segment may be known then, no others come, and those
/// that were known stay so.
fn install_merged<D: Directory>(
    current: &mut Current,
    refs: &mut FileRefs,
    device: &mut D,
    alloc: Global,
    merge: MergeInMaking,
) -> Result<(), Refusal>
    requires { MayInstall merge current.old refs.old }
    ensures others { (q : FileName) → q ≢ FileName.Segment merge.shape.number → D.bytes device.new q ≡ D.bytes device.old q }
    ensures crash { (q : FileName) → q ≢ FileName.Segment merge.shape.number
        → NoMore (D.may_leave device.old q) (D.may_leave device.new q) }
    ensures written { OnOk result (AllByRecursion
        (λ leaf. TellsBytes (D.bytes device.new) (FileName.Segment merge.shape.number) (λ bytes. SpellsSegment bytes leaf.segment))
        (made_of merge current.old)) }
    ensures ok { OnOk result (current.new ≡ placed_in current.old merge.shape.index (length merge.shape.inputs) (made_of merge current.old)) }
    ensures users { OnOk result (Changes (names_of_leaves (made_of merge current.old)) (names_of_leaves (window_now merge.shape current.old))
        refs.old refs.new) }
    ensures err { OnErr result (current.new ≡ current.old) }
    ensures same { OnErr result ((q : Name) → users_of refs.new q ≡ users_of refs.old q) }
    ensures known { OnErr result (StayKnown refs.old refs.new) }
    ensures past { OnErr result ((n g : ℕ) → IsTaken n merge.shape.number → KnownArePast refs.old n g → KnownArePast refs.new n g) }
    ensures fails { FailsWriting D.can_fail D.fault_count device.old device.new result }
    ensures refusal { IfErr result (λ e. (e ≡ Memory) ⊎ (e ≡ Device)) }
{
    let number = merge.number();
    let place = (merge.index(), merge.count());
    let window = &current.leaves()[place.0..place.0 + place.1];
    let Settled { merged, moves } = settle(refs, alloc, window, merge)?;
    let placed = write_and_place(current, device, alloc, place, merged, number);
    end_moves(refs, moves, &placed);
    placed
}

impl Core {
    /// Ends the merge in the making, which has passed all rows: writes the file of its segment, and puts this in the place of those
    /// that it took, with the rows live that are so now (Lucene: `IndexWriter.commitMerge`). Where no row was kept there is no new
    /// segment. Files that nobody needs any more are pending.
    ///
    /// [`Refusal::Device`] where the directory fails, or [`Refusal::Memory`], where it counted no failure. Whichever comes, the merge is
    /// over, what it took stands as before, its files are pending, and those that were pending stay so.
    pub fn install<D: Directory>(&mut self, device: &mut D) -> Result<(), Refusal>
        requires { HasAllPassed self.old.merging }
        ensures ok { OnOk result (HasInstalled (D.bytes device.old) self.old (D.bytes device.new) self.new) }
        ensures err { OnErr result (HasFailed (D.bytes device.old) self.old (D.bytes device.new) self.new) }
        ensures known { OnErr result (StayKnown self.old.users self.new.users) }
        ensures crash { (q : FileName) → (IsOfMerge self.old.merging q → ⊥)
            → NoMore (D.may_leave device.old q) (D.may_leave device.new q) }
        ensures fails { FailsWriting D.can_fail D.fault_count device.old device.new result }
        ensures rises { D.fault_count device.old ≤ D.fault_count device.new }
        ensures refusal { IfErr result (λ e. (e ≡ Memory) ⊎ (e ≡ Device)) }
    {
        prove!(self.records.len() <= MAX_RECORDS);
        let Some(merge) = self.merging.take() else {
            unreachable!();
        };
        give_source(&mut self.refs, merge.number());
        let done = install_merged(&mut self.current, &mut self.refs, device, self.alloc, merge);
        if let Err(refusal) = done {
            return Err(refusal);
        }
        Ok(())
    }
}
