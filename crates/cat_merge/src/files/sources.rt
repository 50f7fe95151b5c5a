//! The sources of kept rows, read from the files of a merge's inputs and put behind those that its own file has.
ghost use Rattle.std.specs.Prelude.{◌≡◌, ◌≢◌, ◌⊎◌, Some, None, length, map, sum, OnOk, IfOk, IfErr, All, Any};
ghost use Rattle.std.specs.List.{flat_map};
ghost use Rattle.cat_base.specs.declared.refusal.Refusal.TheVariants.{Damaged, Device, Memory};
ghost use Rattle.cat_directory.specs.Devices.{CountsReading, NoMore};
ghost use Rattle.cat_directory.specs.Frames.{FailsReading, OnlyReads};
ghost use Rattle.cat_merge.specs.Copied.{bytes_in};
ghost use Rattle.cat_merge.specs.files.Sources.{AreAppended, IsCutOff, MayReachRange, TellsAll, sources_told};

use crate::SourceRange;
use crate::files::judging::why_unread;
use cat_base::Refusal;
use cat_directory::{Directory, FileName, Shelf};
use std::alloc::Global;

/// The bytes of the range.
fn read_range<S: Shelf>(
    shelf: &mut S,
    alloc: Global,
    range: &SourceRange,
) -> Result<Vec<u8>, Refusal>
    ensures ok { IfOk result (λ v. TellsAll (S.bytes shelf.old) → v.items ≡ bytes_in (sources_told (S.bytes shelf.old)) range.now) }
    ensures len { IfOk result (λ v. length v.items ≡ range.now.len) }
    ensures damaged { IfErr result (λ e. e ≡ Damaged → IsCutOff (S.bytes shelf.old) range.now) }
    ensures due { IfErr result (λ e. e ≡ Memory → MayReachRange (S.bytes shelf.old) range.now) }
    ensures frame { OnlyReads S.bytes S.may_leave S.can_fail shelf.old shelf.new }
    ensures fails { FailsReading S.can_fail S.fault_count shelf.old shelf.new result }
{
    let name = FileName::Source(range.segment);
    let bytes = shelf.read(alloc, name, range.offset, range.len)?;
    Ok(bytes)
}

/// The bytes of the ranges, one behind another. What was read of the files is what they are told to hold, where that is told.
fn read_ranges<S: Shelf>(
    shelf: &mut S,
    alloc: Global,
    ranges: &[SourceRange],
) -> Result<Vec<u8>, Refusal>
    ensures ok { IfOk result (λ v. TellsAll (S.bytes shelf.old)
        → v.items ≡ flat_map (bytes_in (sources_told (S.bytes shelf.old))) ranges.now) }
    ensures len { IfOk result (λ v. length v.items ≡ sum (map (λ r. r.len) ranges.now)) }
    ensures damaged { IfErr result (λ e. e ≡ Damaged → Any (IsCutOff (S.bytes shelf.old)) ranges.now) }
    ensures frame { OnlyReads S.bytes S.may_leave S.can_fail shelf.old shelf.new }
    ensures fails { FailsReading S.can_fail S.fault_count shelf.old shelf.new result }
{
    let mut bytes = Vec::new(alloc);
    for range in ranges {
        let more = read_range(shelf, alloc, range)?;
        bytes.extend_from_slice(&more)?;
    }
    Ok(bytes)
}

/// Puts the bytes of the ranges behind those of the file. Where memory is wanting no file has changed.
fn copy_ranges<D: Directory + Shelf>(
    device: &mut D,
    alloc: Global,
    ranges: &[SourceRange],
    to: FileName,
) -> Result<(), Refusal>
    ensures others { (q : FileName) → q ≢ to → D.bytes device.new q ≡ D.bytes device.old q }
    ensures crash { (q : FileName) → q ≢ to → NoMore (D.may_leave device.old q) (D.may_leave device.new q) }
    ensures ok { OnOk result (AreAppended ranges.now to (D.bytes device.old) (D.bytes device.new)) }
    ensures memory { IfErr result (λ e. e ≡ Memory → D.bytes device.new to ≡ D.bytes device.old to) }
    ensures damaged { IfErr result (λ e. e ≡ Damaged → Any (IsCutOff (D.bytes device.old)) ranges.now) }
    ensures device { IfErr result (λ e. e ≡ Device → D.can_fail device.old ⊎ (D.bytes device.old to ≡ Some None)) }
    ensures can { D.can_fail device.new → D.can_fail device.old }
    ensures counted { CountsReading (D.fault_count device.old) (D.fault_count device.new) result }
{
    let bytes = read_ranges(device, alloc, ranges)?;
    device.append(to, &bytes)?;
    Ok(())
}

/// Puts the bytes of the ranges behind those of the file. Want of memory hides no range that isn't in its file.
pub(crate) fn append_ranges<D: Directory + Shelf>(
    device: &mut D,
    alloc: Global,
    ranges: &[SourceRange],
    to: FileName,
) -> Result<(), Refusal>
    ensures others { (q : FileName) → q ≢ to → D.bytes device.new q ≡ D.bytes device.old q }
    ensures crash { (q : FileName) → q ≢ to → NoMore (D.may_leave device.old q) (D.may_leave device.new q) }
    ensures ok { OnOk result (AreAppended ranges.now to (D.bytes device.old) (D.bytes device.new)) }
    ensures damaged { IfErr result (λ e. e ≡ Damaged → Any (IsCutOff (D.bytes device.old)) ranges.now) }
    ensures due { IfErr result (λ e. e ≡ Memory → All (MayReachRange (D.bytes device.old)) ranges.now) }
    ensures device { IfErr result (λ e. e ≡ Device → D.can_fail device.old ⊎ (D.bytes device.old to ≡ Some None)) }
    ensures can { D.can_fail device.new → D.can_fail device.old }
    ensures counted { CountsReading (D.fault_count device.old) (D.fault_count device.new) result }
{
    match copy_ranges(device, alloc, ranges, to) {
        Ok(()) => Ok(()),
        Err(Refusal::Memory) => Err(why_unread(device, ranges)),
        Err(refusal) => Err(refusal),
    }
}
