//! Whether the files of a merge's inputs have the sources that it is to copy. It takes no memory, so that want of memory hides no
//! damage.
ghost use Rattle.std.specs.Prelude.{◌≡◌, ◌↔◌, ◌⊎◌, ◌+◌, ◌<◌, ◌≤◌, true, false, length, IsTrue, IfOk, IfErr, All, Any};
ghost use Rattle.cat_base.specs.declared.refusal.Refusal.TheVariants.{Damaged, Device, Memory};
ghost use Rattle.cat_directory.specs.Devices.{CountsReading, ReadingCount};
ghost use Rattle.cat_directory.specs.Frames.{OnlyReads};
ghost use Rattle.cat_model.specs.Merged.{rows_of_all};
ghost use Rattle.cat_merge.specs.Places.{passed_at, IsPlace, IsRowPlace};
ghost use Rattle.cat_merge.specs.Walk.{AreInputs};
ghost use Rattle.cat_merge.specs.files.Sources.{AreJudged, IsCutOff, MayReachRange, ranges_at};

use crate::SourceRange;
use crate::input::Input;
use crate::place::Place;
use cat_base::Refusal;
use cat_directory::{FileName, Shelf};

/// Whether a file of so many bytes ends before the range does.
fn ends_before(size: u64, range: &SourceRange) -> bool
    ensures { IsTrue result ↔ (size < range.now.offset + range.now.len) }
{
    match size.checked_sub(range.offset) {
        Some(rest) => rest < u64::from(range.len),
        None => true,
    }
}

/// Whether the range isn't in the file that has it.
fn lacks_range<S: Shelf>(shelf: &mut S, range: &SourceRange) -> Result<bool, Refusal>
    ensures cut { IfOk result (λ b. b ≡ true → IsCutOff (S.bytes shelf.old) range.now) }
    ensures reached { IfOk result (λ b. b ≡ false → MayReachRange (S.bytes shelf.old) range.now) }
    ensures device { IfErr result (λ e. (e ≡ Device) × S.can_fail shelf.old) }
    ensures frame { OnlyReads S.bytes S.may_leave S.can_fail shelf.old shelf.new }
    ensures counted { CountsReading (S.fault_count shelf.old) (S.fault_count shelf.new) result }
{
    match shelf.size(FileName::Source(range.segment)) {
        Ok(size) => Ok(ends_before(size, range)),
        Err(Refusal::Damaged) => Ok(true),
        Err(refusal) => Err(refusal),
    }
}

/// Whether one of the ranges isn't in its file.
fn lacks_some<S: Shelf>(shelf: &mut S, ranges: &[SourceRange]) -> Result<bool, Refusal>
    ensures cut { IfOk result (λ b. b ≡ true → Any (IsCutOff (S.bytes shelf.old)) ranges.now) }
    ensures reached { IfOk result (λ b. b ≡ false → All (MayReachRange (S.bytes shelf.old)) ranges.now) }
    ensures device { IfErr result (λ e. (e ≡ Device) × S.can_fail shelf.old) }
    ensures frame { OnlyReads S.bytes S.may_leave S.can_fail shelf.old shelf.new }
    ensures counted { CountsReading (S.fault_count shelf.old) (S.fault_count shelf.new) result }
{
    for range in ranges {
        let lacking = lacks_range(shelf, range)?;
        if lacking {
            return Ok(true);
        }
    }
    Ok(false)
}

/// Why the bytes of the ranges aren't read where memory is wanting for them: [`Refusal::Damaged`] where one of the ranges isn't
/// in its file, [`Refusal::Device`] where the device fails; else [`Refusal::Memory`].
pub(crate) fn why_unread<S: Shelf>(shelf: &mut S, ranges: &[SourceRange]) -> Refusal
    ensures damaged { result ≡ Damaged → Any (IsCutOff (S.bytes shelf.old)) ranges.now }
    ensures due { result ≡ Memory → All (MayReachRange (S.bytes shelf.old)) ranges.now }
    ensures device { result ≡ Device → S.can_fail shelf.old }
    ensures frame { OnlyReads S.bytes S.may_leave S.can_fail shelf.old shelf.new }
    ensures counted { ReadingCount (S.fault_count shelf.old) (S.fault_count shelf.new) result }
{
    match lacks_some(shelf, ranges) {
        Ok(true) => Refusal::Damaged,
        Ok(false) => Refusal::Memory,
        Err(refusal) => refusal,
    }
}

/// Whether a source is lacking: one was before, or that of the row of the place, if the row is kept, isn't in its file.
fn is_lacking<S: Shelf>(
    shelf: &mut S,
    inputs: &[Input],
    place: Place,
    before: bool,
) -> Result<bool, Refusal>
    requires { IsRowPlace inputs.now place }
    ensures cut { IfOk result (λ b. b ≡ true → (before ≡ true) ⊎ Any (IsCutOff (S.bytes shelf.old)) (ranges_at inputs.now place)) }
    ensures reached { IfOk result (λ b. b ≡ false
        → (before ≡ false) × All (MayReachRange (S.bytes shelf.old)) (ranges_at inputs.now place)) }
    ensures device { IfErr result (λ e. (e ≡ Device) × S.can_fail shelf.old) }
    ensures frame { OnlyReads S.bytes S.may_leave S.can_fail shelf.old shelf.new }
    ensures counted { CountsReading (S.fault_count shelf.old) (S.fault_count shelf.new) result }
{
    if before {
        return Ok(true);
    }
    let input = &inputs[place.input];
    if !input.live().is_live(place.row) {
        return Ok(false);
    }
    let segment = input.segment();
    let range = SourceRange {
        segment: segment.number(),
        offset: segment.source_offset(place.row),
        len: segment.source_length(place.row),
    };
    lacks_range(shelf, &range)
}

/// Whether the source of one of so many rows from the place on, of those that are kept, isn't in its file.
pub(crate) fn lacks_sources<S: Shelf>(
    shelf: &mut S,
    inputs: &[Input],
    from: Place,
    count: usize,
) -> Result<bool, Refusal>
    requires inputs { AreInputs inputs.now }
    requires place { IsPlace inputs.now from }
    requires room { passed_at inputs.now from + count ≤ length (rows_of_all inputs.now) }
    ensures judged { IfOk result
        (AreJudged (S.bytes shelf.old) inputs.now (passed_at inputs.now from) (passed_at inputs.now from + count)) }
    ensures device { IfErr result (λ e. (e ≡ Device) × S.can_fail shelf.old) }
    ensures frame { OnlyReads S.bytes S.may_leave S.can_fail shelf.old shelf.new }
    ensures counted { CountsReading (S.fault_count shelf.old) (S.fault_count shelf.new) result }
{
    let mut place = from;
    let mut lacking = false;
    for _ in 0..count {
        lacking = is_lacking(shelf, inputs, place, lacking)?;
        place = place.next(inputs);
    }
    Ok(lacking)
}
