//! The segment that a merge makes, and its file.
ghost use Rattle.std.specs.Prelude.{◌≡◌, ◌≢◌, Some, None, length, OnOk, IfOk};
ghost use Rattle.std.specs.Option.{option_to_list};
ghost use Rattle.cat_directory.specs.Devices.{NoMore};
ghost use Rattle.cat_directory.specs.Frames.{FailsWriting};
ghost use Rattle.cat_ledger_laws.specs.shape.Ties.{TellsBytes};
ghost use Rattle.cat_model.specs.Files.{IsFileNumber};
ghost use Rattle.cat_model.specs.Layout.{SpellsSegment};
ghost use Rattle.cat_model.specs.Merged.{AreDeletedFrom, rows_of_all};
ghost use Rattle.cat_merge.specs.files.Making.{merged_leaves};

use crate::Merge;
use crate::files::inputs::lives_of;
use cat_base::Refusal;
use cat_directory::{Directory, FileName, write_file};
use cat_views::Leaf;
use cat_views::cat_segment::{Segment, encode_seg};
use std::alloc::{AllocError, Global};
use std::sync::Arc;

/// The segment that the merge makes, with those of its rows live that are so now in the window; none where no row was kept.
pub(crate) fn settled_leaf(
    alloc: Global,
    merge: Merge,
    window: &[Leaf],
) -> Result<Option<Leaf>, AllocError>
    requires all { merge.passed ≡ length (rows_of_all merge.inputs) }
    requires window { AreDeletedFrom merge.inputs window.now }
    ensures ok { IfOk result (λ o. option_to_list o ≡ merged_leaves merge.number merge.schema merge.inputs window.now) }
{
    let lives = lives_of(alloc, window)?;
    let live = merge.settle(alloc, &lives)?;
    let Some(segment) = merge.seal(alloc)? else {
        return Ok(None);
    };
    let segment = Arc::new(alloc, segment)?;
    let live = Arc::new(alloc, live)?;
    Ok(Some(Leaf::new(segment, live)))
}

/// Writes the file of the segment. (Lucene: the end of `SegmentMerger.merge`, where the codecs' files are written.)
///
/// [`Refusal::Device`] if the device fails, else [`Refusal::Memory`]. An error may leave a part of the file.
pub fn write_segment<D: Directory>(
    device: &mut D,
    alloc: Global,
    segment: &Segment,
) -> Result<(), Refusal>
    requires { IsFileNumber segment.now.number }
    ensures others { (q : FileName) → q ≢ FileName.Segment segment.now.number → D.bytes device.new q ≡ D.bytes device.old q }
    ensures crash { (q : FileName) → q ≢ FileName.Segment segment.now.number
        → NoMore (D.may_leave device.old q) (D.may_leave device.new q) }
    ensures ok { OnOk result (TellsBytes (D.bytes device.new) (FileName.Segment segment.now.number) (λ bytes. SpellsSegment bytes segment.now)) }
    ensures fails { FailsWriting D.can_fail D.fault_count device.old device.new result }
{
    let bytes = encode_seg(alloc, segment)?;
    write_file(device, alloc, FileName::Segment(segment.number()), &bytes)?;
    Ok(())
}
