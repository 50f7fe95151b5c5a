//! One listed segment, read from its files.
ghost use Rattle.std.specs.Prelude.{◌≡◌, ◌≢◌, ◌↔◌, ◌⊎◌, ◌<◌, ◌^◌, Bool, List, length, map, sum, Some, None, IsTrue, OnOk, IfOk, IfErr};
ghost use Rattle.cat_base.specs.declared.refusal.Refusal.TheVariants.{Device, Damaged, Memory};
ghost use Rattle.cat_directory.specs.Frames.{FailsReading, OnlyReads};
ghost use Rattle.cat_model.specs.View as model;
ghost use Rattle.cat_ledger_laws.specs.model.Opening.{HasSources, HasLiveFile, IsLeafOf};
ghost use Rattle.cat_commits.specs.reading.Leaf.{IsSegmentReadAs, HasLiveRows};
ghost use Rattle.cat_ledger_laws.specs.shape.OpeningLaws.{MayHold};
ghost use Rattle.cat_commits.specs.reading.Told.{Tells};

use crate::ListedSegment;
use crate::reading::file::read_file;
use cat_base::{Generation, Refusal, SegNo};
use cat_directory::{FileName, Shelf};
use cat_items::Schema;
use cat_views::Leaf;
use cat_views::cat_segment::{
    Live, LiveFile, Segment, decode_liv, decode_seg, live_rows_are_told_by_their_bytes,
    segments_are_told_by_their_bytes,
};
use std::alloc::Global;
use std::sync::Arc;

/// Whether the schemas have the same fields.
pub(crate) fn same_schema(one: &Schema, other: &Schema) -> bool
    ensures { IsTrue result ↔ (one.now ≡ other.now) }
{
    *one == *other
}

/// Whether the segment has the number, and is under the schema.
fn is_of(segment: &Segment, schema: &Schema, number: SegNo) -> bool
    ensures { IsTrue result ↔ ((segment.now.number ≡ number) × (segment.now.schema ≡ schema.now)) }
{
    segment.number() == number && same_schema(segment.schema(), schema)
}

/// The segment of the number, where its file holds one of that number and under the schema; else [`Refusal::Damaged`]. Want
/// of memory never hides that the file is absent.
fn read_segment<S: Shelf>(
    alloc: Global,
    shelf: &mut S,
    schema: &Schema,
    number: SegNo,
) -> Result<Segment, Refusal>
    ensures ok { IfOk result (IsSegmentReadAs (MayHold (S.bytes shelf.old)) schema.now number) }
    ensures damaged { IfErr result (λ e. e ≡ Damaged → (s : model.Segment) → IsSegmentReadAs (Tells (S.bytes shelf.old)) schema.now number s → ⊥) }
    ensures due { IfErr result (λ e. e ≡ Memory → S.bytes shelf.old (FileName.Segment number) ≢ Some None) }
    ensures fails { FailsReading S.can_fail S.fault_count shelf.old shelf.new result }
    ensures frame { OnlyReads S.bytes S.may_leave S.can_fail shelf.old shelf.new }
{
    segments_are_told_by_their_bytes();
    let bytes = read_file(alloc, shelf, FileName::Segment(number))?;
    let segment = decode_seg(alloc, &bytes)?;
    if !is_of(&segment, schema, number) {
        return Err(Refusal::Damaged);
    }
    Ok(segment)
}

/// Whether the file is that of the live rows of so many of the segment's, as the commit wrote it.
fn is_for(file: &LiveFile, number: SegNo, generation: Generation, rows: usize) -> bool
    ensures { IsTrue result ↔ ((file.now.number ≡ number) × (file.now.generation ≡ generation) × (length file.now.live ≡ rows)) }
{
    file.number == number && file.generation == generation && file.live.len() == rows
}

/// What the live file says that the commit of the generation wrote of the segment of the number, of which there are so many
/// rows; else [`Refusal::Damaged`]. Want of memory never hides that the file is absent.
fn read_live_file<S: Shelf>(
    alloc: Global,
    shelf: &mut S,
    number: SegNo,
    generation: Generation,
    rows: usize,
) -> Result<Live, Refusal>
    ensures ok { IfOk result (λ live. HasLiveFile (MayHold (S.bytes shelf.old)) (record { number = number; file = generation }) live
        × (length live ≡ rows)) }
    ensures damaged { IfErr result (λ e. e ≡ Damaged → (live : List Bool)
        → HasLiveFile (Tells (S.bytes shelf.old)) (record { number = number; file = generation }) live → length live ≡ rows → ⊥) }
    ensures due { IfErr result (λ e. e ≡ Memory → S.bytes shelf.old (FileName.Live number generation) ≢ Some None) }
    ensures fails { FailsReading S.can_fail S.fault_count shelf.old shelf.new result }
    ensures frame { OnlyReads S.bytes S.may_leave S.can_fail shelf.old shelf.new }
{
    live_rows_are_told_by_their_bytes();
    let bytes = read_file(alloc, shelf, FileName::Live(number, generation))?;
    let file = decode_liv(alloc, &bytes)?;
    if !is_for(&file, number, generation, rows) {
        return Err(Refusal::Damaged);
    }
    Ok(file.live)
}

/// Which of so many rows of the listed segment are live: all, where it has no live file.
fn read_live<S: Shelf>(
    alloc: Global,
    shelf: &mut S,
    listed: ListedSegment,
    rows: usize,
) -> Result<Live, Refusal>
    requires { rows < 2 ^ 32 }
    ensures ok { IfOk result (λ live. HasLiveRows (MayHold (S.bytes shelf.old)) listed rows live × (length live ≡ rows)) }
    ensures damaged { IfErr result (λ e. e ≡ Damaged → (live : List Bool)
        → HasLiveRows (Tells (S.bytes shelf.old)) listed rows live → length live ≡ rows → ⊥) }
    ensures due { IfErr result (λ e. e ≡ Memory → listed.file ≢ 0 → S.bytes shelf.old (FileName.Live listed.number listed.file) ≢ Some None) }
    ensures fails { FailsReading S.can_fail S.fault_count shelf.old shelf.new result }
    ensures frame { OnlyReads S.bytes S.may_leave S.can_fail shelf.old shelf.new }
{
    let Some(generation) = listed.live_file() else {
        return Ok(Live::all(alloc, rows)?);
    };
    let live = read_live_file(alloc, shelf, listed.number(), generation, rows)?;
    Ok(live)
}

/// Whether so many bytes are the sources of the segment's rows.
fn are_sources(segment: &Segment, size: u64) -> bool
    ensures { IsTrue result ↔ (size ≡ sum (map (λ r. r.length) segment.now.rows)) }
{
    let last = segment.len() - 1;
    let offset = segment.source_offset(last);
    let length = u64::from(segment.source_length(last));
    size >= offset && size - offset == length
}

/// Judges the size of the file with the sources of the segment's rows. It takes no memory.
fn judge_sources<S: Shelf>(shelf: &mut S, segment: &Segment) -> Result<(), Refusal>
    ensures ok { OnOk result (HasSources (MayHold (S.bytes shelf.old)) segment.now) }
    ensures damaged { IfErr result (λ e. e ≡ Damaged → HasSources (Tells (S.bytes shelf.old)) segment.now → ⊥) }
    ensures refusal { IfErr result (λ e. (e ≡ Damaged) ⊎ (e ≡ Device)) }
    ensures fails { FailsReading S.can_fail S.fault_count shelf.old shelf.new result }
    ensures frame { OnlyReads S.bytes S.may_leave S.can_fail shelf.old shelf.new }
{
    let size = shelf.size(FileName::Source(segment.number()))?;
    if !are_sources(segment, size) {
        return Err(Refusal::Damaged);
    }
    Ok(())
}

/// The segment that is listed, and which of its rows are live; [`Refusal::Damaged`] where its files hold no leaf.
fn read_parts<S: Shelf>(
    alloc: Global,
    shelf: &mut S,
    schema: &Schema,
    listed: ListedSegment,
) -> Result<(Segment, Live), Refusal>
    ensures ok { IfOk result (λ p. IsLeafOf (MayHold (S.bytes shelf.old)) schema.now listed (record { segment = p.0; live = p.1 })) }
    ensures damaged { IfErr result (λ e. e ≡ Damaged → (leaf : model.Leaf) → IsLeafOf (Tells (S.bytes shelf.old)) schema.now listed leaf → ⊥) }
    ensures due { IfErr result (λ e. e ≡ Memory → S.bytes shelf.old (FileName.Segment listed.number) ≢ Some None) }
    ensures fails { FailsReading S.can_fail S.fault_count shelf.old shelf.new result }
    ensures frame { OnlyReads S.bytes S.may_leave S.can_fail shelf.old shelf.new }
{
    segments_are_told_by_their_bytes();
    let segment = read_segment(alloc, shelf, schema, listed.number())?;
    let rows = segment.len();
    let live = read_live(alloc, shelf, listed, rows)?;
    judge_sources(shelf, &segment)?;
    Ok((segment, live))
}

/// The leaf of the listed segment; [`Refusal::Damaged`] where its files hold none.
pub(crate) fn read_leaf<S: Shelf>(
    alloc: Global,
    shelf: &mut S,
    schema: &Schema,
    listed: ListedSegment,
) -> Result<Leaf, Refusal>
    ensures ok { IfOk result (IsLeafOf (MayHold (S.bytes shelf.old)) schema.now listed) }
    ensures damaged { IfErr result (λ e. e ≡ Damaged → (leaf : model.Leaf) → IsLeafOf (Tells (S.bytes shelf.old)) schema.now listed leaf → ⊥) }
    ensures due { IfErr result (λ e. e ≡ Memory → S.bytes shelf.old (FileName.Segment listed.number) ≢ Some None) }
    ensures fails { FailsReading S.can_fail S.fault_count shelf.old shelf.new result }
    ensures frame { OnlyReads S.bytes S.may_leave S.can_fail shelf.old shelf.new }
{
    let (segment, live) = read_parts(alloc, shelf, schema, listed)?;
    let segment = Arc::new(alloc, segment)?;
    let live = Arc::new(alloc, live)?;
    Ok(Leaf::new(segment, live))
}
