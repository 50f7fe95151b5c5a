//! The second, finer look at a commit that isn't whole: which of its files breaks which rule.
ghost use Rattle.std.specs.Prelude.{◌≡◌, ◌<◌, ◌^◌, length, vec_len, Ok, IfOk, IfSome};
ghost use Rattle.cat_directory.specs.Frames.{OnlyReads};

use crate::fault::{Fault, Rule};
use crate::look_together::{id_twice, out_of_order};
use cat_base::{Generation, Refusal, SegNo};
use cat_commits::reading::read_file;
use cat_commits::{Commit, Leaf, ListedSegment};
use cat_directory::{FileName, Shelf};
use cat_items::Schema;
use cat_segment::{Live, Segment, decode_liv, decode_seg};
use std::alloc::{AllocError, Global};
use std::sync::Arc;

/// Why a look at a file found nothing that could be used.
#[derive(Drop)]
enum Stop {
    Breaks(Rule),
    Memory,
}

/// What was answered, where damage breaks this rule.
fn found<T: Drop>(answer: Result<T, Refusal>, rule: Rule) -> Result<T, Stop> {
    match answer {
        Ok(value) => Ok(value),
        Err(Refusal::Damaged) => Err(Stop::Breaks(rule)),
        Err(Refusal::Memory) => Err(Stop::Memory),
        Err(_) => Err(Stop::Breaks(Rule::Unread)),
    }
}

/// The segment that the commit lists, in its file.
fn look_at_segment<S: Shelf>(
    alloc: Global,
    shelf: &mut S,
    schema: &Schema,
    number: SegNo,
) -> Result<Segment, Stop>
    ensures frame { OnlyReads S.bytes S.may_leave S.can_fail shelf.old shelf.new }
{
    let answer = read_file(alloc, shelf, FileName::Segment(number));
    let bytes = found(answer, Rule::Absent)?;
    let segment = found(decode_seg(alloc, &bytes), Rule::NoSegment)?;
    if segment.number() != number {
        return Err(Stop::Breaks(Rule::OtherSegment(segment.number())));
    }
    if *segment.schema() != *schema {
        return Err(Stop::Breaks(Rule::OtherFields));
    }
    Ok(segment)
}

/// The live rows in the file that the commit of the generation wrote, of a segment of so many rows.
fn look_at_live_file<S: Shelf>(
    alloc: Global,
    shelf: &mut S,
    number: SegNo,
    generation: Generation,
    rows: usize,
) -> Result<Live, Stop>
    ensures long { IfOk result (λ live. length live ≡ rows) }
    ensures frame { OnlyReads S.bytes S.may_leave S.can_fail shelf.old shelf.new }
{
    let answer = read_file(alloc, shelf, FileName::Live(number, generation));
    let bytes = found(answer, Rule::Absent)?;
    let file = found(decode_liv(alloc, &bytes), Rule::NoLiveRows)?;
    if file.number != number || file.generation != generation {
        return Err(Stop::Breaks(Rule::OtherLiveRows(file.number, file.generation)));
    }
    if file.live.len() != rows {
        return Err(Stop::Breaks(Rule::OtherRows(file.live.len() as u64, rows as u64)));
    }
    Ok(file.live)
}

/// How many bytes the texts of the segment's items have together.
fn sources_size(segment: &Segment) -> u64 {
    let last = segment.len() - 1;
    let offset = segment.source_offset(last);
    offset.saturating_add(u64::from(segment.source_length(last)))
}

/// The file with the texts of the segment's items.
fn look_at_sources<S: Shelf>(shelf: &mut S, segment: &Segment) -> Result<(), Stop>
    ensures frame { OnlyReads S.bytes S.may_leave S.can_fail shelf.old shelf.new }
{
    let answer = shelf.size(FileName::Source(segment.number()));
    let size = found(answer, Rule::Absent)?;
    let wanted = sources_size(segment);
    if size != wanted {
        return Err(Stop::Breaks(Rule::OtherSize(size, wanted)));
    }
    Ok(())
}

/// Notes the rule that the file breaks, if it does.
fn note<T: Drop>(
    faults: &mut Vec<Fault>,
    file: FileName,
    looked: Result<T, Stop>,
) -> Result<Option<T>, AllocError>
    ensures { IfOk result (λ found. IfSome found (λ value. looked ≡ Ok value)) }
{
    match looked {
        Ok(value) => Ok(Some(value)),
        Err(Stop::Breaks(rule)) => {
            faults.push(Fault { file, rule })?;
            Ok(None)
        }
        Err(Stop::Memory) => Err(AllocError),
    }
}

/// The live rows of the listed segment, of so many.
fn look_at_live<S: Shelf>(
    alloc: Global,
    shelf: &mut S,
    listed: ListedSegment,
    rows: usize,
    faults: &mut Vec<Fault>,
) -> Result<Option<Live>, AllocError>
    requires { rows < 2 ^ 32 }
    ensures frame { OnlyReads S.bytes S.may_leave S.can_fail shelf.old shelf.new }
    ensures long { IfOk result (λ found. IfSome found (λ live. length live ≡ rows)) }
{
    let Some(generation) = listed.live_file() else {
        return Ok(Some(Live::all(alloc, rows)?));
    };
    let number = listed.number();
    let looked = look_at_live_file(alloc, shelf, number, generation, rows);
    note(faults, FileName::Live(number, generation), looked)
}

/// The listed segment with its live rows, where its files break no rule by themselves.
fn look_at_listed<S: Shelf>(
    alloc: Global,
    shelf: &mut S,
    schema: &Schema,
    listed: ListedSegment,
    faults: &mut Vec<Fault>,
) -> Result<Option<Leaf>, AllocError>
    ensures frame { OnlyReads S.bytes S.may_leave S.can_fail shelf.old shelf.new }
{
    let number = listed.number();
    let looked = look_at_segment(alloc, shelf, schema, number);
    let Some(segment) = note(faults, FileName::Segment(number), looked)? else {
        return Ok(None);
    };
    let looked = look_at_sources(shelf, &segment);
    let _sources = note(faults, FileName::Source(number), looked)?;
    let rows = segment.len();
    let Some(live) = look_at_live(alloc, shelf, listed, rows, faults)? else {
        return Ok(None);
    };
    let segment = Arc::new(alloc, segment)?;
    let live = Arc::new(alloc, live)?;
    Ok(Some(Leaf::new(segment, live)))
}

/// The listed segments with their live rows, as far as their files break no rule by themselves.
fn look_at_segments<S: Shelf>(
    alloc: Global,
    shelf: &mut S,
    commit: &Commit,
    faults: &mut Vec<Fault>,
) -> Result<Vec<Leaf>, AllocError>
    ensures frame { OnlyReads S.bytes S.may_leave S.can_fail shelf.old shelf.new }
{
    let mut leaves = Vec::new(alloc);
    for listed in &commit.segments {
        if let Some(leaf) = look_at_listed(alloc, shelf, &commit.schema, *listed, faults)? {
            leaves.push(leaf)?;
        }
    }
    Ok(leaves)
}

/// Notes which files of the leaves don't fit to those before them.
fn look_at_all(
    alloc: Global,
    commit: &Commit,
    leaves: &[Leaf],
    faults: &mut Vec<Fault>,
) -> Result<(), AllocError> {
    if let Some(fault) = out_of_order(leaves, commit.token) {
        faults.push(fault)?;
    }
    if let Some(fault) = id_twice(alloc, leaves)? {
        faults.push(fault)?;
    }
    Ok(())
}

/// The rules that files of the commit break, of which an opening found that it isn't whole: one at least. Only where each file
/// is right by itself they are looked at together.
pub(crate) fn look<S: Shelf>(
    alloc: Global,
    shelf: &mut S,
    commit: &Commit,
    generation: Generation,
) -> Result<Vec<Fault>, AllocError>
    ensures some { IfOk result (λ faults. 0 < vec_len faults) }
    ensures frame { OnlyReads S.bytes S.may_leave S.can_fail shelf.old shelf.new }
{
    let mut faults = Vec::new(alloc);
    let file = FileName::Commit(generation);
    if commit.generation != generation {
        let rule = Rule::OtherCommit(commit.generation);
        faults.push(Fault { file, rule })?;
    }
    let leaves = look_at_segments(alloc, shelf, commit, &mut faults)?;
    if faults.is_empty() {
        look_at_all(alloc, commit, &leaves, &mut faults)?;
    }
    if faults.is_empty() {
        let rule = Rule::Together;
        faults.push(Fault { file, rule })?;
    }
    Ok(faults)
}
