//! Where the texts stand that the items of kept rows came as.
ghost use Rattle.std.specs.Prelude.{◌≡◌, ◌<◌, ◌+◌, ◌++◌, ℕ, List, None, length, Any, IfSome, OnOk};
ghost use Rattle.std.specs.List.{flat_map};
ghost use Rattle.cat_model.specs.View.{Leaf};
ghost use Rattle.cat_merge.specs.Copied.{bytes_in, source_in};
ghost use Rattle.cat_merge.specs.Ranges.{AreRangesApart, AreWithin, CanBeOne, IsWithin};

use cat_base::SegNo;
use cat_views::cat_segment::Segment;
use std::alloc::AllocError;

/// Bytes of the file with the sources of a segment's rows, which a merge has to copy.
#[derive(Clone, Copy, Drop)]
pub struct SourceRange {
    /// The segment.
    pub segment: SegNo,
    /// How many bytes of the file stand before them.
    pub offset: u64,
    /// How many bytes they are.
    pub len: u32,
}

/// The bytes of both ranges, where the second follows the first at once and both are no longer than a range can be.
fn joined(first: &SourceRange, second: &SourceRange) -> Option<SourceRange>
    ensures bytes { IfSome result (λ both. (files : ℕ → List ℕ) → bytes_in files both ≡ bytes_in files first.now ++ bytes_in files second.now) }
    ensures start { IfSome result (λ both. (both.segment ≡ first.now.segment) × (both.offset ≡ first.now.offset)) }
    ensures end { IfSome result (λ both. (both.segment ≡ second.now.segment) × (both.offset + both.len ≡ second.now.offset + second.now.len)) }
    ensures len { IfSome result (λ both. both.len ≡ first.now.len + second.now.len) }
    ensures none { result ≡ None → CanBeOne first.now second.now → ⊥ }
{
    let gap = second.offset.checked_sub(first.offset)?;
    if first.segment != second.segment || gap != u64::from(first.len) {
        return None;
    }
    Some(SourceRange {
        segment: first.segment,
        offset: first.offset,
        len: first.len.checked_add(second.len)?,
    })
}

/// Adds the range behind the others, as a part of the last where both can be one.
fn add_range(ranges: &mut Vec<SourceRange>, next: SourceRange) -> Result<(), AllocError>
    ensures bytes { OnOk result ((files : ℕ → List ℕ) → flat_map (bytes_in files) ranges.new.items
        ≡ flat_map (bytes_in files) ranges.old.items ++ bytes_in files next) }
    ensures apart { OnOk result (AreRangesApart ranges.old.items → AreRangesApart ranges.new.items) }
    ensures within { OnOk result ((inputs : List Leaf) → AreWithin inputs ranges.old.items → Any (IsWithin next) inputs
        → AreWithin inputs ranges.new.items) }
{
    match ranges.pop() {
        Some(last) => match joined(&last, &next) {
            Some(both) => ranges.push(both)?,
            None => {
                ranges.push(last)?;
                ranges.push(next)?;
            }
        },
        None => ranges.push(next)?,
    }
    Ok(())
}

/// Adds where the text of the row stands.
pub(crate) fn add_source(
    ranges: &mut Vec<SourceRange>,
    segment: &Segment,
    row: usize,
) -> Result<(), AllocError>
    requires { row < length segment.now.rows }
    ensures bytes { OnOk result ((files : ℕ → List ℕ) → flat_map (bytes_in files) ranges.new.items
        ≡ flat_map (bytes_in files) ranges.old.items ++ source_in files segment.now row) }
    ensures apart { OnOk result (AreRangesApart ranges.old.items → AreRangesApart ranges.new.items) }
    ensures within { OnOk result ((inputs : List Leaf) → AreWithin inputs ranges.old.items → Any (λ leaf. leaf.segment ≡ segment.now) inputs
        → AreWithin inputs ranges.new.items) }
{
    add_range(
        ranges,
        SourceRange {
            segment: segment.number(),
            offset: segment.source_offset(row),
            len: segment.source_length(row),
        },
    )
}
