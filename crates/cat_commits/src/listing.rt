//! The segments of a commit as their bytes lie in its file, 16 for each: its number, and the commit that wrote its live rows.
ghost use Rattle.std.specs.Prelude.{◌≡◌, ◌+◌, ◌*◌, ◌/◌, ◌<◌, ◌≤◌, ◌↔◌, length, IfOk, IsTrue, option_map};
ghost use Rattle.cat_items.specs.file_parts.Reading.{many_at, rest_of};
ghost use Rattle.cat_commits.specs.Layouts.{listed_at};
ghost use Rattle.cat_commits.specs.Listings.{number_in_listing, listed_segment_at, all_listed_in, NumbersDiffer, DiffersFrom};

use crate::commit::ListedSegment;
use crate::cursor::take_u64;
use cat_base::{Cursor, Generation, SegNo};
use std::alloc::{AllocError, Global};
use std::collections::HashSet;

/// How many bytes a segment has there.
pub(crate) const SEGMENT_BYTES: usize = 16;

/// The next segment of a commit of the generation, whose number is below the next one.
#[tactic(auto, unfolding(crate::specs::Layouts::listed_at, cat_items::specs::file_parts::Reading::both_at, cat_items::specs::file_parts::Reading::where_at))]
fn take_segment(
    generation: Generation,
    next: SegNo,
    cursor: &mut Cursor<'_>,
) -> Option<ListedSegment>
    ensures { option_map (λ s. (s, cursor.new)) result ≡ listed_at generation next cursor.old }
{
    let number = take_u64(cursor)?;
    if number == 0 || number >= next {
        return None;
    }
    let file = take_u64(cursor)?;
    if file > generation {
        return None;
    }
    Some(ListedSegment::of(number, file))
}

/// Passes over so many segments, each judged, without taking memory.
pub(crate) fn pass_segments(
    count: u32,
    generation: Generation,
    next: SegNo,
    cursor: &mut Cursor<'_>,
) -> Option<()>
    ensures { option_map (λ done. cursor.new) result ≡ rest_of (many_at (listed_at generation next) count cursor.old) }
{
    for _ in 0..count {
        take_segment(generation, next, cursor)?;
    }
    Some(())
}

/// The number of 8 bytes from this offset on.
#[tactic(auto, unfolding(crate::specs::Listings::number_in_listing))]
fn number_at(bytes: &[u8], offset: usize) -> u64
    requires { offset + 8 ≤ length bytes.now }
    ensures { result ≡ number_in_listing bytes.now offset }
{
    let found = &bytes[offset..offset + 8];
    u64::from_be_bytes([
        found[0], found[1], found[2], found[3], found[4], found[5], found[6], found[7],
    ])
}

/// The segment of the index.
fn segment_at(listing: &[u8], index: usize) -> ListedSegment
    requires { 16 * index + 16 ≤ length listing.now }
    ensures { result ≡ listed_segment_at listing.now index }
{
    let offset = SEGMENT_BYTES * index;
    ListedSegment::of(number_at(listing, offset), number_at(listing, offset + 8))
}

/// All of them.
pub(crate) fn segments(alloc: Global, listing: &[u8]) -> Result<Vec<ListedSegment>, AllocError>
    ensures { IfOk result (λ v. v.items ≡ all_listed_in (length listing.now / 16) listing.now) }
{
    let count = listing.len() / SEGMENT_BYTES;
    let mut segments = Vec::with_capacity(alloc, count)?;
    for index in 0..count {
        segments.push(segment_at(listing, index))?;
    }
    Ok(segments)
}

/// Whether their numbers differ. Where memory is refused, it takes longer.
pub(crate) fn numbers_differ(alloc: Global, listing: &[u8]) -> bool
    ensures { IsTrue result ↔ NumbersDiffer listing.now }
{
    match numbers_differ_by_hash(alloc, listing) {
        Ok(differ) => differ,
        Err(AllocError) => numbers_differ_one_by_one(listing),
    }
}

/// The same, by a set of the numbers.
fn numbers_differ_by_hash(alloc: Global, listing: &[u8]) -> Result<bool, AllocError>
    ensures { IfOk result (λ differ. IsTrue differ ↔ NumbersDiffer listing.now) }
{
    let count = listing.len() / SEGMENT_BYTES;
    let mut seen = HashSet::with_capacity(alloc, count)?;
    for index in 0..count {
        if !seen.insert(segment_at(listing, index).number())? {
            return Ok(false);
        }
    }
    Ok(true)
}

/// The same, in no memory, comparing each with each.
fn numbers_differ_one_by_one(listing: &[u8]) -> bool
    ensures { IsTrue result ↔ NumbersDiffer listing.now }
{
    for index in 0..listing.len() / SEGMENT_BYTES {
        if !differs_from_earlier(listing, index) {
            return false;
        }
    }
    true
}

/// Whether the number of the segment of the index is none of an earlier one.
fn differs_from_earlier(listing: &[u8], index: usize) -> bool
    requires { 16 * index + 16 ≤ length listing.now }
    ensures { IsTrue result ↔ DiffersFrom listing.now index }
{
    let number = segment_at(listing, index).number();
    for earlier in 0..index {
        if segment_at(listing, earlier).number() == number {
            return false;
        }
    }
    true
}
