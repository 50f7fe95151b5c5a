//! The rows of a segment in the order of a page, one after another.
ghost use Rattle.std.specs.Prelude.{◌≡◌, ◌<◌, ◌≤◌, ◌++◌, [], All, false, length, take, MatchOption};
ghost use Rattle.std.specs.Iterator.{YieldsFirst, item_count};
ghost use Rattle.cat_views.specs.cat_segment.RowParts.{parts_of, rows_of_parts};
ghost use Rattle.cat_model.specs.RowSets.{has_row};
ghost use Rattle.cat_search.specs.Steps.{IsBehindMisses, IsNextRow, rows_of_parts_from};

use cat_columns::RowSet;
use cat_views::cat_segment::RowParts;
use std::marker::Model;

/// How many rows are passed in the time that it takes to come to the next part.
const PART_COST: usize = 4;

/// The first row of the parts from this index on: the row, with the index of the part behind its own and the rows behind it in
/// its own.
#[inline(never)]
fn first_from<'a>(parts: &RowParts<'a>, from: usize) -> Option<(u32, usize, &'a [u32])>
    requires { from ≤ length (parts_of parts.now) }
    ensures { MatchOption result (rows_of_parts_from parts.now from ≡ [])
        (λ step. IsNextRow parts.now from [] step.0 step.1 step.2.now) }
{
    let mut index = from;
    while index < parts.len() {
        let part = parts.part(index);
        index += 1;
        if let Some((row, rest)) = part.split_first() {
            return Some((*row, index, rest));
        }
    }
    None
}

/// The first of these rows, or else of the parts from this index on: the row, with the index of the part that comes then and
/// the rows that come before that part.
#[inline(always)]
fn next_step<'a>(
    parts: &RowParts<'a>,
    next: usize,
    left: &'a [u32],
) -> Option<(u32, usize, &'a [u32])>
    requires { next ≤ length (parts_of parts.now) }
    ensures { MatchOption result (left.now ++ rows_of_parts_from parts.now next ≡ [])
        (λ step. IsNextRow parts.now next left.now step.0 step.1 step.2.now) }
{
    match left.split_first() {
        Some((row, rest)) => Some((*row, next, rest)),
        None => first_from(parts, next),
    }
}

/// How many rows at the head of these are none of the set.
fn misses(set: &RowSet, rows: &[u32]) -> usize
    requires { All (λ row. row < length set.now) rows.now }
    ensures bound { result ≤ length rows.now }
    ensures missed { All (λ row. has_row set.now row ≡ false) (take result rows.now) }
{
    let mut count = 0;
    for row in rows {
        if set.contains(*row as usize) {
            return count;
        }
        count += 1;
    }
    count
}

/// How many rows at the head of these are none of the set, of which at most so many are looked at.
fn first_misses(set: &RowSet, rows: &[u32], most: usize) -> usize
    requires { All (λ row. row < length set.now) rows.now }
    ensures bound { result ≤ length rows.now }
    ensures missed { All (λ row. has_row set.now row ≡ false) (take result rows.now) }
{
    let (near, _) = rows.split_at(rows.len().min(most));
    misses(set, near)
}

/// These rows and those of the parts from this index on, but for those at their head that are none of the set, of which at most
/// so many are looked at: the index of the part that comes then and the rows that come before that part.
fn first_hit_from<'a>(
    parts: RowParts<'a>,
    next: usize,
    left: &'a [u32],
    set: &RowSet,
    most: usize,
) -> (usize, &'a [u32])
    requires part { next ≤ length (parts_of parts) }
    requires within { All (λ row. row < length set.now) (left.now ++ rows_of_parts_from parts next) }
    ensures part { result.0 ≤ length (parts_of parts.entry) }
    ensures missed { IsBehindMisses set.now (left.now ++ rows_of_parts_from parts.entry next)
        (result.1.now ++ rows_of_parts_from parts.entry result.0) }
{
    let mut following = next;
    let mut rows = left;
    let mut more = most;
    while following < parts.len() {
        let missed = first_misses(set, rows, more);
        if missed < rows.len() {
            let (_, rest) = rows.split_at(missed);
            return (following, rest);
        }
        rows = parts.part(following);
        following += 1;
        more = more.saturating_sub(missed).saturating_sub(PART_COST);
    }
    let (_, rest) = rows.split_at(first_misses(set, rows, more));
    (following, rest)
}

/// The rows of parts that are still to come, those of one part behind those of another.
#[derive(Drop)]
pub(crate) struct Steps<'a> {
    parts: RowParts<'a>,
    /// The index of the part that comes next.
    next: usize,
    /// The rows of the part in hand that are still to come.
    left: &'a [u32],
}

impl<'a> Model for Steps<'a> {
    ghost use Rattle.std.specs.Prelude.{ℕ, List, ◌≤◌, ◌++◌, length};
    ghost use Rattle.cat_views.specs.cat_segment.RowParts.{parts_of};
    ghost use Rattle.cat_search.specs.Steps.{rows_of_parts_from};

    ghost Value = { List ℕ };

    ghost view = { λ s. s.left.now ++ rows_of_parts_from s.parts s.next };

    ghost invariant = { λ s. s.next ≤ length (parts_of s.parts) };
}

impl<'a> Steps<'a> {
    /// All rows of the parts.
    pub(crate) fn of(parts: RowParts<'a>) -> Steps<'a>
        ensures { result ≡ rows_of_parts parts.entry }
    {
        if parts.len() == 0 {
            return Steps::behind(parts, 0, &[]);
        }
        Steps::behind(parts, 1, parts.part(0))
    }

    /// These rows, and then those of the parts from this index on.
    pub(crate) fn behind(parts: RowParts<'a>, next: usize, left: &'a [u32]) -> Steps<'a>
        requires { next ≤ length (parts_of parts) }
        ensures { result ≡ left.now ++ rows_of_parts_from parts.entry next }
    {
        Steps { parts, next, left }
    }

    /// The same rows once more.
    pub(crate) fn again(&self) -> Steps<'a>
        ensures { result ≡ self.now }
    {
        Steps::behind(self.parts, self.next, self.left)
    }

    /// The rows behind those at their head that are none of the set, of which at most so many are looked at.
    pub(crate) fn behind_misses(self, set: &RowSet, most: usize) -> Steps<'a>
        requires { All (λ row. row < length set.now) self }
        ensures { IsBehindMisses set.now self.entry result }
    {
        let (next, left) = first_hit_from(self.parts, self.next, self.left, set, most);
        Steps::behind(self.parts, next, left)
    }
}

impl<'a> Iterator for Steps<'a> {
    type Item = usize;

    ghost next_gives = { YieldsFirst (λ rows. rows) };

    ghost remaining = { item_count (λ rows. rows) };

    #[inline(always)]
    fn next(&mut self) -> Option<usize> {
        match next_step(&self.parts, self.next, self.left) {
            None => None,
            Some((row, next, left)) => {
                self.next = next;
                self.left = left;
                Some(row as usize)
            }
        }
    }
}
