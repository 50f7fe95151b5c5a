//! The rows of a number field, the greatest number first: the rows in rising order, read from the last one down.
ghost use Rattle.std.specs.Prelude.{◌≡◌, ◌<◌, ◌≤◌, ◌+◌, [], AllPairs, IfSome, None, drop, length, slice_index_or, take, true};
ghost use Rattle.std.specs.List.{flat_map};
ghost use Rattle.std.specs.Ordering.{int_cmp};
ghost use Rattle.cat_segment.specs.NumberRuns.{EndsRunOf, ends_run, run_at, run_through, same_number};
ghost use Rattle.cat_segment.specs.Orders.{row_before};

use crate::sorted_numbers::{SortedNumbers, have_same_number};

/// The rows of a number field in parts, the greatest number first, as a stretch of the rows in rising order tells them (Lucene:
/// a reversed `NumericComparator`, over the same `PointValues` as one that is not).
///
/// There is a part for each place of the stretch, the last place first. Of rows that have one number the lower one stands first,
/// so all of them are the part at the place of the last one, and the parts at the places of the others are empty. Behind them
/// stands one more part, which the caller gives.
#[derive(Clone, Copy)]
pub struct NumberRuns<'a> {
    numbers: &'a SortedNumbers,
    // Where the stretch begins, and where it ends.
    from: u32,
    to: u32,
    ghost ordered: { from ≤ to },
    ghost within: { to ≤ length numbers.now.rising.items },
    ghost rising: { AllPairs (λ a b. row_before int_cmp numbers.now.values a b ≡ true) (drop from (take to numbers.now.rising.items)) },
}

impl<'a> NumberRuns<'a> {
    ghost use Rattle.cat_segment.specs.RowParts.{EndsIn, parts_of_runs, rows_behind, rows_of_runs};

    /// The parts of the rows from the one place to the other, which all have a number.
    pub(crate) fn of(numbers: &'a SortedNumbers, from: u32, to: u32) -> NumberRuns<'a>
        requires ordered { from ≤ to }
        requires within { to ≤ length numbers.now.rising.items }
        requires rising { AllPairs (λ a b. row_before int_cmp numbers.now.values a b ≡ true)
            (drop from (take to numbers.now.rising.items)) }
        ensures values { result.numbers.now.values ≡ numbers.now.values }
        ensures rows { rows_of_runs result ≡ drop from (take to numbers.now.rising.items) }
        ensures behind { rows_behind result ≡ drop to numbers.now.rising.items }
    {
        NumberRuns { numbers, from, to }
    }

    /// The rows of the stretch, the least number first.
    fn rows(&self) -> &'a [u32]
        ensures rows { result.now ≡ rows_of_runs self.now }
        ensures rising { AllPairs (λ a b. row_before int_cmp self.now.numbers.now.values a b ≡ true) result.now }
    {
        let (front, _) = self.numbers.rising().split_at(self.to as usize);
        let (_, rows) = front.split_at(self.from as usize);
        rows
    }

    /// The rows behind the stretch.
    pub(crate) fn behind(&self) -> &'a [u32]
        ensures { result.now ≡ rows_behind self.now }
    {
        let (_, behind) = self.numbers.rising().split_at(self.to as usize);
        behind
    }

    /// Where among all rows the row at this place of the stretch stands.
    fn whole_place(&self, place: usize) -> usize
        requires { place < length (rows_of_runs self.now) }
        ensures { result ≡ self.now.from + place }
    {
        self.from as usize + place
    }

    /// Whether the row at this place of the stretch is the last one there with its number.
    fn is_run_end(&self, place: usize) -> bool
        requires { place < length (rows_of_runs self.now) }
        ensures { result ≡ ends_run self.now.numbers.now.values (rows_of_runs self.now) place }
    {
        place + 1 == self.len() || self.numbers.is_run_end(self.whole_place(place))
    }

    /// Where those of these rows, which are the stretch, begin that stand up to this place and have the number of the row there.
    fn run_start(&self, rows: &[u32], place: usize) -> usize
        requires rows { rows.now ≡ rows_of_runs self.now }
        requires within { place < length rows.now }
        ensures bound { result ≤ place + 1 }
        ensures run { drop result (take (place + 1) rows.now) ≡ run_through self.now.numbers.now.values rows.now place }
    {
        // Most runs have one row.
        if place == 0 || self.is_run_end(place - 1) {
            return place;
        }
        let column = &self.numbers.values;
        let row = rows[place];
        let (front, _) = rows.split_at(place + 1);
        front.partition_point(|earlier| !have_same_number(column, row, *earlier))
    }

    /// Those of these rows, which are the stretch, that have the number of the row at this place, if it is the last one of them;
    /// else none.
    fn run_ending_at(&self, rows: &'a [u32], place: usize) -> &'a [u32]
        requires rows { rows.now ≡ rows_of_runs self.now }
        requires within { place < length rows.now }
        ensures { result.now ≡ run_at self.now.numbers.now.values rows.now place }
    {
        if !self.is_run_end(place) {
            return &[];
        }
        let (front, _) = rows.split_at(place + 1);
        let (_, run) = front.split_at(self.run_start(rows, place));
        run
    }

    /// The place of the last one of these rows, which are the stretch, that has the number of the row at this place.
    fn run_end(&self, rows: &[u32], place: usize) -> usize
        requires rows { rows.now ≡ rows_of_runs self.now }
        requires within { place < length rows.now }
        ensures { EndsRunOf self.now.numbers.now.values rows.now place result }
    {
        if self.is_run_end(place) {
            return place;
        }
        let column = &self.numbers.values;
        let row = rows[place];
        let (_, behind) = rows.split_at(place + 1);
        place + behind.partition_point(|later| have_same_number(column, row, *later))
    }

    /// How many places there are.
    pub(crate) fn len(&self) -> usize
        ensures { result ≡ length (rows_of_runs self.now) }
    {
        (self.to - self.from) as usize
    }

    /// The part of this index, where this one stands last. It takes a binary search where the part has more than one row.
    #[inline(never)]
    pub(crate) fn part(&self, index: usize, last: &'a [u32]) -> &'a [u32]
        requires { index < length (parts_of_runs self.now last.now) }
        ensures { result.now ≡ slice_index_or (parts_of_runs self.now last.now) index [] }
    {
        let rows = self.rows();
        if index < rows.len() {
            self.run_ending_at(rows, rows.len() - 1 - index)
        } else {
            last
        }
    }

    /// The last row of the parts up to the one of this index, where this one stands last: there is one for each place.
    #[inline(never)]
    pub(crate) fn last_through(&self, index: usize, last: &'a [u32]) -> Option<u32>
        requires { index < length (parts_of_runs self.now last.now) }
        ensures { IfSome result (λ row. EndsIn (flat_map (λ part. part) (take (index + 1) (parts_of_runs self.now last.now))) row) }
    {
        let rows = self.rows();
        if index < rows.len() {
            let end = self.run_end(rows, rows.len() - 1 - index);
            Some(rows[end])
        } else {
            last.last().copied()
        }
    }
}
