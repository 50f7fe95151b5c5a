//! The rows whose numbers lie in a range: a stretch of the rows in order, which two binary searches find.
ghost use Rattle.std.specs.Prelude.{◌≡◌, ◌<◌, ◌≤◌, ◌^◌, All, AllPairs, None, IfOk, drop, false, filter, length, not, replicate};
ghost use Rattle.std.specs.Prelude.{slice_index_or, take, true};
ghost use Rattle.std.specs.Ordering.{int_cmp};
ghost use Rattle.cat_model.specs.Query.{has_some, int_le, open_or};
ghost use Rattle.cat_model.specs.RowSets.{with_rows};
ghost use Rattle.cat_segment.specs.Orders.{row_before};
ghost use Rattle.cat_segment.specs.Ranges.{lies_between};

use crate::numbers::number_at;
use cat_columns::{NumberColumn, RowSet};
use std::alloc::{AllocError, Global};

/// Whether the row has a number, at most the high end; each number is where the end is open.
fn is_at_most(column: &NumberColumn, row: u32, high: Option<i64>) -> bool
    ensures { result ≡ has_some (λ n. open_or (int_le n) high) (slice_index_or column.now row None) }
{
    match (number_at(column, row), high) {
        (Some(number), Some(high)) => number <= high,
        (Some(_), None) => true,
        (None, _) => false,
    }
}

/// Whether the row has a number, below the low end; none is where the end is open.
fn is_below(column: &NumberColumn, row: u32, low: Option<i64>) -> bool
    ensures { result ≡ has_some (λ n. not (open_or (λ a. int_le a n) low)) (slice_index_or column.now row None) }
{
    match (number_at(column, row), low) {
        (Some(number), Some(low)) => number < low,
        _ => false,
    }
}

/// Where those of the rows, which stand in order, the least number first, begin and end whose number lies between the two.
pub(crate) fn rising_stretch(
    column: &NumberColumn,
    rows: &[u32],
    low: Option<i64>,
    high: Option<i64>,
) -> (usize, usize)
    requires { AllPairs (λ a b. row_before int_cmp column.now a b ≡ true) rows.now }
    ensures ordered { result.0 ≤ result.1 }
    ensures within { result.1 ≤ length rows.now }
    ensures rows { drop result.0 (take result.1 rows.now)
        ≡ filter (λ row. lies_between low high (slice_index_or column.now row None)) rows.now }
{
    let count = rows.partition_point(|row| is_at_most(column, *row, high));
    let (front, _) = rows.split_at(count);
    let passed = front.partition_point(|row| is_below(column, *row, low));
    (passed, count)
}

/// Those of the rows, which stand in order, the least number first, whose number lies between the two.
pub(crate) fn rising_range<'a>(
    column: &NumberColumn,
    rows: &'a [u32],
    low: Option<i64>,
    high: Option<i64>,
) -> &'a [u32]
    requires { AllPairs (λ a b. row_before int_cmp column.now a b ≡ true) rows.now }
    ensures { result.now ≡ filter (λ row. lies_between low high (slice_index_or column.now row None)) rows.now }
{
    let (from, to) = rising_stretch(column, rows, low, high);
    let (front, _) = rows.split_at(to);
    let (_, left) = front.split_at(from);
    left
}

/// The set of these rows out of `len`.
pub(crate) fn set_of_rows(alloc: Global, rows: &[u32], len: usize) -> Result<RowSet, AllocError>
    requires few { len < 2 ^ 32 }
    requires within { All (λ row. row < len) rows.now }
    ensures ok { IfOk result (λ s. s ≡ with_rows rows.now (replicate len false)) }
{
    let mut set = RowSet::none(alloc, len)?;
    set.insert_all(rows);
    Ok(set)
}
