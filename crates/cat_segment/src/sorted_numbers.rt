//! The numbers of a field, with the rows in their order.
ghost use Rattle.std.specs.Prelude.{◌≡◌, ◌<◌, ◌^◌, ◌+◌, None, IfOk, length, slice_index_or};
ghost use Rattle.std.specs.Ordering.{int_cmp};
ghost use Rattle.cat_segment.specs.NumberRuns.{AreRunEnds, changes_behind, same_number};
ghost use Rattle.cat_segment.specs.Orders.{IsOrderBy};

use crate::numbers::number_at;
use cat_columns::{NumberColumn, RowSet};
use std::alloc::{AllocError, Global};

/// Whether both are one number, or none.
fn are_same(a: Option<i64>, b: Option<i64>) -> bool
    ensures { result ≡ same_number a b }
{
    match (a, b) {
        (Some(x), Some(y)) => x == y,
        (None, None) => true,
        _ => false,
    }
}

/// Whether both rows have one number, or none.
pub(crate) fn have_same_number(column: &NumberColumn, a: u32, b: u32) -> bool
    ensures { result ≡ same_number (slice_index_or column.now a None) (slice_index_or column.now b None) }
{
    are_same(number_at(column, a), number_at(column, b))
}

/// The places of these rows, but for the last one, behind which a row with another number stands.
fn run_ends(alloc: Global, column: &NumberColumn, rows: &[u32]) -> Result<RowSet, AllocError>
    requires { length rows.now < 2 ^ 32 }
    ensures ok { IfOk result (λ ends. AreRunEnds column.now rows.now ends) }
{
    let mut ends = RowSet::none(alloc, rows.len())?;
    if rows.is_empty() {
        return Ok(ends);
    }
    // Each row's number is looked up once.
    let mut number = number_at(column, rows[0]);
    for place in 0..rows.len() - 1 {
        let next = number_at(column, rows[place + 1]);
        if !are_same(number, next) {
            ends.insert(place);
        }
        number = next;
    }
    Ok(ends)
}

/// The number of each row, with all rows in order, the least number first.
pub(crate) struct SortedNumbers {
    pub(crate) values: NumberColumn,
    pub(crate) rising: Vec<u32>,
    // The places behind which a row with another number stands.
    ends: RowSet,
    ghost told: { AreRunEnds values rising.items ends },
}

impl Drop for SortedNumbers {
    fn drop(self) {
        let SortedNumbers {
            values,
            rising,
            ends,
        } = self;
        drop(values);
        drop(rising);
        drop(ends);
    }
}

impl SortedNumbers {
    /// These numbers, with all rows in order.
    pub(crate) fn of(
        alloc: Global,
        values: NumberColumn,
        rising: Vec<u32>,
    ) -> Result<SortedNumbers, AllocError>
        requires { IsOrderBy int_cmp values rising.items }
        ensures values { IfOk result (λ s. s.values ≡ values) }
        ensures rising { IfOk result (λ s. s.rising.items ≡ rising.items) }
    {
        // Its contract says that there are few enough rows.
        let _rows = values.len();
        let ends = run_ends(alloc, &values, &rising)?;
        Ok(SortedNumbers {
            values,
            rising,
            ends,
        })
    }

    /// All rows, the least number first.
    pub(crate) fn rising(&self) -> &[u32]
        ensures { result.now ≡ self.now.rising.items }
    {
        &self.rising
    }

    /// Whether a row with another number stands behind the row at this place.
    pub(crate) fn is_run_end(&self, place: usize) -> bool
        requires { place + 1 < length self.now.rising.items }
        ensures { result ≡ changes_behind self.now.values self.now.rising.items place }
    {
        self.ends.contains(place)
    }
}
