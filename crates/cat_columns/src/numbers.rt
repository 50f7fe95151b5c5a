//! A column of numbers, with the rows that have one.
ghost use Rattle.std.specs.Prelude.{◌≡◌, ℕ, ℤ, pos, ◌+◌, ◌*◌, ◌/◌, ◌^◌, ◌<◌, ◌≤◌, false, ◌&&◌, length, map, IfOk, None, slice_index_or, unwrap_or, is_some, Some};
ghost use Rattle.cat_model.specs.Query.{has_some, open_or, int_le};
ghost use Rattle.cat_columns.specs.Bits.{has_bit, is_set};
ghost use Rattle.cat_columns.specs.Columns.{is_within, is_between};

use crate::row_set::RowSet;
use std::alloc::{AllocError, Global};
use std::marker::Model;

/// A number for each row, or none: Lucene's `NumericDocValues`.
///
/// Contracts see it as the list of the rows' numbers.
pub struct NumberColumn {
    present: RowSet,
    /// 0 for a row without a number.
    values: Vec<i64>,
}

impl Model for NumberColumn {
    ghost use Rattle.std.specs.Prelude.{List, Option, ℤ};
    ghost use Rattle.cat_columns.specs.Columns.{numbers, IsNumbers};

    ghost Value = { List (Option ℤ) };

    ghost view = { λ c. numbers c.present c.values.items };

    ghost invariant = { λ c. IsNumbers c.present c.values.items };
}

impl Drop for NumberColumn {
    fn drop(self) {
        let NumberColumn { present, values } = self;
        drop(present);
        drop(values);
    }
}

/// Whether the value lies between the two, both included.
fn within(low: i64, high: i64, value: i64) -> bool
    ensures { result ≡ is_within low high value }
{
    low <= value && value <= high
}

/// One bit for each of at most 64 values, from the lowest: whether it lies between the two, where an absent end is open.
/// No branch depends on a value.
fn block_between(values: &[i64], low: Option<i64>, high: Option<i64>) -> u64
    requires { length values.now ≤ 64 }
    ensures { (i : ℕ) → has_bit result i ≡ slice_index_or (map (is_between low high) values.now) i false }
{
    let low = low.unwrap_or(i64::MIN);
    let high = high.unwrap_or(i64::MAX);
    let mut block = 0u64;
    for (bit, value) in values.iter().enumerate() {
        block |= (within(low, high, *value) as u64) << bit;
    }
    block
}

/// One bit for each of the 64 values from `64 * block` on, or of as many as there are, from the lowest: whether it lies between
/// the two, where an absent end is open.
fn block_at(values: &[i64], block: usize, low: Option<i64>, high: Option<i64>) -> u64
    requires few { length values.now < 2 ^ 32 }
    requires within { 64 * block < length values.now }
    ensures bits { (i : ℕ) → i < 64 → has_bit result i ≡ slice_index_or (map (is_between low high) values.now) (64 * block + i) false }
    ensures rest { (i : ℕ) → 64 ≤ i → has_bit result i ≡ false }
{
    let (_, rest) = values.split_at(64 * block);
    let (near, _) = rest.split_at(rest.len().min(64));
    block_between(near, low, high)
}

/// The blocks of the set of the values that lie between the two.
fn blocks_between(
    alloc: Global,
    values: &[i64],
    low: Option<i64>,
    high: Option<i64>,
) -> Result<Vec<u64>, AllocError>
    ensures long { IfOk result (λ v. length v.items ≡ (length values.now + 63) / 64) }
    ensures bits { IfOk result (λ v. (row : ℕ) → is_set v.items row ≡ slice_index_or (map (is_between low high) values.now) row false) }
{
    let mut blocks = Vec::with_capacity(alloc, values.len() / 64 + 1)?;
    for chunk in values.chunks(64) {
        blocks.push(block_between(chunk, low, high))?;
    }
    Ok(blocks)
}

/// The rows whose value lies between the two, where an absent end is open.
fn rows_between(
    alloc: Global,
    values: &[i64],
    low: Option<i64>,
    high: Option<i64>,
) -> Result<RowSet, AllocError>
    requires { length values.now < 2 ^ 32 }
    ensures ok { IfOk result (λ s. s ≡ map (is_between low high) values.now) }
{
    let blocks = blocks_between(alloc, values, low, high)?;
    Ok(RowSet::from_blocks(values.len(), blocks))
}

/// The rows that have a number.
fn rows_with_number(alloc: Global, values: &[Option<i64>]) -> Result<RowSet, AllocError>
    requires { length values.now < 2 ^ 32 }
    ensures ok { IfOk result (λ s. s ≡ map is_some values.now) }
{
    let mut set = RowSet::none(alloc, values.len())?;
    for (row, value) in values.iter().enumerate() {
        if value.is_some() {
            set.insert(row);
        }
    }
    Ok(set)
}

/// The numbers, with 0 for none.
fn plain(alloc: Global, values: &[Option<i64>]) -> Result<Vec<i64>, AllocError>
    ensures ok { IfOk result (λ v. v.items ≡ map (λ n. unwrap_or n (pos 0)) values.now) }
{
    let numbers = values
        .iter()
        .map(|value| value.unwrap_or(0))
        .collect(alloc)?;
    Ok(numbers)
}

impl NumberColumn {
    /// The column of the rows' numbers. A refusal is [`Refusal::Memory`].
    pub fn of(alloc: Global, values: &[Option<i64>]) -> Result<Self, AllocError>
        requires few { length values.now < 2 ^ 32 }
        ensures ok { IfOk result (λ c. c ≡ values.now) }
    {
        let present = rows_with_number(alloc, values)?;
        let values = plain(alloc, values)?;
        Ok(NumberColumn { present, values })
    }

    /// How many rows there are.
    pub fn len(&self) -> usize
        ensures value { result ≡ length self.now }
        ensures few { length self.now < 2 ^ 32 }
    {
        self.present.len()
    }

    /// The number of the row, if it has one (`NumericDocValues.advanceExact`, `longValue`).
    pub fn value(&self, row: usize) -> Option<i64>
        requires { row < length self.now }
        ensures { result ≡ slice_index_or self.now row None }
    {
        if self.present.contains(row) {
            Some(self.values[row])
        } else {
            None
        }
    }

    /// One bit for each of the 64 rows from `64 * block` on, or of as many as there are, from the lowest: whether the row's number
    /// lies between the two, both included, where an absent end is open. A row without a number may have its bit or not: a look
    /// at each row's presence would cost half as much again, and [`NumberColumn::value`] tells it of the few that are left. No
    /// memory is asked for.
    pub fn block_between(&self, block: usize, low: Option<i64>, high: Option<i64>) -> u64
        requires { 64 * block < length self.now }
        ensures numbers { (i : ℕ) (n : ℤ) → i < 64 → slice_index_or self.now (64 * block + i) None ≡ Some n
            → has_bit result i ≡ (open_or (λ a. int_le a n) low && open_or (int_le n) high) }
        ensures rows { (i : ℕ) → length self.now ≤ 64 * block + i → has_bit result i ≡ false }
    {
        block_at(&self.values, block, low, high)
    }

    /// The rows whose number lies between the two, both included, where an absent end is open: Lucene's
    /// `NumericDocValuesField.newSlowRangeQuery`. A row without a number lies in no range. A refusal is
    /// [`Refusal::Memory`].
    pub fn between(&self, low: Option<i64>, high: Option<i64>) -> Result<RowSet, AllocError>
        ensures ok { IfOk result (λ s. s ≡ map (has_some (λ n. open_or (λ a. int_le a n) low && open_or (int_le n) high)) self.now) }
    {
        let mut set = rows_between(*self.values.allocator(), &self.values, low, high)?;
        set.and_with(&self.present);
        Ok(set)
    }
}
