//! Blocks of 64 bits, changed block by block. Row r is bit r % 64, from the lowest, of block r / 64.
ghost use Rattle.std.specs.Prelude.{◌≡◌, ◌==◌, ℕ, ◌+◌, ◌*◌, ◌/◌, ◌%◌, ◌^◌, ◌<◌, ◌≤◌, ◌||◌, length, true, false, count_by, sum_by, count_ones, IfOk, nat_lt, if◌then◌else◌, All, IsTrue, ◌↔◌};
ghost use Rattle.std.specs.List.{range_with_len, list_any};
ghost use Rattle.cat_model.specs.RowSets.{both, either, first_only};
ghost use Rattle.cat_columns.specs.Bits.{is_set};

use std::alloc::{AllocError, Global};

/// The blocks of a set of all `len` rows.
pub fn full_blocks(alloc: Global, len: usize) -> Result<Vec<u64>, AllocError>
    requires { len < 2 ^ 32 }
    ensures ok { IfOk result (λ v. (length v.items ≡ (len + 63) / 64) × ((row : ℕ) → is_set v.items row ≡ nat_lt row len)) }
{
    let mut blocks = vec![in alloc; u64::MAX; (len + 63) / 64]?;
    let over = len % 64;
    if over == 0 {
        return Ok(blocks);
    }
    blocks[len / 64] = (1u64 << over) - 1;
    Ok(blocks)
}

/// Whether the row is in the set.
pub fn has_row(blocks: &[u64], row: usize) -> bool
    requires { row < 64 * length blocks.now }
    ensures { result ≡ is_set blocks.now row }
{
    (blocks[row / 64] >> (row % 64)) & 1 == 1
}

/// Puts the row into the set.
pub fn set_row(blocks: &mut [u64], row: usize)
    requires { row < 64 * length blocks.old }
    ensures { (r : ℕ) → is_set blocks.new r ≡ (if r == row then true else is_set blocks.old r) }
{
    blocks[row / 64] |= 1u64 << (row % 64);
}

/// Puts the rows into the set.
pub fn set_rows(blocks: &mut [u64], rows: &[u32])
    requires { All (λ r. r < 64 * length blocks.old) rows.now }
    ensures { (r : ℕ) → is_set blocks.new r ≡ (is_set blocks.old r || list_any (λ k. k == r) rows.now) }
{
    for row in rows {
        set_row(blocks, *row as usize);
    }
}

/// Takes the row out of the set.
pub fn clear_row(blocks: &mut [u64], row: usize)
    requires { row < 64 * length blocks.old }
    ensures { (r : ℕ) → is_set blocks.new r ≡ (if r == row then false else is_set blocks.old r) }
{
    blocks[row / 64] &= !(1u64 << (row % 64));
}

/// Takes the rows below this one out of the set.
pub fn clear_below(blocks: &mut [u64], row: usize)
    requires { row ≤ 64 * length blocks.old }
    ensures { (r : ℕ) → is_set blocks.new r ≡ (if nat_lt r row then false else is_set blocks.old r) }
{
    let whole = row / 64;
    blocks[..whole].fill(0);
    // A row that starts a block has no bits below it there, and may lie past the last block.
    if row % 64 != 0 {
        blocks[whole] &= u64::MAX << (row % 64);
    }
}

/// Keeps the rows that are in the other set too.
pub fn and_blocks(blocks: &mut [u64], others: &[u64])
    requires { length blocks.old ≡ length others.now }
    ensures { (row : ℕ) → is_set blocks.new row ≡ both (is_set blocks.old row) (is_set others.now row) }
{
    for (k, block) in blocks.iter_mut().enumerate() {
        *block &= others[k];
    }
}

/// Adds the rows of the other set.
pub fn or_blocks(blocks: &mut [u64], others: &[u64])
    requires { length blocks.old ≡ length others.now }
    ensures { (row : ℕ) → is_set blocks.new row ≡ either (is_set blocks.old row) (is_set others.now row) }
{
    for (k, block) in blocks.iter_mut().enumerate() {
        *block |= others[k];
    }
}

/// Takes the rows of the other set out.
pub fn clear_blocks(blocks: &mut [u64], others: &[u64])
    requires { length blocks.old ≡ length others.now }
    ensures { (row : ℕ) → is_set blocks.new row ≡ first_only (is_set blocks.old row) (is_set others.now row) }
{
    for (k, block) in blocks.iter_mut().enumerate() {
        *block &= !others[k];
    }
}

/// How many rows are in the set.
pub fn count_blocks(blocks: &[u64]) -> usize
    requires { length blocks.now < 2 ^ 32 }
    ensures { result ≡ count_by (is_set blocks.now) (range_with_len 0 (64 * length blocks.now)) }
{
    ones_in(blocks)
}

/// How many bits are 1.
fn ones_in(blocks: &[u64]) -> usize
    requires { length blocks.now < 2 ^ 32 }
    ensures { result ≡ sum_by count_ones blocks.now }
{
    blocks.iter().map(|block| block.count_ones() as usize).sum()
}

/// Whether there are as many blocks, with the same rows in them.
pub(crate) fn same_blocks(blocks: &[u64], other: &[u64]) -> bool
    ensures { IsTrue result ↔ (length blocks.now ≡ length other.now) × ((row : ℕ) → is_set blocks.now row ≡ is_set other.now row) }
{
    are_equal(blocks, other)
}

/// Whether the blocks are the same numbers.
fn are_equal(blocks: &[u64], other: &[u64]) -> bool
    ensures { IsTrue result ↔ (blocks.now ≡ other.now) }
{
    blocks == other
}
