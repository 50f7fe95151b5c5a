//! Rows as bytes. Row r is bit r % 8, from the lowest, of byte r / 8, so that a block has the bits of eight bytes.
ghost use Rattle.std.specs.Prelude.{◌≡◌, ◌↔◌, ℕ, ◌+◌, ◌*◌, ◌/◌, ◌<◌, ◌≤◌, length, true, false, All, IfOk, IsTrue, replicate, slice_index};
ghost use Rattle.cat_model.specs.RowSets.{has_row};
ghost use Rattle.cat_columns.specs.Bits.{has_bit, is_set, has_row_bit};

use std::alloc::{AllocError, Global};

/// The byte of this index.
fn byte_at(blocks: &[u64], index: usize) -> u8
    requires { index < 8 * length blocks.now }
    ensures { (i : ℕ) → i < 8 → has_bit result i ≡ is_set blocks.now (8 * index + i) }
{
    ((blocks[index / 8] >> (8 * (index % 8))) & 0xff) as u8
}

/// The first `len` bytes of the blocks.
pub fn bytes_of(alloc: Global, blocks: &[u64], len: usize) -> Result<Vec<u8>, AllocError>
    requires { len ≤ 8 * length blocks.now }
    ensures long { IfOk result (λ v. length v.items ≡ len) }
    ensures bytes { IfOk result (λ v. All (λ b. b < 256) v.items) }
    ensures bits { IfOk result (λ v. (row : ℕ) → row < 8 * len → has_row_bit v.items row ≡ is_set blocks.now row) }
{
    let mut bytes = Vec::with_capacity(alloc, len)?;
    for index in 0..len {
        bytes.push(byte_at(blocks, index))?;
    }
    Ok(bytes)
}

/// The byte of this index, and 0 past the end.
fn byte_or_zero(bytes: &[u8], index: usize) -> u8
    ensures { result ≡ slice_index bytes.now index }
{
    if index < bytes.len() { bytes[index] } else { 0 }
}

/// The block of the eight bytes from `from` on, where those past the end are 0.
fn block_at(bytes: &[u8], from: usize) -> u64
    requires { from < length bytes.now }
    ensures { (i : ℕ) → i < 64 → has_bit result i ≡ has_row_bit bytes.now (8 * from + i) }
{
    let mut block = [0u8; 8];
    for index in 0..8 {
        block[index] = byte_or_zero(bytes, from + index);
    }
    u64::from_le_bytes(block)
}

/// As many blocks as have the bits of the bytes.
pub fn blocks_of(alloc: Global, bytes: &[u8]) -> Result<Vec<u64>, AllocError>
    ensures long { IfOk result (λ v. length v.items ≡ (length bytes.now + 7) / 8) }
    ensures bits { IfOk result (λ v. (row : ℕ) → is_set v.items row ≡ has_row_bit bytes.now row) }
{
    let len = bytes.len().div_ceil(8);
    let mut blocks = Vec::with_capacity(alloc, len)?;
    for k in 0..len {
        blocks.push(block_at(bytes, 8 * k))?;
    }
    Ok(blocks)
}

/// Whether no bit is 1 from this row on, which the last byte has, or for which there is no byte.
pub fn is_clear_from(bytes: &[u8], row: usize) -> bool
    requires { length bytes.now ≡ (row + 7) / 8 }
    ensures { IsTrue result ↔ ((r : ℕ) → row ≤ r → has_row_bit bytes.now r ≡ false) }
{
    row % 8 == 0 || bytes[row / 8] >> (row % 8) == 0
}

/// The byte of this index of the set of all `len` rows.
fn full_byte(len: usize, index: usize) -> u8
    requires { index < (len + 7) / 8 }
    ensures { (i : ℕ) → i < 8 → has_bit result i ≡ has_row (replicate len true) (8 * index + i) }
{
    if index < len / 8 {
        u8::MAX
    } else {
        (1 << (len % 8)) - 1
    }
}

/// Whether the bits of all rows below `len` are 1, and no others.
pub fn is_full(bytes: &[u8], len: usize) -> bool
    requires { length bytes.now ≡ (len + 7) / 8 }
    ensures { IsTrue result ↔ ((r : ℕ) → has_row_bit bytes.now r ≡ has_row (replicate len true) r) }
{
    for index in 0..bytes.len() {
        if bytes[index] != full_byte(len, index) {
            return false;
        }
    }
    true
}
