//! A set of the rows of one segment.
ghost use Rattle.std.specs.Prelude.{◌≡◌, ◌⊎◌, ◌++◌, Bool, List, ◌+◌, ◌*◌, ◌^◌, ◌<◌, ◌≤◌, true, false, length, replicate, drop, slice_set, count_by, ◌↔◌, IfOk, IfErr, IsTrue, All};
ghost use Rattle.cat_base.specs.declared.refusal.Refusal.TheVariants.{Damaged, Memory};
ghost use Rattle.cat_model.specs.RowSets.{joined, both, either, first_only, has_row, indices, with_rows, IsPacked};
ghost use Rattle.cat_columns.specs.Bits.{flags_of, IsBits, HasNoSet};

use crate::blocks::{
    and_blocks, clear_below, clear_blocks, clear_row, count_blocks, full_blocks, has_row,
    or_blocks, same_blocks, set_row, set_rows,
};
use crate::packed::{blocks_of, bytes_of, is_clear_from, is_full};
use crate::scan::Rows;
use cat_base::Refusal;
use std::alloc::{AllocError, Global};
use std::marker::Model;

/// A set of rows out of `len`, the rows of a segment, one bit for each: Lucene's `FixedBitSet`.
///
/// Contracts see it as one truth value for each row.
pub struct RowSet {
    len: usize,
    blocks: Vec<u64>,
}

impl Model for RowSet {
    ghost use Rattle.std.specs.Prelude.{List, Bool};
    ghost use Rattle.cat_columns.specs.Bits.{flags_of, IsBits};

    ghost Value = { List Bool };

    ghost view = { λ s. flags_of s.len s.blocks.items };

    ghost invariant = { λ s. IsBits s.len s.blocks.items };
}

impl Drop for RowSet {
    fn drop(self) {
        let RowSet { len: _, blocks } = self;
        drop(blocks);
    }
}

impl RowSet {
    /// The set of no row out of `len`.
    pub fn none(alloc: Global, len: usize) -> Result<Self, AllocError>
        requires { len < 2 ^ 32 }
        ensures ok { IfOk result (λ s. s ≡ replicate len false) }
    {
        let blocks = vec![in alloc; 0u64; (len + 63) / 64]?;
        Ok(RowSet { len, blocks })
    }

    /// The set of all `len` rows (`FixedBitSet.set(0, len)`).
    pub fn all(alloc: Global, len: usize) -> Result<Self, AllocError>
        requires { len < 2 ^ 32 }
        ensures ok { IfOk result (λ s. s ≡ replicate len true) }
    {
        let blocks = full_blocks(alloc, len)?;
        Ok(RowSet { len, blocks })
    }

    /// The set of the rows whose bits are 1 in the blocks.
    pub(crate) fn from_blocks(len: usize, blocks: Vec<u64>) -> Self
        requires { IsBits len blocks.items }
        ensures { result ≡ flags_of len blocks.items }
    {
        RowSet { len, blocks }
    }

    /// How many rows there are to choose from, in the set or not (`FixedBitSet.length`).
    pub fn len(&self) -> usize
        ensures value { result ≡ length self.now }
        ensures few { length self.now < 2 ^ 32 }
    {
        self.len
    }

    /// Whether the row is in the set (`FixedBitSet.get`).
    pub fn contains(&self, row: usize) -> bool
        requires { row < length self.now }
        ensures { result ≡ has_row self.now row }
    {
        has_row(&self.blocks, row)
    }

    /// Puts the row into the set (`FixedBitSet.set`).
    pub fn insert(&mut self, row: usize)
        requires { row < length self.old }
        ensures { self.new ≡ slice_set self.old row true }
    {
        set_row(&mut self.blocks, row);
    }

    /// Takes the row out of the set (`FixedBitSet.clear`).
    pub fn remove(&mut self, row: usize)
        requires { row < length self.old }
        ensures { self.new ≡ slice_set self.old row false }
    {
        clear_row(&mut self.blocks, row);
    }

    /// Takes the rows below this one out of the set (`FixedBitSet.clear(0, row)`), whole blocks at a time.
    pub fn remove_below(&mut self, row: usize)
        requires { row ≤ length self.old }
        ensures { self.new ≡ replicate row false ++ drop row self.old }
    {
        clear_below(&mut self.blocks, row);
    }

    /// Puts all the rows into the set, in any order and some of them twice: `DocIdSetBuilder.add` over postings.
    pub fn insert_all(&mut self, rows: &[u32])
        requires { All (λ r. r < length self.old) rows.now }
        ensures { self.new ≡ with_rows rows.now self.old }
    {
        set_rows(&mut self.blocks, rows);
    }

    /// How many rows are in the set (`FixedBitSet.cardinality`).
    pub fn count(&self) -> usize
        ensures { result ≡ count_by (λ b. b) self.now }
    {
        count_blocks(&self.blocks)
    }

    /// Keeps the rows that are in the other set too (`FixedBitSet.and`).
    pub fn and_with(&mut self, other: &RowSet)
        requires { length self.old ≡ length other.now }
        ensures { self.new ≡ joined both self.old other.now }
    {
        and_blocks(&mut self.blocks, &other.blocks);
    }

    /// Adds the rows of the other set (`FixedBitSet.or`).
    pub fn or_with(&mut self, other: &RowSet)
        requires { length self.old ≡ length other.now }
        ensures { self.new ≡ joined either self.old other.now }
    {
        or_blocks(&mut self.blocks, &other.blocks);
    }

    /// Takes the rows of the other set out (`FixedBitSet.andNot`).
    pub fn and_not(&mut self, other: &RowSet)
        requires { length self.old ≡ length other.now }
        ensures { self.new ≡ joined first_only self.old other.now }
    {
        clear_blocks(&mut self.blocks, &other.blocks);
    }

    /// The rows of the set, rising.
    pub fn iter(&self) -> Rows<'_>
        ensures { result ≡ indices self.now }
    {
        Rows::of(&self.blocks)
    }

    /// The set as the bytes of a file: row r is bit r % 8, from the lowest, of byte r / 8, and the bits past the last row are 0
    /// (`Lucene90LiveDocsFormat.writeBits`, which writes longs).
    pub fn to_bytes(&self) -> Result<Vec<u8>, AllocError>
        ensures ok { IfOk result (λ b. IsPacked b.items self.now) }
    {
        bytes_of(*self.blocks.allocator(), &self.blocks, (self.len + 7) / 8)
    }

    /// The set of rows out of `len` that [`RowSet::to_bytes`] writes as these bytes (`Lucene90LiveDocsFormat.readBits`).
    ///
    /// [`Refusal::Damaged`] exactly where no set is written so: there are more bytes or fewer than the rows take, or a bit past
    /// the last row is 1. That is judged before memory is asked for.
    pub fn from_bytes(alloc: Global, len: usize, bytes: &[u8]) -> Result<RowSet, Refusal>
        requires { len < 2 ^ 32 }
        ensures ok { IfOk result (λ s. (length s ≡ len) × IsPacked bytes.now s) }
        ensures damaged { IfErr result (λ e. e ≡ Damaged → HasNoSet len bytes.now) }
        ensures due { IfErr result (λ e. e ≡ Memory → (set : List Bool) × (length set ≡ len) × IsPacked bytes.now set) }
        ensures refusal { IfErr result (λ e. (e ≡ Damaged) ⊎ (e ≡ Memory)) }
    {
        if bytes.len() != (len + 7) / 8 || !is_clear_from(bytes, len) {
            return Err(Refusal::Damaged);
        }
        let blocks = blocks_of(alloc, bytes)?;
        Ok(RowSet { len, blocks })
    }

    /// Whether [`RowSet::to_bytes`] writes the set of all `len` rows as these bytes. No memory is asked for.
    pub fn are_all(len: usize, bytes: &[u8]) -> bool
        requires { len < 2 ^ 32 }
        ensures { IsTrue result ↔ IsPacked bytes.now (replicate len true) }
    {
        bytes.len() == (len + 7) / 8 && is_full(bytes, len)
    }

    /// An equal set in memory of its own.
    pub fn copy(&self) -> Result<Self, AllocError>
        ensures ok { IfOk result (λ s. s ≡ self.now) }
    {
        let blocks = Vec::from_slice(*self.blocks.allocator(), &self.blocks)?;
        Ok(RowSet {
            len: self.len,
            blocks,
        })
    }
}

/// Sets are equal where they have as many rows to choose from and the same of them: blocks are compared.
impl PartialEq for RowSet {
    ghost use Rattle.std.specs.Prelude.{◌≡◌, ◌↔◌, IsTrue};
    ghost use Rattle.std.specs.Cmp.{partial_equiv_from_equiv};
    ghost use Rattle.cat_columns.specs.Bits.{same_rows, same_rows_equiv};

    ghost eq = { same_rows };

    ghost laws = { partial_equiv_from_equiv same_rows_equiv };

    fn eq(&self, other: &RowSet) -> bool
        ensures eq { result ≡ same_rows self.now other.now }
        ensures value { IsTrue result ↔ (self.now ≡ other.now) }
    {
        self.len == other.len && same_blocks(&self.blocks, &other.blocks)
    }
}
