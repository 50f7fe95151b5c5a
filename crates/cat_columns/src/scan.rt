//! The rows of a set, one after another; blocks without rows are passed whole.
ghost use Rattle.std.specs.Prelude.{◌≡◌, ℕ, ◌^◌, ◌<◌, length, slice_index, MatchOption};
ghost use Rattle.std.specs.Iterator.{YieldsFirst, item_count};
ghost use Rattle.cat_columns.specs.Bits.{rows_from, IsFirstBlock, IsLowestBit, NoBlockFrom};

use std::marker::Model;

/// The first block from this index on that has a row, with its index.
fn first_block_from(blocks: &[u64], from: usize) -> Option<(usize, u64)>
    ensures { MatchOption result (NoBlockFrom blocks.now from) (λ found. IsFirstBlock blocks.now from found.0 found.1) }
{
    let mut index = from;
    while index < blocks.len() {
        let block = blocks[index];
        if block != 0 {
            return Some((index, block));
        }
        index += 1;
    }
    None
}

/// The block at this index, 0 past the last one.
fn block_at(blocks: &[u64], index: usize) -> u64
    ensures { result ≡ slice_index blocks.now index }
{
    if index < blocks.len() {
        blocks[index]
    } else {
        0
    }
}

/// The index of the lowest bit that is 1.
fn lowest_bit(block: u64) -> usize
    requires { 0 < block }
    ensures { IsLowestBit block result }
{
    block.trailing_zeros() as usize
}

/// The rows of a set that are still to come, rising, as Lucene's `BitSetIterator` (`DocIdSetIterator.nextDoc`) gives them.
#[derive(Drop)]
pub struct Rows<'a> {
    blocks: &'a [u64],
    /// The index of the block in hand.
    index: usize,
    /// The bits of the block in hand whose rows are still to come.
    left: u64,
}

impl<'a> Model for Rows<'a> {
    ghost use Rattle.std.specs.Prelude.{ℕ, List, ◌^◌, ◌<◌, length};
    ghost use Rattle.cat_columns.specs.Bits.{rows_left};

    ghost Value = { List ℕ };

    ghost view = { λ s. rows_left s.blocks.now s.index s.left };

    ghost invariant = { λ s. (length s.blocks.now < 2 ^ 32) × (s.index < 2 ^ 32) × (0 < s.left → s.index < length s.blocks.now) };
}

impl<'a> Rows<'a> {
    /// The rows of the blocks.
    pub(crate) fn of(blocks: &'a [u64]) -> Self
        requires { length blocks.now < 2 ^ 32 }
        ensures { result ≡ rows_from blocks.now 0 }
    {
        Rows {
            blocks,
            index: 0,
            left: block_at(blocks, 0),
        }
    }
}

impl<'a> Iterator for Rows<'a> {
    type Item = usize;

    ghost next_gives = { YieldsFirst (λ rows. rows) };

    ghost remaining = { item_count (λ rows. rows) };

    fn next(&mut self) -> Option<usize> {
        if self.left == 0 {
            match first_block_from(self.blocks, self.index + 1) {
                None => return None,
                Some((index, block)) => {
                    self.index = index;
                    self.left = block;
                }
            }
        }
        let row = 64 * self.index + lowest_bit(self.left);
        // Clears the lowest bit that is 1.
        self.left &= self.left - 1;
        Some(row)
    }
}
