//! Whether numbers cover a range, judged without memory of the heap.
ghost use Rattle.std.specs.Prelude.{◌≡◌, ◌↔◌, ◌==◌, ◌||◌, ℕ, ◌+◌, ◌*◌, ◌^◌, ◌<◌, ◌≤◌, length, true, false, Contains, IsTrue};
ghost use Rattle.std.specs.List.{list_any};
ghost use Rattle.cat_columns.specs.Bits.{is_set};

use crate::blocks::{has_row, set_row};

/// How many blocks of bits one pass has on its stack.
const BLOCKS: usize = 1_024;

/// How many numbers one pass looks for: as many as its blocks have bits.
const SPAN: usize = 64 * BLOCKS;

/// Sets the bit of the number, if it is one of those from `from` on for which there is a bit.
fn mark(blocks: &mut [u64], from: usize, number: usize)
    requires { length blocks.old < 2 ^ 32 }
    ensures { (k : ℕ) → k < 64 * length blocks.old → is_set blocks.new k ≡ (is_set blocks.old k || (number == from + k)) }
{
    if number < from {
        return;
    }
    if number - from >= 64 * blocks.len() {
        return;
    }
    set_row(blocks, number - from);
}

/// Sets the bits of the numbers, where none is set.
fn mark_all(blocks: &mut [u64], from: usize, numbers: &[u32])
    requires few { length blocks.old < 2 ^ 32 }
    requires clear { (k : ℕ) → is_set blocks.old k ≡ false }
    ensures { (k : ℕ) → k < 64 * length blocks.old → is_set blocks.new k ≡ list_any (λ n. n == from + k) numbers.now }
{
    for number in numbers {
        mark(blocks, from, *number as usize);
    }
}

/// Whether the first `count` bits are set.
fn are_set(blocks: &[u64], count: usize) -> bool
    requires { count ≤ 64 * length blocks.now }
    ensures { IsTrue result ↔ ((k : ℕ) → k < count → is_set blocks.now k ≡ true) }
{
    for k in 0..count {
        if !has_row(blocks, k) {
            return false;
        }
    }
    true
}

/// Whether the numbers have each of the `count` numbers from `from` on.
fn covers_span(numbers: &[u32], from: usize, count: usize) -> bool
    requires { count ≤ SPAN }
    ensures { IsTrue result ↔ ((n : ℕ) → from ≤ n → n < from + count → Contains numbers.now n) }
{
    let mut blocks = [0u64; BLOCKS];
    mark_all(&mut blocks, from, numbers);
    are_set(&blocks, count)
}

/// Whether the numbers have each number from `from` on that is below `to`. It goes over them once for each [`SPAN`] numbers
/// of the range.
pub fn covers(numbers: &[u32], from: usize, to: usize) -> bool
    ensures { IsTrue result ↔ ((n : ℕ) → from ≤ n → n < to → Contains numbers.now n) }
{
    let mut next = from;
    while next < to {
        let count = (to - next).min(SPAN);
        if !covers_span(numbers, next, count) {
            return false;
        }
        next += count;
    }
    true
}
