//! A filter of ids: it tells for most ids that no row of a segment has them, without a search.
ghost use Rattle.std.specs.Prelude.{◌≡◌, ◌^◌, ◌<◌, ℕ, true, length, IfOk};
ghost use Rattle.cat_segment.specs.Filter.{bit_of, id_hash, may_have, IsFilter};

use cat_base::Text;
use cat_columns::{RowSet, text_hash};
use std::alloc::{AllocError, Global};

/// How many bits there are for each id. Two of them are set, so that of 70 ids that no row has one is searched for.
const BITS: usize = 16;

/// The most bits of a filter.
const MOST_BITS: usize = 1 << 24;

/// Half a hash is below this.
const HALF: u64 = 1 << 32;

/// The hash of an id, which every segment is asked by (Lucene: `FuzzySet`'s `MurmurHash64`).
pub fn id_hash(id: &str) -> u64
    ensures { result ≡ id_hash id.now }
{
    text_hash(id)
}

/// The bit that half a hash leads to.
fn bit_of(half: u64, count: usize) -> usize
    requires half { half < 2 ^ 32 }
    requires some { 0 < count }
    requires few { count < 2 ^ 32 }
    ensures value { result ≡ bit_of half count }
    ensures bound { result < count }
{
    (half * count as u64 / HALF) as usize
}

/// Sets both bits of the hash.
fn insert(bits: &mut RowSet, hash: u64)
    requires { 0 < length bits.old }
    ensures long { length bits.new ≡ length bits.old }
    ensures here { may_have bits.new hash ≡ true }
    ensures kept { (other : ℕ) → may_have bits.old other ≡ true → may_have bits.new other ≡ true }
{
    let count = bits.len();
    bits.insert(bit_of(hash / HALF, count));
    bits.insert(bit_of(hash % HALF, count));
}

/// How many bits the filter of so many ids has.
fn bit_count(ids: usize) -> usize
    ensures some { 0 < result }
    ensures few { result < 2 ^ 32 }
{
    ids.clamp(1, MOST_BITS / BITS) * BITS
}

/// The filter of the ids (Lucene: what `BloomFilteringPostingsFormat` keeps of a primary key's field).
pub(crate) fn filter_of(alloc: Global, ids: &[Text]) -> Result<RowSet, AllocError>
    ensures ok { IfOk result (λ bits. IsFilter ids.now bits) }
{
    let mut bits = RowSet::none(alloc, bit_count(ids.len()))?;
    for id in ids {
        insert(&mut bits, id_hash(id.as_str()));
    }
    Ok(bits)
}

/// Whether both bits of the hash are set.
pub(crate) fn may_have(bits: &RowSet, hash: u64) -> bool
    requires { 0 < length bits.now }
    ensures { result ≡ may_have bits.now hash }
{
    let count = bits.len();
    bits.contains(bit_of(hash / HALF, count)) && bits.contains(bit_of(hash % HALF, count))
}
