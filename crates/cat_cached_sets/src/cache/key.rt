//! What a cached set stands under.
ghost use Rattle.std.specs.Prelude.{◌≡◌, IfOk};
ghost use Rattle.cat_cached_sets.specs.cache.Cached.{cache_key_of};

use cat_base::SegNo;
use cat_query::Query;
use std::alloc::AllocError;

/// A segment, by its number, and a query. Two keys are equal where the numbers are and the queries are one tree, however
/// their texts were spelled (Lucene: in `LRUQueryCache` the core cache key of a leaf, and a `Query`).
#[derive(Drop, PartialEq, Eq, Hash)]
pub struct Key {
    /// The number of the segment.
    pub segment: SegNo,
    /// The query.
    pub query: Query,
}

impl Key {
    /// An equal key in memory of its own.
    pub fn copy(&self) -> Result<Key, AllocError>
        ensures ok { IfOk result (λ k. cache_key_of k ≡ cache_key_of self.now) }
    {
        Ok(Key {
            segment: self.segment,
            query: self.query.copy()?,
        })
    }
}
