//! Sets of rows, the last used first.
ghost use Rattle.std.specs.Prelude.{◌≡◌, ◌≤◌, [], length, is_some, option_map, IfOk, OnOk, OnErr};
ghost use Rattle.std.specs.Arc.{arc_value};
ghost use Rattle.std.specs.Borrow.{sem};
ghost use Rattle.std.specs.Map.{lookup};
ghost use Rattle.cat_cached_sets.specs.cache.Cached.{cache_key_of, most_sets, same_key, with_stored_set, used};

use crate::cache::key::Key;
use cat_base::MAX_CACHED_SETS;
use cat_query::DocSet;
use lru::LruCache;
use std::alloc::{AllocError, Global};
use std::marker::Model;
use std::num::NonZeroUsize;
use std::sync::Arc;

/// At most [`MAX_CACHED_SETS`] sets of rows, of which the least recently used goes first (Lucene: `LRUQueryCache`). A set
/// has the rows of one segment that one query matches, deleted rows too: which rows are live differs from view to view, and
/// is asked when a set is used.
///
/// Contracts see it as the list of its keys with their sets, the last used first.
#[derive(Drop)]
pub struct FilterCache {
    sets: LruCache<Key, Arc<DocSet>>,
}

impl Model for FilterCache {
    ghost use Rattle.std.specs.Prelude.{◌≡◌, List, map};
    ghost use Rattle.std.specs.Arc.{arc_value};
    ghost use Rattle.std.specs.Coded.{codes};
    ghost use Rattle.cat_cached_sets.specs.cache.Cached as cached;
    ghost use Rattle.cat_cached_sets.specs.cache.Coding.{query_code};

    ghost Value = { List cached.CachedSet };

    ghost coded = { Prim.hlevel (codes, query_code) };

    ghost view = { λ c. map (λ e. (cached.cache_key_of e.0, arc_value e.1)) c.sets.entries };

    ghost invariant = { λ c. c.sets.cap ≡ cached.most_sets };
}

impl FilterCache {
    ghost use Rattle.cat_cached_sets.specs.cache.Lent.{ends_as};

    /// A cache without sets, with room for all that it may keep.
    pub fn new(alloc: Global) -> Result<FilterCache, AllocError>
        ensures ok { IfOk result (λ c. c ≡ []) }
    {
        let most = NonZeroUsize::new(MAX_CACHED_SETS).unwrap();
        Ok(FilterCache {
            sets: LruCache::new(alloc, most)?,
        })
    }

    /// How many sets there are, at most [`MAX_CACHED_SETS`] (`LRUQueryCache.getCacheSize`).
    pub fn len(&self) -> usize
        ensures value { result ≡ length self.now }
        ensures most { length self.now ≤ most_sets }
    {
        self.sets.len()
    }

    /// Whether a set stands under the key. The order stays as it is.
    pub fn has(&self, key: &Key) -> bool
        ensures { result ≡ is_some (lookup (same_key (cache_key_of key.now)) self.now) }
    {
        self.sets.contains(key)
    }

    /// The set that stands under the key, which is the last used from now on; none where none stands there, and then the
    /// order stays as it is (`LRUQueryCache.get`).
    pub fn look(&mut self, key: &Key) -> Option<&Arc<DocSet>>
        ensures* used { sem 𝓛 (ends_as self.entry (used (cache_key_of key.now) self.old)) }
        ensures value { option_map (λ s. arc_value s.now) result ≡ lookup (same_key (cache_key_of key.now)) self.old }
    {
        self.sets.promote(key);
        self.sets.peek(key)
    }

    /// Puts the set under the key, as the last used, in place of the one that stood there; where there are more than
    /// [`MAX_CACHED_SETS`] then, the least recently used goes (`LRUQueryCache.putIfAbsent`).
    pub fn store(&mut self, key: Key, rows: Arc<DocSet>) -> Result<(), AllocError>
        ensures ok { OnOk result (self.new ≡ with_stored_set (cache_key_of key) (arc_value rows) self.old) }
        ensures err { OnErr result (self.new ≡ self.old) }
    {
        prove!(self.sets.len() <= MAX_CACHED_SETS);
        match self.sets.put(key, rows) {
            Ok(_) => Ok(()),
            Err(_) => Err(AllocError),
        }
    }
}
