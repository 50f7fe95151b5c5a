//! The queries that were noted, with the sets of rows that are at hand for them.
ghost use Rattle.std.specs.Prelude.{◌≡◌, ◌≤◌, ◌==◌, [], ◌∷◌, ◌++◌, false, length, map, not, None, option_map, All, IfOk, OnErr};
ghost use Rattle.std.specs.Arc.{arc_value};
ghost use Rattle.std.specs.List.{list_any};
ghost use Rattle.std.specs.Option.{option_map_or};
ghost use Rattle.cat_cached_sets.specs.cache.Cached.{most_sets};
ghost use Rattle.cat_query.specs.View.{query_of};
ghost use Rattle.cat_views.specs.Sets.{AreSets};
ghost use Rattle.cat_cached_sets.specs.filters.Filters.{most_noted, newest, noted_with, set_in, sets_used_in, filters_without};
ghost use Rattle.cat_cached_sets.specs.filters.Known.{Knows, Remembers, RemembersBelow, FiltersRemember, FiltersRememberBelow};
ghost use Rattle.cat_cached_sets.specs.filters.Steps.{IsLeftByStep, IsFiltersStep};
ghost use Rattle.cat_model.specs.View.{segments_of};

use crate::cache::{FilterCache, Key, Warm};
use crate::filters::looks::sets_under;
use crate::filters::making::{next_begun, pass_on};
use crate::filters::news::WarmNews;
use cat_base::{MAX_NOTED_QUERIES, SegNo};
use cat_query::{DocSet, Query};
use cat_views::Leaf;
use std::alloc::{AllocError, Global};
use std::marker::Model;
use std::sync::Arc;

/// The queries that were noted, and the sets of rows that are at hand for them (Lucene: an `LRUQueryCache` with its
/// `UsageTrackingQueryCachingPolicy`).
///
/// - At most [`MAX_CACHED_SETS`](cat_base::MAX_CACHED_SETS) sets are kept, and the least recently used goes first. A set
///   has the rows of one segment that one parsed query matches, deleted rows too.
/// - Of the queries that were noted the newest [`MAX_NOTED_QUERIES`] are kept. Who is noted already keeps its place, so the
///   one that was noted first goes first, however often it came again.
/// - Sets are made by [`step`](Filters::step), outside of any query: one at a time, and some rows at a time. (Lucene makes a
///   set while a query runs.)
///
/// Numbers of segments are never used again, so a set may stay when its segment is gone: no other segment asks for it, and it
/// goes as the least recently used. Contracts see the cached sets with their keys, the last used first, the noted queries from
/// the oldest, and the set in the making.
pub struct Filters {
    alloc: Global,
    cache: FilterCache,
    // From the oldest. There is room for as many as are kept.
    noted: Vec<Query>,
    warming: Option<Warm>,
}

impl Model for Filters {
    ghost use Rattle.std.specs.Prelude.{◌≤◌, length, map, vec_capacity};
    ghost use Rattle.std.specs.Coded.{codes};
    ghost use Rattle.cat_cached_sets.specs.cache.Coding.{query_code};
    ghost use Rattle.cat_query.specs.View.{query_of};
    ghost use Rattle.cat_cached_sets.specs.filters.Filters as model;

    ghost Value = { model.Filters };

    ghost coded = { Prim.hlevel (codes, query_code) };

    ghost view = { λ f. record { cached = f.cache; noted = map query_of f.noted.items; warming = f.warming } };

    ghost invariant = { λ f. (length f.noted.items ≤ model.most_noted) × (model.most_noted ≤ vec_capacity f.noted) };
}

impl Drop for Filters {
    fn drop(self) {
        let Filters {
            alloc: _,
            cache,
            noted,
            warming,
        } = self;
        drop(cache);
        drop(noted);
        drop(warming);
    }
}

impl Filters {
    /// Nothing is noted, and no set is at hand. The room for noted queries is taken here.
    pub fn new(alloc: Global) -> Result<Filters, AllocError>
        ensures ok { IfOk result (λ f. f ≡ record { cached = []; noted = []; warming = None }) }
    {
        Ok(Filters {
            alloc,
            cache: FilterCache::new(alloc)?,
            noted: Vec::with_capacity(alloc, MAX_NOTED_QUERIES)?,
            warming: None,
        })
    }

    /// How many sets are cached, those of segments that are gone too, and not the one in the making
    /// (`LRUQueryCache.getCacheSize`).
    pub fn len(&self) -> usize
        ensures value { result ≡ length self.now.cached }
        ensures most { result ≤ most_sets }
    {
        self.cache.len()
    }

    /// Notes the query as the newest, and the oldest goes where there are too many; one that is noted already keeps its
    /// place. It takes no memory. (`UsageTrackingQueryCachingPolicy.onUse`.)
    pub fn note(&mut self, query: Query)
        ensures noted { self.new ≡ record self.old { noted = noted_with (query_of query) self.old.noted } }
        ensures known { Remembers self.old self.new }
        ensures below { RemembersBelow self.old self.new }
    {
        if !self.noted.contains(&query) {
            self.note_newest(query);
        }
    }

    /// Puts the query last, and takes the oldest out where there are too many.
    fn note_newest(&mut self, query: Query)
        ensures { self.new ≡ record self.old { noted = newest most_noted (self.old.noted ++ query_of query ∷ []) } }
    {
        if self.noted.len() >= MAX_NOTED_QUERIES {
            self.noted.remove(0);
        }
        self.noted.push_reserved(query);
    }

    /// For each leaf in order the set that stands under the number of its segment and the key's query, else none; a set that
    /// is found is the last used from its look on, also where memory is wanting for the answer. So the sets can be lent to the
    /// query over a view of these leaves, where each segment is known. The key's segment may be any, and is any afterwards.
    /// (`LRUQueryCache.get`, once for each leaf.)
    pub fn sets_for(
        &mut self,
        key: &mut Key,
        leaves: &[Leaf],
    ) -> Result<Vec<Option<Arc<DocSet>>>, AllocError>
        ensures sets { IfOk result (λ v. map (option_map arc_value) v.items
            ≡ map (set_in self.old.cached (query_of key.old.query)) (segments_of leaves.now)) }
        ensures used { self.new ≡ record self.old { cached = sets_used_in (query_of key.old.query) (segments_of leaves.now) self.old.cached } }
        ensures query { key.new.query ≡ key.old.query }
        ensures lent { IfOk result (λ v. All (Knows self.old) (segments_of leaves.now) → AreSets (query_of key.old.query) leaves.now v.items) }
        ensures known { Remembers self.old self.new }
        ensures below { RemembersBelow self.old self.new }
    {
        sets_under(self.alloc, &mut self.cache, key, leaves)
    }

    /// One step of warming, where the leaves are those of the current segments.
    ///
    /// Without a set in the making it begins that of the first pair of a noted query and a segment that isn't cached: queries
    /// from the oldest, and for each the segments in order. Else it passes at most
    /// [`MAX_STEP_ROWS`](cat_base::MAX_STEP_ROWS) rows of the set in the making, and with the last of them stores the set,
    /// which is the last used then. No other set is used by it.
    ///
    /// An error leaves all as it was, but that the set in the making may have passed its last rows without being stored; the
    /// next step stores it. (That sets are made in steps is our own: `LRUQueryCache.cacheImpl` makes one in one go.)
    pub fn step(&mut self, leaves: &[Leaf]) -> Result<WarmNews, AllocError>
        ensures ok { IfOk result (IsFiltersStep self.old (segments_of leaves.now) self.new) }
        ensures err { OnErr result (IsLeftByStep self.old self.new) }
        ensures known { FiltersRemember (segments_of leaves.now) self.old self.new }
        ensures below { FiltersRememberBelow (segments_of leaves.now) self.old self.new }
    {
        match &mut self.warming {
            None => self.begin(leaves),
            Some(warm) => match pass_on(self.alloc, &mut self.cache, warm)? {
                Some(rows) => Ok(WarmNews::Warmed(rows)),
                None => {
                    self.warming = None;
                    Ok(WarmNews::Stored)
                }
            },
        }
    }

    /// Begins the set of the first pair that isn't cached.
    fn begin(&mut self, leaves: &[Leaf]) -> Result<WarmNews, AllocError>
        requires { self.old.warming ≡ None }
        ensures ok { IfOk result (IsFiltersStep self.old (segments_of leaves.now) self.new) }
        ensures err { OnErr result (self.new ≡ self.old) }
    {
        let Some(warm) = next_begun(&self.cache, &self.noted, leaves)? else {
            return Ok(WarmNews::Idle);
        };
        self.warming = Some(warm);
        Ok(WarmNews::Begun)
    }

    /// Gives up the set in the making where it is over none of these segments, as when its segment was merged away. It takes
    /// no memory. (Lucene: `LRUQueryCache.clearCoreCacheKey`, as a segment's core is closed.)
    pub fn keep_among(&mut self, leaves: &[Leaf])
        ensures value { self.new ≡ filters_without (λ n. not (list_any (λ l. l.segment.number == n) leaves.now)) self.old }
        ensures known { Remembers self.old self.new }
        ensures below { RemembersBelow self.old self.new }
    {
        if !self.is_making_among(leaves) {
            self.warming = None;
        }
    }

    /// Whether the set in the making is over the segment of one of the leaves.
    fn is_making_among(&self, leaves: &[Leaf]) -> bool
        ensures { result ≡ option_map_or (λ w. list_any (λ l. l.segment.number == w.segment.number) leaves.now) self.now.warming false }
    {
        match &self.warming {
            Some(warm) => has_number(leaves, warm.key().segment),
            None => false,
        }
    }
}

/// Whether the segment of some leaf has the number.
fn has_number(leaves: &[Leaf], number: SegNo) -> bool
    ensures { result ≡ list_any (λ l. l.segment.number == number) leaves.now }
{
    for leaf in leaves {
        if leaf.segment().number() == number {
            return true;
        }
    }
    false
}
