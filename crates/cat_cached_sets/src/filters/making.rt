//! Sets in the making: which is begun next, and one step of it.
ghost use Rattle.std.specs.Prelude.{◌≡◌, find, map, option_map, IfOk, OnErr, OnOk};
ghost use Rattle.cat_query.specs.View.{query_of};
ghost use Rattle.cat_cached_sets.specs.cache.Cached.{with_stored_set};
ghost use Rattle.cat_cached_sets.specs.filters.Filters.{cache_key_in, warm_begun, is_missing, pairs};
ghost use Rattle.cat_cached_sets.specs.filters.Steps.{IsMade, IsMadeInPart};
ghost use Rattle.cat_model.specs.View.{segments_of};

use crate::cache::{FilterCache, Key, Warm, Warming};
use cat_query::{DocSet, Query};
use cat_views::Leaf;
use std::alloc::{AllocError, Global};
use std::sync::Arc;

/// The first of the leaves for whose segment no set of the key's query stands. The key may name any segment afterwards.
fn first_without<'a>(cache: &FilterCache, key: &mut Key, leaves: &'a [Leaf]) -> Option<&'a Leaf>
    ensures query { query_of key.new.query ≡ query_of key.old.query }
    ensures first { option_map (λ l. l.now.segment) result
        ≡ find (λ s. is_missing cache.now (query_of key.old.query, s)) (segments_of leaves.now) }
{
    for leaf in leaves {
        key.segment = leaf.segment().number();
        if !cache.has(key) {
            return Some(leaf);
        }
    }
    None
}

/// The set that is begun next, if one is missing.
pub(crate) fn next_begun(
    cache: &FilterCache,
    noted: &[Query],
    leaves: &[Leaf],
) -> Result<Option<Warm>, AllocError>
    ensures { IfOk result (λ w. w ≡ option_map warm_begun (find (is_missing cache.now) (pairs (map query_of noted.now) (segments_of leaves.now)))) }
{
    for query in noted {
        let mut key = Key {
            segment: 0,
            query: query.copy()?,
        };
        if let Some(leaf) = first_without(cache, &mut key, leaves) {
            let segment = leaf.share_segment()?;
            return Ok(Some(Warm::begin(segment, key.query)));
        }
    }
    Ok(None)
}

/// Stores the set, of all rows of the one in the making.
fn store_made(
    alloc: Global,
    cache: &mut FilterCache,
    warm: &Warm,
    set: DocSet,
) -> Result<(), AllocError>
    ensures ok { OnOk result (cache.new ≡ with_stored_set (cache_key_in warm.now.query warm.now.segment) set cache.old) }
    ensures err { OnErr result (cache.new ≡ cache.old) }
{
    let key = warm.key().copy()?;
    cache.store(key, Arc::new(alloc, set)?)
}

/// One step of the set in the making: how many of its rows are passed in all, or none once it is stored. An error leaves it as
/// it was, or with all of its rows passed.
pub(crate) fn pass_on(
    alloc: Global,
    cache: &mut FilterCache,
    warm: &mut Warm,
) -> Result<Option<usize>, AllocError>
    ensures ok { IfOk result (IsMade cache.old warm.old cache.new warm.new) }
    ensures err { OnErr result (IsMadeInPart cache.old warm.old cache.new warm.new) }
{
    match warm.step(alloc)? {
        Warming::Passed(rows) => Ok(Some(rows)),
        Warming::Made(set) => {
            store_made(alloc, cache, warm, set)?;
            Ok(None)
        }
    }
}
