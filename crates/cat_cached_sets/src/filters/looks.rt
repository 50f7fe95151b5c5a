//! Sets that are looked up for the segments of a view.
ghost use Rattle.std.specs.Prelude.{◌≡◌, [], ◌∷◌, ◌++◌, map, None, option_map, replicate, IfOk, MatchResult};
ghost use Rattle.std.specs.Arc.{arc_value};
ghost use Rattle.std.specs.Map.{lookup};
ghost use Rattle.cat_cached_sets.specs.cache.Cached.{cache_key_of, same_key, used};
ghost use Rattle.cat_query.specs.View.{query_of};
ghost use Rattle.cat_cached_sets.specs.filters.Filters.{cache_key_in, set_in, sets_used_in};
ghost use Rattle.cat_model.specs.View.{segments_of};

use crate::cache::{FilterCache, Key};
use cat_query::DocSet;
use cat_views::Leaf;
use std::alloc::{AllocError, Global};
use std::sync::Arc;

/// The set that stands under the key, which is shared, and the last used from now on, also where the count of its users is
/// full.
fn set_under(cache: &mut FilterCache, key: &Key) -> Result<Option<Arc<DocSet>>, AllocError>
    ensures set { IfOk result (λ s. option_map arc_value s ≡ lookup (same_key (cache_key_of key.now)) cache.old) }
    ensures used { cache.new ≡ used (cache_key_of key.now) cache.old }
{
    match cache.look(key) {
        Some(set) => Ok(Some(Arc::try_clone(set)?)),
        None => Ok(None),
    }
}

/// The set that stands for the leaf's segment and the key's query. The key names that segment then.
fn set_for(
    cache: &mut FilterCache,
    key: &mut Key,
    leaf: &Leaf,
) -> Result<Option<Arc<DocSet>>, AllocError>
    ensures query { key.new.query ≡ key.old.query }
    ensures set { IfOk result (λ s. option_map arc_value s ≡ set_in cache.old (query_of key.old.query) leaf.now.segment) }
    ensures used { cache.new ≡ used (cache_key_in (query_of key.old.query) leaf.now.segment) cache.old }
{
    key.segment = leaf.segment().number();
    set_under(cache, key)
}

/// No set, as many times as counted.
fn no_sets(alloc: Global, count: usize) -> Result<Vec<Option<Arc<DocSet>>>, AllocError>
    ensures { IfOk result (λ v. v.items ≡ replicate count None) }
{
    let mut sets = Vec::with_capacity(alloc, count)?;
    for _ in 0..count {
        sets.push(None)?;
    }
    Ok(sets)
}

/// The sets with one more, where there was memory for all of them.
fn with_last(
    sets: Result<Vec<Option<Arc<DocSet>>>, AllocError>,
    set: Result<Option<Arc<DocSet>>, AllocError>,
) -> Result<Vec<Option<Arc<DocSet>>>, AllocError>
    ensures { IfOk result (λ v. MatchResult sets
        (λ old. MatchResult set (λ s. v.items ≡ old.items ++ s ∷ []) (λ e. ⊥)) (λ e. ⊥)) }
{
    let mut sets = sets?;
    sets.push(set?)?;
    Ok(sets)
}

/// The sets of the key's query that stand for the segments of the leaves, in order, each of which is the last used from its
/// look on, also where memory is wanting for the answer. The key may name any segment.
pub(crate) fn sets_under(
    alloc: Global,
    cache: &mut FilterCache,
    key: &mut Key,
    leaves: &[Leaf],
) -> Result<Vec<Option<Arc<DocSet>>>, AllocError>
    ensures sets { IfOk result (λ v. map (option_map arc_value) v.items
        ≡ map (set_in cache.old (query_of key.old.query)) (segments_of leaves.now)) }
    ensures used { cache.new ≡ sets_used_in (query_of key.old.query) (segments_of leaves.now) cache.old }
    ensures query { key.new.query ≡ key.old.query }
{
    // Each look hashes the query, also where there is nothing to find.
    if cache.len() == 0 {
        return no_sets(alloc, leaves.len());
    }
    let mut sets = Vec::with_capacity(alloc, leaves.len());
    for leaf in leaves {
        sets = with_last(sets, set_for(cache, key, leaf));
    }
    sets
}
