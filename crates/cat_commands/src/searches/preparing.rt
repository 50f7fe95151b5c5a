//! A query made ready for a view, with the sets that are at hand.
ghost use Rattle.std.specs.Prelude.{◌≡◌, All, IfOk};
ghost use Rattle.cat_model.specs.View.{segments_of};
ghost use Rattle.cat_cached_sets.specs.cat_query.View.{query_of};
ghost use Rattle.cat_cached_sets.specs.filters.Known.{Knows, Remembers, RemembersBelow};
ghost use Rattle.cat_commands.specs.searches.Uses.{Uses};

use cat_cached_sets::cache::Key;
use cat_cached_sets::filters::Filters;
use cat_cached_sets::{Query, View};
use cat_protocol::Prepared;
use std::alloc::AllocError;

/// The query, to be put to the view, with the sets that are cached for the view's segments, which are the last used from now
/// on, also where memory is wanting. (Lucene: what `IndexSearcher` asks its `LRUQueryCache` for.) It notes nothing.
pub(crate) fn prepare(
    filters: &mut Filters,
    view: &View,
    query: Query,
) -> Result<Prepared, AllocError>
    requires { All (Knows filters.old) (segments_of view.now.leaves) }
    ensures ok { IfOk result (λ p. p ≡ record { view = view.now; query = query }) }
    ensures used { Uses (query_of query) view.now filters.old filters.new }
    ensures known { Remembers filters.old filters.new }
    ensures below { RemembersBelow filters.old filters.new }
{
    // Which segment the key names first doesn't matter.
    let mut key = Key { segment: 0, query };
    let sets = filters.sets_for(&mut key, view.leaves())?;
    Prepared::with(view, key.query, sets)
}
