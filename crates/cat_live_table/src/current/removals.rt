//! What a delete by a query makes of the segments that stand, before any of it is done.
ghost use Rattle.std.specs.Prelude.{◌≡◌, ◌<◌, length, map, IfOk};
ghost use Rattle.std.specs.HashMap.{get_by_text};
ghost use Rattle.std.specs.List.{flat_map};
ghost use Rattle.cat_model.specs.RowSets.{joined, first_only};
ghost use Rattle.cat_model.specs.Text.{Text};
ghost use Rattle.cat_query.specs.View.{query_of};
ghost use Rattle.cat_live_table.specs.current.Places.{forgotten};
ghost use Rattle.cat_live_table.specs.current.Removals.{removed_from, lost};

use crate::current::places::{Place, forget};
use cat_columns::RowSet;
use cat_query::Query;
use cat_views::Leaf;
use std::alloc::{AllocError, Global};
use std::collections::HashMap;
use std::marker::Model;

/// The live rows of a leaf that a query matches, and the leaf without them.
#[derive(Drop)]
pub(crate) struct Removal {
    hits: RowSet,
    leaf: Leaf,
}

impl Model for Removal {
    ghost use Rattle.std.specs.Prelude.{◌≡◌, length};
    ghost use Rattle.cat_live_table.specs.current.Removals.{Removed};

    ghost Value = { Removed };

    ghost view = { λ r. record { hits = r.hits; leaf = r.leaf } };

    ghost invariant = { λ r. length r.hits ≡ length r.leaf.segment.rows };
}

impl Removal {
    /// What a delete by the query makes of the leaf. Where no live row matches, the live set is the same, shared.
    fn of(alloc: Global, leaf: &Leaf, query: &Query) -> Result<Removal, AllocError>
        ensures ok { IfOk result (λ r. r ≡ removed_from (query_of query.now) leaf.now) }
    {
        let mut hits = query.matches(alloc, leaf.segment())?.into_rows();
        hits.and_with(leaf.live().rows());
        let leaf = without_rows(alloc, leaf, &hits)?;
        Ok(Removal { hits, leaf })
    }

    /// The leaf without the rows, once more.
    fn leaf(&self) -> Result<Leaf, AllocError>
        ensures ok { IfOk result (λ l. l ≡ self.now.leaf) }
    {
        self.leaf.copy()
    }

    /// Forgets where the ids of the rows stand.
    fn forget(&self, places: &mut HashMap<String, Place>)
        ensures { (id : Text) → get_by_text places.new id ≡ forgotten (lost self.now) id (get_by_text places.old id) }
    {
        forget(places, &self.leaf, &self.hits);
    }
}

/// The leaf with these rows dead, in a live set of its own if there are any.
fn without_rows(alloc: Global, leaf: &Leaf, rows: &RowSet) -> Result<Leaf, AllocError>
    requires long { length rows.now ≡ length leaf.now.live }
    requires within { length rows.now ≡ length leaf.now.segment.rows }
    ensures ok { IfOk result (λ l. l ≡ record { segment = leaf.now.segment; live = joined first_only leaf.now.live rows.now }) }
{
    let mut after = leaf.copy()?;
    for row in rows.iter() {
        // The first kill puts a copy in the place of the shared live set, and the others change it.
        after.kill(alloc, row)?;
    }
    Ok(after)
}

/// What a delete by the query makes of each of the leaves.
pub(crate) fn removals_of(
    alloc: Global,
    leaves: &[Leaf],
    query: &Query,
) -> Result<Vec<Removal>, AllocError>
    ensures ok { IfOk result (λ rs. rs.items ≡ map (removed_from (query_of query.now)) leaves.now) }
{
    let mut removals = Vec::with_capacity(alloc, leaves.len())?;
    for leaf in leaves {
        removals.push(Removal::of(alloc, leaf, query)?)?;
    }
    Ok(removals)
}

/// The leaves without the rows.
pub(crate) fn leaves_left(alloc: Global, removals: &[Removal]) -> Result<Vec<Leaf>, AllocError>
    ensures ok { IfOk result (λ leaves. leaves.items ≡ map (λ r. r.leaf) removals.now) }
{
    let mut leaves = Vec::with_capacity(alloc, removals.len())?;
    for removal in removals {
        leaves.push(removal.leaf()?)?;
    }
    Ok(leaves)
}

/// Forgets where the ids of all the rows stand.
pub(crate) fn forget_all(places: &mut HashMap<String, Place>, removals: &[Removal])
    ensures { (id : Text) → get_by_text places.new id ≡ forgotten (flat_map lost removals.now) id (get_by_text places.old id) }
{
    for removal in removals {
        removal.forget(places);
    }
}
