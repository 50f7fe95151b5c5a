//! The live row of an id.
ghost use Rattle.std.specs.Prelude.{◌≡◌, false, MatchOption};
ghost use Rattle.std.specs.List.{list_any, flat_map};
ghost use Rattle.cat_model.specs.View.{live_rows};
ghost use Rattle.cat_segment.specs.Filter.{id_hash};
ghost use Rattle.cat_views.specs.Sources.{IsLiveIn, IsLiveRowOf, has_id, has_live};

use crate::view::Leaf;
use cat_segment::id_hash;

/// The live row of the leaf that has this id, whose hash is given. Most leaves without such a row are left after a look at
/// two bits.
fn row_in(leaf: &Leaf, id: &str, hash: u64) -> Option<usize>
    requires { hash ≡ id_hash id.now }
    ensures { MatchOption result (has_live id.now leaf.now ≡ false) (λ row. IsLiveIn id.now leaf.now row) }
{
    if !leaf.segment().may_have(hash) {
        return None;
    }
    let row = leaf.segment().row_with(id)?;
    prove!(row < leaf.segment().len());
    if leaf.live().is_live(row) {
        Some(row)
    } else {
        None
    }
}

/// The live row of this id, by its leaf and its index there. The id is hashed once for all leaves.
pub(crate) fn live_row_with<'a>(leaves: &'a [Leaf], id: &str) -> Option<(&'a Leaf, usize)>
    ensures { MatchOption result
        (list_any (has_id id.now) (flat_map live_rows leaves.now) ≡ false)
        (λ at. IsLiveRowOf id.now leaves.now at.0.now at.1) }
{
    let hash = id_hash(id);
    for leaf in leaves {
        if let Some(row) = row_in(leaf, id, hash) {
            return Some((leaf, row));
        }
    }
    None
}
