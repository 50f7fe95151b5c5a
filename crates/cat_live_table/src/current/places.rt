//! Where the live row of each id stands.
ghost use Rattle.std.specs.Prelude.{◌≡◌, ◌<◌, ◌≤◌, length, map, IfOk};
ghost use Rattle.std.specs.List.{HoldsAt};
ghost use Rattle.std.specs.HashMap.{get_by_text, spare};
ghost use Rattle.cat_model.specs.Text.{Text};
ghost use Rattle.cat_model.specs.View.{selected};
ghost use Rattle.cat_live_table.specs.current.Places.{PlacedId, placed_id_of, standing_in, placed_in_turn, moved_at, moved_in_turn, forgotten};

use cat_base::SegNo;
use cat_columns::RowSet;
use cat_views::Leaf;
use std::alloc::{AllocError, Global};
use std::collections::HashMap;
use std::marker::Model;

/// Where a row stands: the number of its segment, and its index there. So a place stays right where other segments come and
/// go.
#[derive(Clone, Copy)]
pub(crate) struct Place {
    pub(crate) segment: SegNo,
    pub(crate) row: u32,
}

/// The id of a live row, in memory of its own, with where the row stands.
#[derive(Drop)]
pub(crate) struct Placing {
    id: String,
    place: Place,
}

impl Model for Placing {
    ghost use Rattle.std.specs.Prelude.{string_bytes};
    ghost use Rattle.cat_live_table.specs.current.Places as places;

    ghost Value = { places.PlacedId };

    ghost view = { λ p. record { id = string_bytes p.id; place = p.place } };
}

/// The ids of the leaf's live rows, each with where its row stands.
pub(crate) fn placings_of(alloc: Global, leaf: &Leaf) -> Result<Vec<Placing>, AllocError>
    ensures ok { IfOk result (λ ps. ps.items ≡ map placed_id_of (standing_in leaf.now)) }
{
    let rows = leaf.live().rows();
    let mut placings = Vec::with_capacity(alloc, rows.count())?;
    for row in rows.iter() {
        placings.push(placing_of(alloc, leaf, row)?)?;
    }
    Ok(placings)
}

/// The id of the row with where it stands.
fn placing_of(alloc: Global, leaf: &Leaf, row: usize) -> Result<Placing, AllocError>
    requires { row < length leaf.now.segment.rows }
    ensures ok { IfOk result (λ p. HoldsAt (λ r. p ≡ record { id = r.id; place = record { segment = leaf.now.segment.number; row = row } })
        leaf.now.segment.rows row) }
{
    Ok(Placing {
        id: String::from_str(alloc, leaf.segment().id(row))?,
        place: place_at(leaf, row),
    })
}

/// Where the row of the leaf stands.
fn place_at(leaf: &Leaf, row: usize) -> Place
    requires { row < length leaf.now.segment.rows }
    ensures { result ≡ record { segment = leaf.now.segment.number; row = row } }
{
    let rows = leaf.live().len();
    prove!(row < rows);
    Place {
        segment: leaf.segment().number(),
        row: row as u32,
    }
}

/// Notes where the rows stand, one after the other. There is room for them.
pub(crate) fn place_all(places: &mut HashMap<String, Place>, placings: Vec<Placing>)
    requires { length placings.items ≤ spare places.old }
    ensures { (id : Text) → get_by_text places.new id ≡ placed_in_turn placings.items id (get_by_text places.old id) }
{
    for placing in placings {
        let Placing { id, place } = placing;
        let inserted: Result<_, _> = places.insert(id, place);
        let _before = inserted.unwrap();
    }
}

/// Notes where the live rows of the leaf stand, over the places that their ids have.
pub(crate) fn move_all(places: &mut HashMap<String, Place>, leaf: &Leaf)
    ensures { (id : Text) → get_by_text places.new id ≡ moved_in_turn (map placed_id_of (standing_in leaf.now)) id (get_by_text places.old id) }
{
    for row in leaf.live().rows().iter() {
        let place = place_at(leaf, row);
        move_to(places, leaf.segment().id(row), place);
    }
}

/// Notes this place of the id, if it has one.
fn move_to(places: &mut HashMap<String, Place>, id: &str, place: Place)
    ensures { (q : Text) → get_by_text places.new q ≡ moved_at (record { id = id.now; place = place }) q (get_by_text places.old q) }
{
    if let Some(noted) = places.get_mut(id) {
        *noted = place;
    }
}

/// Forgets where the ids of these rows of the leaf stand.
pub(crate) fn forget(places: &mut HashMap<String, Place>, leaf: &Leaf, rows: &RowSet)
    requires { length rows.now ≡ length leaf.now.segment.rows }
    ensures { (id : Text) → get_by_text places.new id ≡ forgotten (selected rows.now leaf.now.segment.rows) id (get_by_text places.old id) }
{
    for row in rows.iter() {
        places.remove(leaf.segment().id(row));
    }
}
