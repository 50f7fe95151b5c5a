//! The segments that stand.
ghost use Rattle.std.specs.Prelude.{◌≡◌, ◌<◌, ◌≤◌, ◌+◌, ◌-◌, true, [], ◌∷◌, ◌++◌, length, take, drop, map, option_to_list, vec_capacity, IfOk, OnOk, OnErr};
ghost use Rattle.std.specs.HashMap.{get_by_text};
ghost use Rattle.std.specs.List.{flat_map};
ghost use Rattle.cat_model.specs.Text.{Text};
ghost use Rattle.cat_model.specs.View.{live_rows};
ghost use Rattle.cat_model.specs.Write as write;
ghost use Rattle.cat_ledger_laws.specs.model.Leaves.{AreLeaves, has_live_id, leaves_after};
ghost use Rattle.cat_query.specs.View.{query_of};
ghost use Rattle.cat_live_table.specs.current.Places.{placed_id_of, standing, moved_in_turn};

use crate::current::indices::index_all;
use crate::current::places::{Place, forget, move_all, place_all, placings_of};
use crate::current::removals::{forget_all, leaves_left, removals_of};
use cat_base::SegNo;
use cat_query::Query;
use cat_views::Leaf;
use std::alloc::{AllocError, Global};
use std::collections::HashMap;
use std::marker::Model;

/// The segments that stand, each with its live rows, and the place of each live id. (Lucene: the `SegmentInfos` of an
/// `IndexWriter` with its `ReaderPool`. That a delete finds its row by a map is our own: there each segment is asked.)
///
/// Contracts see it as the list of its leaves: their numbers differ, and so do the ids of their live rows.
pub struct Current {
    alloc: Global,
    leaves: Vec<Leaf>,
    // The index of each segment, by its number.
    indices: HashMap<SegNo, usize>,
    places: HashMap<String, Place>,
}

impl Model for Current {
    ghost use Rattle.std.specs.Prelude.{List, nat_eq};
    ghost use Rattle.std.specs.HashMap.{get, get_by_text, hash_map_len};
    ghost use Rattle.cat_model.specs.View as model;
    ghost use Rattle.cat_live_table.specs.current.Currents.{IsCurrent};

    ghost Value = { List model.Leaf };

    ghost view = { λ c. c.leaves.items };

    ghost invariant = { λ c. IsCurrent (get_by_text c.places) (get nat_eq c.indices) (hash_map_len c.indices) c.leaves.items };
}

impl Drop for Current {
    fn drop(self) {
        let Current {
            alloc: _,
            leaves,
            indices,
            places,
        } = self;
        drop(leaves);
        drop(indices);
        drop(places);
    }
}

/// How many live rows the leaves have together.
fn live_rows_in(leaves: &[Leaf]) -> usize {
    let mut count: usize = 0;
    for leaf in leaves {
        count = count.saturating_add(leaf.live_count());
    }
    count
}

impl Current {
    /// No segment. What it holds is taken from the allocator.
    pub fn new(alloc: Global) -> Current
        ensures { result ≡ [] }
    {
        Current {
            alloc,
            leaves: Vec::new(alloc),
            indices: HashMap::new(alloc),
            places: HashMap::new(alloc),
        }
    }

    /// No segment, with room for the places of so many ids.
    fn with_room(alloc: Global, ids: usize) -> Result<Current, AllocError>
        ensures ok { IfOk result (λ c. c ≡ []) }
    {
        Ok(Current {
            alloc,
            leaves: Vec::new(alloc),
            indices: HashMap::new(alloc),
            places: HashMap::with_capacity(alloc, ids)?,
        })
    }

    /// The segments of a commit that is opened. Their numbers differ, and so do the ids of their live rows.
    pub fn of(leaves: Vec<Leaf>) -> Result<Current, AllocError>
        requires { AreLeaves leaves.items }
        ensures ok { IfOk result (λ c. c ≡ leaves.items) }
    {
        let mut current = Current::with_room(*leaves.allocator(), live_rows_in(&leaves))?;
        for leaf in leaves {
            current.push(leaf)?;
        }
        Ok(current)
    }

    /// The segments in order, each with its live rows.
    pub fn leaves(&self) -> &[Leaf]
        ensures value { result.now ≡ self.now }
        ensures leaves { AreLeaves self.now }
    {
        self.leaves.as_slice()
    }

    /// The segments as they are now, for a view: all in them is shared, so that the cost is the number of segments.
    pub fn copy(&self) -> Result<Vec<Leaf>, AllocError>
        ensures ok { IfOk result (λ leaves. leaves.items ≡ self.now) }
    {
        copies_of(self.alloc, &self.leaves)
    }

    /// Makes the live row of the id dead, if there is one, which takes one look and one kill (Lucene:
    /// `IndexWriter.deleteDocuments` by a term). An error changes nothing.
    pub fn delete(&mut self, id: &str) -> Result<(), AllocError>
        ensures ok { OnOk result (self.new ≡ leaves_after (write.Write.delete id.now) self.old) }
        ensures err { OnErr result (self.new ≡ self.old) }
        ensures live { OnErr result (has_live_id id.now self.old ≡ true) }
    {
        let Some(Place { segment, row }) = self.places.get(id).copied() else {
            return Ok(());
        };
        let Some(index) = self.indices.get(&segment).copied() else {
            return Ok(());
        };
        let alloc = self.alloc;
        let leaf = &mut self.leaves[index];
        leaf.kill(alloc, row as usize)?;
        self.places.remove(id);
        Ok(())
    }

    /// Puts a segment last, that a flush made or that a commit has. An error changes nothing.
    pub fn push(&mut self, leaf: Leaf) -> Result<(), AllocError>
        requires { AreLeaves (self.old ++ leaf ∷ []) }
        ensures ok { OnOk result (self.new ≡ self.old ++ leaf ∷ []) }
        ensures err { OnErr result (self.new ≡ self.old) }
    {
        // All memory is taken first, so that an error changes nothing.
        let placings = placings_of(self.alloc, &leaf)?;
        self.places.reserve(placings.len())?;
        self.indices.reserve(1)?;
        self.leaves.reserve(1)?;
        place_all(&mut self.places, placings);
        let number = leaf.segment().number();
        let indexed: Result<_, _> = self.indices.insert(number, self.leaves.len());
        let _before = indexed.unwrap();
        let pushed: Result<_, _> = self.leaves.push(leaf);
        pushed.unwrap();
        Ok(())
    }

    /// Takes the last segment out, so that a push can be taken back. It takes no memory.
    pub fn pop(&mut self)
        requires { 0 < length self.old }
        ensures { self.new ≡ take (length self.old - 1) self.old }
    {
        let Some(leaf) = self.leaves.pop() else {
            return;
        };
        self.indices.remove(&leaf.segment().number());
        forget(&mut self.places, &leaf, leaf.live().rows());
    }

    /// Puts the merged segment, if any row was kept, in the place of the `count` segments from `index` on, whose live rows it has
    /// (Lucene: `IndexWriter.commitMerge`). The work is in proportion to its live rows and to the number of segments. An error
    /// changes nothing.
    pub fn install(
        &mut self,
        index: usize,
        count: usize,
        merged: Option<Leaf>,
    ) -> Result<(), AllocError>
        requires some { 0 < count }
        requires within { index + count ≤ length self.old }
        requires rows { flat_map live_rows (option_to_list merged) ≡ flat_map live_rows (take count (drop index self.old)) }
        requires stands { AreLeaves (take index self.old ++ (option_to_list merged ++ drop (index + count) self.old)) }
        ensures ok { OnOk result (self.new ≡ take index self.old ++ (option_to_list merged ++ drop (index + count) self.old)) }
        ensures err { OnErr result (self.new ≡ self.old) }
    {
        // All memory is taken first, so that an error changes nothing.
        let mut indices = HashMap::with_capacity(self.alloc, self.leaves.len())?;
        let behind = self.leaves.split_off(index + count)?;
        self.leaves.truncate(index);
        move_any(&mut self.places, &merged);
        append(&mut self.leaves, merged, behind);
        index_all(&mut indices, &self.leaves);
        self.indices = indices;
        Ok(())
    }

    /// Makes the live rows dead that the query matches (Lucene: `IndexWriter.deleteDocuments` by a query). A segment with no such
    /// row shares its live set as before. An error changes nothing.
    pub fn delete_where(&mut self, query: &Query) -> Result<(), AllocError>
        ensures ok { OnOk result (self.new ≡ leaves_after (write.Write.delete_where (query_of query.now)) self.old) }
        ensures err { OnErr result (self.new ≡ self.old) }
    {
        // All memory is taken first, so that an error changes nothing.
        let removals = removals_of(self.alloc, &self.leaves, query)?;
        let leaves = leaves_left(self.alloc, &removals)?;
        forget_all(&mut self.places, &removals);
        self.leaves = leaves;
        Ok(())
    }
}

/// Notes where the live rows of the leaf stand, if there is a leaf, over the places that their ids have.
fn move_any(places: &mut HashMap<String, Place>, leaf: &Option<Leaf>)
    ensures { (id : Text) → get_by_text places.new id
        ≡ moved_in_turn (map placed_id_of (standing (option_to_list leaf.now))) id (get_by_text places.old id) }
{
    if let Some(leaf) = leaf {
        move_all(places, leaf);
    }
}

/// Puts the leaf, if there is one, and those behind it last. There is room for them.
fn append(leaves: &mut Vec<Leaf>, leaf: Option<Leaf>, mut behind: Vec<Leaf>)
    requires { length leaves.old.items + 1 + length behind.items ≤ vec_capacity leaves.old }
    ensures { leaves.new.items ≡ leaves.old.items ++ (option_to_list leaf ++ behind.items) }
{
    if let Some(leaf) = leaf {
        let pushed: Result<_, _> = leaves.push(leaf);
        pushed.unwrap();
    }
    let appended: Result<_, _> = leaves.append(&mut behind);
    appended.unwrap();
}

/// The leaves once more, all in them shared.
fn copies_of(alloc: Global, leaves: &[Leaf]) -> Result<Vec<Leaf>, AllocError>
    ensures ok { IfOk result (λ copies. copies.items ≡ leaves.now) }
{
    let mut copies = Vec::with_capacity(alloc, leaves.len())?;
    for leaf in leaves {
        copies.push(leaf.copy()?)?;
    }
    Ok(copies)
}
