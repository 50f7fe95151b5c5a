//! The ids of the live rows of leaves.
ghost use Rattle.std.specs.Prelude.{◌≡◌, ◌≢◌, ◌↔◌, ◌++◌, ◌||◌, map, not, IfOk, OnOk, IsTrue, AllPairs};
ghost use Rattle.cat_model.specs.Text.{Text, same_text};
ghost use Rattle.cat_model.specs.View.{live_rows};
ghost use Rattle.cat_columns.specs.Columns.{has_text};
ghost use Rattle.cat_views.specs.cat_segment.Filter.{id_hash};
ghost use Rattle.cat_commits.specs.reading.Judged.{live_ids, Differ};

use cat_views::Leaf;
use cat_views::cat_segment::id_hash;
use std::alloc::{AllocError, Global};
use std::collections::HashSet;

/// Appends the ids of the leaf's live rows.
fn push_ids<'a>(ids: &mut Vec<&'a str>, leaf: &'a Leaf) -> Result<(), AllocError>
    ensures { OnOk result (map (λ t. t.now) ids.new.items
        ≡ map (λ t. t.now) ids.old.items ++ map (λ r. r.id) (live_rows leaf.now)) }
{
    let segment = leaf.segment();
    let live = leaf.live();
    for row in 0..segment.len() {
        if live.is_live(row) {
            ids.push(segment.id(row))?;
        }
    }
    Ok(())
}

/// The ids of all live rows, in order.
fn ids_in<'a>(alloc: Global, leaves: &'a [Leaf]) -> Result<Vec<&'a str>, AllocError>
    ensures { IfOk result (λ v. map (λ t. t.now) v.items ≡ live_ids leaves.now) }
{
    let mut ids = Vec::new(alloc);
    for leaf in leaves {
        push_ids(&mut ids, leaf)?;
    }
    Ok(ids)
}

/// Adds the text, and answers whether it wasn't there.
fn add<'a>(texts: &mut HashSet<&'a str>, text: &'a str) -> Result<bool, AllocError>
    ensures fresh { IfOk result (λ fresh. fresh ≡ not (has_text text.now texts.old)) }
    ensures ok { OnOk result ((q : Text) → has_text q texts.new ≡ (has_text q texts.old || same_text q text.now)) }
{
    Ok(texts.insert(text)?)
}

/// Whether the texts differ.
fn differ(alloc: Global, texts: &[&str]) -> Result<bool, AllocError>
    ensures { IfOk result (λ differ. IsTrue differ ↔ Differ (map (λ t. t.now) texts.now)) }
{
    let mut seen = HashSet::with_capacity(alloc, texts.len())?;
    for text in texts {
        if !add(&mut seen, text)? {
            return Ok(false);
        }
    }
    Ok(true)
}

/// Appends the hashes of the ids of the leaf's live rows.
fn push_hashes(hashes: &mut Vec<u64>, leaf: &Leaf) -> Result<(), AllocError>
    ensures { OnOk result (hashes.new.items
        ≡ hashes.old.items ++ map (λ r. id_hash r.id) (live_rows leaf.now)) }
{
    let segment = leaf.segment();
    let live = leaf.live();
    hashes.reserve(leaf.live_count())?;
    for row in 0..segment.len() {
        if live.is_live(row) {
            hashes.push(id_hash(segment.id(row)))?;
        }
    }
    Ok(())
}

/// The hashes of the ids of all live rows, in order.
fn hashes_in(alloc: Global, leaves: &[Leaf]) -> Result<Vec<u64>, AllocError>
    ensures { IfOk result (λ v. v.items ≡ map id_hash (live_ids leaves.now)) }
{
    let mut hashes = Vec::new(alloc);
    for leaf in leaves {
        push_hashes(&mut hashes, leaf)?;
    }
    Ok(hashes)
}

/// Whether the hashes differ. It takes no memory.
fn hashes_differ(mut hashes: Vec<u64>) -> bool
    ensures { IsTrue result ↔ AllPairs (λ a b. a ≢ b) hashes.items }
{
    hashes.sort_unstable();
    hashes.is_sorted_by(|hash, next| hash < next)
}

/// Whether the ids of all live rows differ. No id is copied.
pub(crate) fn ids_differ(alloc: Global, leaves: &[Leaf]) -> Result<bool, AllocError>
    ensures { IfOk result (λ differ. IsTrue differ ↔ Differ (live_ids leaves.now)) }
{
    // Ids whose hashes differ do too, and to sort a million numbers takes less than a table of a million texts. Two ids
    // hardly ever share a hash; who makes ids that do brings about the slower way, and no more.
    if hashes_differ(hashes_in(alloc, leaves)?) {
        return Ok(true);
    }
    let ids = ids_in(alloc, leaves)?;
    differ(alloc, &ids)
}
