//! The texts of many sets, each once. Sets are merged two at a time, those first that have few texts.
ghost use Rattle.std.specs.Prelude.{◌≡◌, ◌++◌, ◌-◌, ◌^◌, ◌<◌, true, [], map, IfOk, OnOk};
ghost use Rattle.std.specs.List.{flat_map};
ghost use Rattle.cat_columns.specs.Merged.{HaveSame, texts_in};

use cat_base::Text;
use itertools::Itertools;
use std::alloc::{AllocError, Global};

/// The texts of a set.
fn texts_of<'a>(alloc: Global, set: &'a [Text]) -> Result<Vec<&'a Text>, AllocError>
    ensures ok { IfOk result (λ v. map (λ t. t.now) v.items ≡ set.now) }
{
    let mut texts = Vec::with_capacity(alloc, set.len())?;
    for text in set {
        texts.push(text)?;
    }
    Ok(texts)
}

/// The texts of both lists. Where both are in byte order, so is what comes out, each text once. No text is copied.
fn merged<'a>(
    alloc: Global,
    left: &[&'a Text],
    right: &[&'a Text],
) -> Result<Vec<&'a Text>, AllocError>
    ensures ok { IfOk result (λ v. HaveSame (map (λ t. t.now) v.items) (map (λ t. t.now) left.now ++ map (λ t. t.now) right.now)) }
{
    let mut all = Vec::with_capacity(alloc, left.len() + right.len())?;
    all.extend(left.iter().copied().merge(right.iter().copied()))?;
    // Not dropped on the way: an adaptor about the merge costs more proof than all else here.
    all.dedup();
    Ok(all)
}

/// The texts of both lists, as by [`merged`]; a list beside an empty one is handed on.
fn joined<'a>(
    alloc: Global,
    left: Vec<&'a Text>,
    right: Vec<&'a Text>,
) -> Result<Vec<&'a Text>, AllocError>
    ensures ok { IfOk result (λ v. HaveSame (map (λ t. t.now) v.items) (map (λ t. t.now) left.entry.items ++ map (λ t. t.now) right.entry.items)) }
{
    if left.is_empty() {
        return Ok(right);
    }
    if right.is_empty() {
        return Ok(left);
    }
    merged(alloc, &left, &right)
}

/// Whether so many texts are joined with those of the part below: it has at most twice as many, or no more than `least`.
fn is_joined(below: usize, len: usize, least: usize) -> bool
    ensures { least ≡ 2 ^ 64 - 1 → below < 2 ^ 64 → result ≡ true }
{
    below <= least || below / 2 <= len
}

/// The part with the texts of those that are taken off the end of the parts: each is taken while it has at most twice as many
/// texts as what was joined so far, or no more than `least`; the greatest `least` takes all. So a text that is moved stands among
/// half as many again each time, and where a part stays, it has more than twice the texts of what comes behind it.
fn settled<'a>(
    alloc: Global,
    parts: &mut Vec<Vec<&'a Text>>,
    part: Vec<&'a Text>,
    least: usize,
) -> Result<Vec<&'a Text>, AllocError>
    ensures ok { IfOk result (λ v. HaveSame (texts_in parts.new.items ++ map (λ t. t.now) v.items) (texts_in parts.old.items ++ map (λ t. t.now) part.entry.items)) }
    ensures all { IfOk result (λ _. least ≡ 2 ^ 64 - 1 → parts.new.items ≡ []) }
{
    let mut all = part;
    while let Some(below) = parts.pop() {
        if !is_joined(below.len(), all.len(), least) {
            parts.push(below)?;
            return Ok(all);
        }
        all = joined(alloc, below, all)?;
    }
    Ok(all)
}

/// Adds a set to the parts, of which each has more than twice the texts of what stands behind it. Parts with no more texts than
/// the set are joined first, so that a great set is gone through once.
fn add_set<'a>(
    alloc: Global,
    parts: &mut Vec<Vec<&'a Text>>,
    set: &'a [Text],
) -> Result<(), AllocError>
    ensures ok { OnOk result (HaveSame (texts_in parts.new.items) (texts_in parts.old.items ++ set.now)) }
{
    if set.is_empty() {
        return Ok(());
    }
    let small = settled(alloc, parts, Vec::new(alloc), set.len())?;
    let part = joined(alloc, small, texts_of(alloc, set)?)?;
    let part = settled(alloc, parts, part, 0)?;
    parts.push(part)?;
    Ok(())
}

/// The texts of the sets. Where each set is in byte order, so are they, each once. No call stands for a set, and the time is that
/// of the texts, times the logarithm of how many sets there are.
pub(crate) fn united<'a>(alloc: Global, sets: &[&'a [Text]]) -> Result<Vec<&'a Text>, AllocError>
    ensures ok { IfOk result (λ v. HaveSame (map (λ t. t.now) v.items) (flat_map (λ s. s.now) sets.now)) }
{
    let mut parts = Vec::new(alloc);
    for set in sets {
        add_set(alloc, &mut parts, set)?;
    }
    settled(alloc, &mut parts, Vec::new(alloc), usize::MAX)
}
