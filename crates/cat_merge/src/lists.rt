//! Lists of numbers as the parts of a column have them: one behind another, with the end of each.
ghost use Rattle.std.specs.Prelude.{◌≡◌, ◌<◌, ◌^◌, ◌++◌, ◌∷◌, [], map, length, take, All, IfOk, IsOk, OnOk, OnErr, slice_index};
ghost use Rattle.cat_model.specs.Layout.{pieces, AreEnds};

use std::alloc::{AllocError, Global};
use std::marker::Model;

/// Lists of numbers, fewer than 2^32 in all.
#[derive(Drop)]
pub(crate) struct Lists {
    ends: Vec<u32>,
    numbers: Vec<u32>,
}

impl Model for Lists {
    ghost use Rattle.std.specs.Prelude.{◌<◌, ◌^◌, ℕ, List, length};
    ghost use Rattle.cat_model.specs.Layout.{pieces, AreEnds};

    ghost Value = { List (List ℕ) };

    ghost view = { λ l. pieces 0 l.ends.items l.numbers.items };

    ghost invariant = { λ l. AreEnds 0 l.ends.items (length l.numbers.items) × (length l.numbers.items < 2 ^ 32) };
}

/// Adds the numbers that these indices have.
fn add_found(numbers: &mut Vec<u32>, indices: &[u32], found: &[u32]) -> Result<(), AllocError>
    requires { All (λ i. i < length found.now) indices.now }
    ensures ok { OnOk result (numbers.new.items ≡ numbers.old.items ++ map (slice_index found.now) indices.now) }
    ensures front { take (length numbers.old.items) numbers.new.items ≡ numbers.old.items }
{
    for index in indices {
        numbers.push(found[*index as usize])?;
    }
    Ok(())
}

/// Ends a list that began behind so many numbers, where they were added and aren't too many; else takes away what was added.
fn end_list(
    ends: &mut Vec<u32>,
    numbers: &mut Vec<u32>,
    start: usize,
    added: Result<(), AllocError>,
) -> Result<(), AllocError>
    ensures added { OnOk result (IsOk added) }
    ensures same { OnOk result (numbers.new.items ≡ numbers.old.items) }
    ensures ended { OnOk result (ends.new.items ≡ ends.old.items ++ length numbers.old.items ∷ []) }
    ensures few { OnOk result (length numbers.old.items < 2 ^ 32) }
    ensures err { OnErr result ((ends.new.items ≡ ends.old.items) × (numbers.new.items ≡ take start numbers.old.items)) }
{
    if added.is_ok() && numbers.len() <= u32::MAX as usize {
        if ends.push(numbers.len() as u32).is_ok() {
            return Ok(());
        }
    }
    numbers.truncate(start);
    Err(AllocError)
}

impl Lists {
    /// No list, with memory for the ends of so many.
    pub(crate) fn with_capacity(alloc: Global, lists: usize) -> Result<Lists, AllocError>
        ensures ok { IfOk result (λ l. l ≡ []) }
    {
        Ok(Lists {
            ends: Vec::with_capacity(alloc, lists)?,
            numbers: Vec::new(alloc),
        })
    }

    /// Adds the list. An error also where 2^32 numbers or more would stand.
    pub(crate) fn push(&mut self, list: &[u32]) -> Result<(), AllocError>
        ensures ok { OnOk result (self.new ≡ self.old ++ list.now ∷ []) }
    {
        let start = self.numbers.len();
        let added = self.numbers.extend_from_slice(list);
        end_list(&mut self.ends, &mut self.numbers, start, added)
    }

    /// Adds the list of the numbers that these indices have. An error also where 2^32 numbers or more would stand.
    pub(crate) fn push_found(&mut self, indices: &[u32], found: &[u32]) -> Result<(), AllocError>
        requires { All (λ i. i < length found.now) indices.now }
        ensures ok { OnOk result (self.new ≡ self.old ++ map (slice_index found.now) indices.now ∷ []) }
    {
        let start = self.numbers.len();
        let added = add_found(&mut self.numbers, indices, found);
        end_list(&mut self.ends, &mut self.numbers, start, added)
    }

    /// Where each list ends, and the numbers.
    pub(crate) fn into_parts(self) -> (Vec<u32>, Vec<u32>)
        ensures lists { pieces 0 result.0.items result.1.items ≡ self }
        ensures ends { AreEnds 0 result.0.items (length result.1.items) }
        ensures few { length result.1.items < 2 ^ 32 }
    {
        let Lists { ends, numbers } = self;
        (ends, numbers)
    }
}
