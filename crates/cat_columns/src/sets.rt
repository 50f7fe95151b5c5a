//! A column of sets of labels: a dictionary, the ordinals of each row's labels, and where each row's end.
ghost use Rattle.std.specs.Prelude.{◌≡◌, ◌↔◌, ◌⊎◌, ℕ, ◌+◌, Err, ◌^◌, ◌<◌, ◌++◌, ◌∷◌, List, [], length, map, IfOk, IfErr, OnOk, All, Contains, IsTrue, slice_index, slice_index_or};
ghost use Rattle.std.specs.List.{list_any, flat_map};
ghost use Rattle.std.specs.List.Sorted.{IsStrictlyIncreasing};
ghost use Rattle.cat_base.specs.Texts.{IsTextSet};
ghost use Rattle.cat_base.specs.declared.refusal.Refusal.TheVariants.{Damaged, Memory};
ghost use Rattle.cat_model.specs.Text.{Text, same_text};
ghost use Rattle.cat_model.specs.Layout.{ordinal_in, pieces, AreEnds};
ghost use Rattle.cat_model.specs.Ordinals.{dictionary_of, text_at};
ghost use Rattle.cat_columns.specs.Columns.{has_text, row_ends_from, AreOrdinals, IsLaidAsSets, HasNoSets};

use crate::covering::covers;
use crate::dictionary::Dictionary;
use crate::gathering::{add_texts, dictionary_from};
use cat_base::{Refusal, Text, rises};
use std::alloc::{AllocError, Global};
use std::collections::HashSet;
use std::marker::Model;

/// A set of labels for each row: Lucene's `SortedSetDocValues`.
///
/// Contracts see it as the list of the rows' sets, each as the list of its labels in byte order.
pub struct SetColumn {
    dictionary: Dictionary,
    /// Where each row's ordinals end.
    ends: Vec<u32>,
    /// The ordinals of the rows' labels, one row behind another.
    ordinals: Vec<u32>,
}

impl Model for SetColumn {
    ghost use Rattle.std.specs.Prelude.{List, ℕ, map};
    ghost use Rattle.cat_model.specs.Layout.{pieces};
    ghost use Rattle.cat_model.specs.Ordinals.{text_at};
    ghost use Rattle.cat_columns.specs.Columns.{IsSets};

    ghost Value = { List (List (List ℕ)) };

    ghost view = { λ c. pieces 0 c.ends.items (map (text_at c.dictionary) c.ordinals.items) };

    ghost invariant = { λ c. IsSets c.dictionary c.ends.items c.ordinals.items };
}

impl Drop for SetColumn {
    fn drop(self) {
        let SetColumn {
            dictionary,
            ends,
            ordinals,
        } = self;
        drop(dictionary);
        drop(ends);
        drop(ordinals);
    }
}

/// The distinct labels of the rows.
fn labels_in<'a>(alloc: Global, rows: &[&'a [Text]]) -> Result<HashSet<&'a str>, AllocError>
    ensures ok { IfOk result (λ s. (text : Text) → has_text text s ≡ list_any (same_text text) (flat_map (λ row. row.now) rows.now)) }
{
    let mut labels = HashSet::new(alloc);
    for row in rows {
        add_texts(&mut labels, row)?;
    }
    Ok(labels)
}

/// The ordinal of a label that the dictionary has.
fn ordinal_of(dictionary: &Dictionary, label: &Text) -> u32
    requires few { length dictionary.now < 2 ^ 32 }
    requires there { Contains dictionary.now label.now }
    ensures value { text_at dictionary.now result ≡ label.now }
    ensures bound { result < length dictionary.now }
{
    match dictionary.ordinal(label.as_str()) {
        Some(ordinal) => ordinal as u32,
        None => 0,
    }
}

/// Adds the ordinals of the row's labels, which the dictionary has.
fn add_ordinals(
    ordinals: &mut Vec<u32>,
    dictionary: &Dictionary,
    row: &[Text],
) -> Result<(), AllocError>
    requires few { length dictionary.now < 2 ^ 32 }
    requires there { All (Contains dictionary.now) row.now }
    requires old { All (λ o. o < length dictionary.now) ordinals.old.items }
    ensures value { OnOk result (map (text_at dictionary.now) ordinals.new.items ≡ map (text_at dictionary.now) ordinals.old.items ++ row.now) }
    ensures bound { OnOk result (All (λ o. o < length dictionary.now) ordinals.new.items) }
{
    for label in row {
        ordinals.push(ordinal_of(dictionary, label))?;
    }
    Ok(())
}

/// Where each row's ordinals end, and the ordinals.
fn laid(
    alloc: Global,
    dictionary: &Dictionary,
    rows: &[&[Text]],
) -> Result<(Vec<u32>, Vec<u32>), AllocError>
    requires few { length dictionary.now < 2 ^ 32 }
    requires there { All (λ row. All (Contains dictionary.now) row.now) rows.now }
    ensures ends { IfOk result (λ p. p.0.items ≡ row_ends_from 0 (map (λ row. row.now) rows.now)) }
    ensures ordinals { IfOk result (λ p. map (text_at dictionary.now) p.1.items ≡ flat_map (λ row. row.now) rows.now) }
    ensures bound { IfOk result (λ p. All (λ o. o < length dictionary.now) p.1.items) }
{
    let mut ends = Vec::with_capacity(alloc, rows.len())?;
    let mut ordinals = Vec::new(alloc);
    for row in rows {
        add_ordinals(&mut ordinals, dictionary, row)?;
        if ordinals.len() > u32::MAX as usize {
            return Err(AllocError);
        }
        ends.push(ordinals.len() as u32)?;
    }
    Ok((ends, ordinals))
}

/// Where the row's ordinals begin: where those of the row before it end.
fn start_of(ends: &[u32], row: usize) -> usize
    requires { row < length ends.now }
    ensures { result ≡ slice_index (0 ∷ ends.now) row }
{
    if row == 0 { 0 } else { ends[row - 1] as usize }
}

/// Whether each ordinal is below `len`.
fn ordinals_are_within(len: usize, ordinals: &[u32]) -> bool
    ensures { IsTrue result ↔ All (λ o. o < len) ordinals.now }
{
    ordinals.iter().all(|ordinal| (*ordinal as usize) < len)
}

/// Whether the ordinals of each row rise.
fn rows_rise(ends: &[u32], ordinals: &[u32]) -> bool
    requires parts { AreEnds 0 ends.now (length ordinals.now) }
    ensures { IsTrue result ↔ All IsStrictlyIncreasing (pieces 0 ends.now ordinals.now) }
{
    let mut from = 0;
    for end in ends {
        let to = *end as usize;
        if !rises(&ordinals[from..to]) {
            return false;
        }
        from = to;
    }
    true
}

/// Whether a column with `len` labels may have the ordinals: none is past the last label, each label has one, and those of
/// each row rise.
fn are_ordinals(len: usize, ends: &[u32], ordinals: &[u32]) -> bool
    requires { AreEnds 0 ends.now (length ordinals.now) }
    ensures { IsTrue result ↔ AreOrdinals len ends.now ordinals.now }
{
    if len > ordinals.len() {
        return false;
    }
    if !ordinals_are_within(len, ordinals) {
        return false;
    }
    if !rows_rise(ends, ordinals) {
        return false;
    }
    covers(ordinals, 0, len)
}

impl SetColumn {
    /// The column of the rows' sets, as Lucene's `SortedSetDocValuesWriter` makes it: each distinct label is copied once, and
    /// they are sorted once. An error also where the rows have 2^32 labels or more.
    pub fn of(alloc: Global, rows: &[&[Text]]) -> Result<Self, AllocError>
        requires few { length rows.now < 2 ^ 32 }
        requires sets { All (λ row. IsTextSet row.now) rows.now }
        ensures ok { IfOk result (λ c. c ≡ map (λ row. row.now) rows.now) }
    {
        let dictionary = dictionary_from(alloc, &labels_in(alloc, rows)?)?;
        if dictionary.len() > u32::MAX as usize {
            return Err(AllocError);
        }
        let (ends, ordinals) = laid(alloc, &dictionary, rows)?;
        Ok(SetColumn {
            dictionary,
            ends,
            ordinals,
        })
    }

    /// The column that a file has as a dictionary and the ordinals of the rows' labels, one row behind another, each up to its
    /// end (`DocValuesProducer.getSortedSet`). All three are taken over, in linear time.
    ///
    /// [`Refusal::Damaged`] exactly where no column is laid out so: the dictionary doesn't rise by bytes, an ordinal is past
    /// it, those of a row don't rise, or no row has one of its labels. That is judged before memory is asked for.
    pub fn from_ordinals(
        alloc: Global,
        dictionary: Vec<Text>,
        ends: Vec<u32>,
        ordinals: Vec<u32>,
    ) -> Result<Self, Refusal>
        requires few { length ends.items < 2 ^ 32 }
        requires parts { AreEnds 0 ends.items (length ordinals.items) }
        ensures ok { IfOk result (λ c. IsLaidAsSets c dictionary.items ends.items ordinals.items) }
        ensures damaged { IfErr result (λ e. e ≡ Damaged → HasNoSets dictionary.items ends.items ordinals.items) }
        ensures due { HasNoSets dictionary.items ends.items ordinals.items → result ≡ Err Damaged }
        ensures refusal { IfErr result (λ e. (e ≡ Damaged) ⊎ (e ≡ Memory)) }
    {
        if !rises(&dictionary) {
            return Err(Refusal::Damaged);
        }
        if !are_ordinals(dictionary.len(), &ends, &ordinals) {
            return Err(Refusal::Damaged);
        }
        let dictionary = Dictionary::from_sorted(alloc, dictionary)?;
        Ok(SetColumn {
            dictionary,
            ends,
            ordinals,
        })
    }

    /// Where each row's ordinals end, and the ordinals of all rows, one row behind another, as a file has them.
    pub fn layout(&self) -> (&[u32], &[u32])
        ensures parts { AreEnds 0 result.0.now (length result.1.now) }
        ensures laid { pieces 0 result.0.now result.1.now ≡ map (map (ordinal_in (dictionary_of self.now))) self.now }
        ensures rows { length result.0.now ≡ length self.now }
    {
        (&self.ends, &self.ordinals)
    }

    /// How many rows there are.
    pub fn len(&self) -> usize
        ensures value { result ≡ length self.now }
        ensures few { length self.now < 2 ^ 32 }
        ensures sets { All IsTextSet self.now }
    {
        self.ends.len()
    }

    /// The labels that some row has.
    pub fn dictionary(&self) -> &Dictionary
        ensures { result.now ≡ dictionary_of self.now }
    {
        &self.dictionary
    }

    /// The ordinals of the row's labels, rising (`SortedSetDocValues.nextOrd`).
    pub fn ordinals(&self, row: usize) -> &[u32]
        requires { row < length self.now }
        ensures value { map (text_at (dictionary_of self.now)) result.now ≡ slice_index_or self.now row [] }
        ensures bound { All (λ o. o < length (dictionary_of self.now)) result.now }
        ensures laid { result.now ≡ map (ordinal_in (dictionary_of self.now)) (slice_index_or self.now row []) }
    {
        &self.ordinals[start_of(&self.ends, row)..self.ends[row] as usize]
    }
}
