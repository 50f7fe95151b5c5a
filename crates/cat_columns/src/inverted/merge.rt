//! How the terms of a merged segment are made of those of its inputs, as Lucene's `FieldsConsumer.merge` makes them.
ghost use Rattle.std.specs.Prelude.{◌≡◌, ℕ, ◌^◌, ◌<◌, ◌++◌, [], length, map, filter, nat_lt, All, Contains, IfOk, OnOk};
ghost use Rattle.std.specs.List.{flat_map, zip};
ghost use Rattle.cat_base.specs.Texts.{IsTextSet};
ghost use Rattle.cat_model.specs.Text.{Text};
ghost use Rattle.cat_model.specs.Ordinals.{dictionary_of, postings_of, text_at};
ghost use Rattle.cat_columns.specs.Merged.{kept_of, row_in, moved, AreNumbered};
ghost use Rattle.cat_columns.specs.inverted.Gathered.{ends_from, list_of_ordinal};

use crate::Dictionary;
use crate::inverted::laying::add_list;
use crate::inverted::terms::Terms;
use cat_base::Text;
use smallvec::SmallVec;
use std::alloc::{AllocError, Global};

/// What a merge takes of one segment: its terms, and where its rows go (Lucene: a `FieldsProducer` of a `MergeState` with its
/// `DocMap`).
#[derive(Clone, Copy, Drop)]
pub struct MergeInput<'a> {
    /// The terms.
    pub terms: &'a Terms,
    /// For each row 0, where the row is left out, or else its row in the result plus 1.
    pub row_map: &'a [u32],
}

/// Postings of at most so many rows take no memory of their own while they are gathered: those of most words of a merge of
/// small segments.
const FEW_ROWS: usize = 4;

/// As many lists as there are to be, each empty.
fn empty_lists(alloc: Global, count: usize) -> Result<Vec<SmallVec<u32, FEW_ROWS>>, AllocError>
    ensures count { IfOk result (λ v. length v.items ≡ count) }
    ensures empty { IfOk result (λ v. All (λ list. list.items ≡ []) v.items) }
{
    let mut lists = Vec::with_capacity(alloc, count)?;
    for _ in 0..count {
        lists.push(SmallVec::new(alloc))?;
    }
    Ok(lists)
}

/// Adds the row of the code, unless the code is of none.
fn add_row(list: &mut SmallVec<u32, FEW_ROWS>, code: u32) -> Result<(), AllocError>
    ensures ok { OnOk result (list.new.items ≡ list.old.items ++ row_in code) }
{
    if code != 0 {
        list.push(code - 1)?;
    }
    Ok(())
}

/// Adds the rows of the result that these rows become.
fn add_moved(
    list: &mut SmallVec<u32, FEW_ROWS>,
    rows: &[u32],
    row_map: &[u32],
) -> Result<(), AllocError>
    requires { All (λ r. r < length row_map.now) rows.now }
    ensures ok { OnOk result (list.new.items ≡ list.old.items ++ moved row_map.now rows.now) }
{
    for row in rows {
        add_row(list, row_map[*row as usize])?;
    }
    Ok(())
}

/// Adds the rows of the input that each word has.
fn add_input(
    alloc: Global,
    lists: &mut Vec<SmallVec<u32, FEW_ROWS>>,
    words: &Dictionary,
    input: &MergeInput<'_>,
) -> Result<(), AllocError>
    requires few { length words.now < 2 ^ 32 }
    requires sorted { IsTextSet words.now }
    requires count { length lists.old.items ≡ length words.now }
    requires fits { length input.now.row_map.now ≡ length input.now.terms.now }
    requires there { All (Contains words.now) (dictionary_of input.now.terms.now) }
    ensures count { length lists.new.items ≡ length lists.old.items }
    ensures lists { OnOk result ((ordinal : ℕ) → ordinal < length words.now → list_of_ordinal lists.new ordinal
        ≡ list_of_ordinal lists.old ordinal
        ++ moved input.now.row_map.now (postings_of (text_at words.now ordinal) input.now.terms.now)) }
    ensures sets { All IsTextSet input.now.terms.now }
{
    // Its contract says that each row has a set of words.
    let _rows = input.terms.len();
    let ordinals = words.remap(alloc, input.terms.words())?;
    for (word, ordinal) in ordinals.iter().enumerate() {
        let list = &mut lists[*ordinal as usize];
        add_moved(list, input.terms.postings_at(word), input.row_map)?;
    }
    Ok(())
}

/// The rows of the result that each of the words has.
fn gathered(
    alloc: Global,
    words: &Dictionary,
    inputs: &[MergeInput<'_>],
) -> Result<Vec<SmallVec<u32, FEW_ROWS>>, AllocError>
    requires few { length words.now < 2 ^ 32 }
    requires sorted { IsTextSet words.now }
    requires fits { All (λ p. length p.row_map.now ≡ length p.terms.now) inputs.now }
    requires numbered { AreNumbered 0 (flat_map (λ p. p.row_map.now) inputs.now) }
    requires there { All (λ p. All (Contains words.now) (dictionary_of p.terms.now)) inputs.now }
    ensures count { IfOk result (λ v. length v.items ≡ length words.now) }
    ensures lists { IfOk result (λ v. (ordinal : ℕ) → ordinal < length words.now → list_of_ordinal v ordinal
        ≡ postings_of (text_at words.now ordinal) (flat_map (λ p. kept_of p.row_map.now p.terms.now) inputs.now)) }
    ensures sets { IfOk result (λ v. All (λ p. All IsTextSet p.terms.now) inputs.now) }
{
    let mut lists = empty_lists(alloc, words.len())?;
    for input in inputs {
        add_input(alloc, &mut lists, words, input)?;
    }
    Ok(lists)
}

/// The words whose lists aren't empty.
fn used_words(
    alloc: Global,
    words: &[Text],
    lists: &[SmallVec<u32, FEW_ROWS>],
) -> Result<Vec<Text>, AllocError>
    requires { length lists.now ≡ length words.now }
    ensures ok { IfOk result (λ v. v.items
        ≡ map (λ e. e.0) (filter (λ e. nat_lt 0 (length e.1)) (zip words.now (map (λ list. list.items) lists.now)))) }
{
    let mut used = Vec::with_capacity(alloc, words.len())?;
    for (ordinal, list) in lists.iter().enumerate() {
        if !list.is_empty() {
            used.push(words[ordinal].copy()?)?;
        }
    }
    Ok(used)
}

/// Takes the lists of no row away.
fn remove_empty(lists: &mut Vec<SmallVec<u32, FEW_ROWS>>)
    ensures { lists.new.items ≡ filter (λ list. nat_lt 0 (length list.items)) lists.old.items }
{
    lists.retain(|list| !list.is_empty());
}

/// The words of each input.
fn words_of<'a>(alloc: Global, inputs: &[MergeInput<'a>]) -> Result<Vec<&'a [Text]>, AllocError>
    ensures ok { IfOk result (λ v. map (λ w. w.now) v.items ≡ map (λ p. dictionary_of p.terms.now) inputs.now) }
{
    let mut words = Vec::with_capacity(alloc, inputs.len())?;
    for input in inputs {
        words.push(input.terms.words())?;
    }
    Ok(words)
}

/// Where each list ends, and the lists, one behind another.
fn laid(
    alloc: Global,
    lists: &[SmallVec<u32, FEW_ROWS>],
) -> Result<(Vec<u32>, Vec<u32>), AllocError>
    ensures ends { IfOk result (λ p. p.0.items ≡ ends_from 0 (map (λ list. list.items) lists.now)) }
    ensures rows { IfOk result (λ p. p.1.items ≡ flat_map (λ list. list) (map (λ list. list.items) lists.now)) }
    ensures few { IfOk result (λ p. length p.1.items < 2 ^ 32) }
{
    let mut ends = Vec::with_capacity(alloc, lists.len())?;
    let mut rows = Vec::new(alloc);
    for list in lists {
        add_list(&mut ends, &mut rows, list)?;
    }
    Ok((ends, rows))
}

impl Terms {
    /// The terms of the rows of the inputs, one input behind another, without those that are left out; `len` rows stay, and the
    /// maps number them from 0.
    ///
    /// It copies postings and reads no text of a row. It hashes no word; the words of the inputs, which are in byte order, are
    /// merged. So its time is linear in the postings and, times the logarithm of how many inputs there are, in the words. An
    /// error also where there are 2^32 words or postings.
    pub fn merge(alloc: Global, len: usize, inputs: &[MergeInput<'_>]) -> Result<Self, AllocError>
        requires few { len < 2 ^ 32 }
        requires fits { All (λ p. length p.row_map.now ≡ length p.terms.now) inputs.now }
        requires numbered { AreNumbered 0 (flat_map (λ p. p.row_map.now) inputs.now) }
        requires count { length (flat_map (λ p. kept_of p.row_map.now p.terms.now) inputs.now) ≡ len }
        ensures ok { IfOk result (λ t. t ≡ flat_map (λ p. kept_of p.row_map.now p.terms.now) inputs.now) }
    {
        let words = Dictionary::union(alloc, &words_of(alloc, inputs)?)?;
        if words.len() > u32::MAX as usize {
            return Err(AllocError);
        }
        let mut lists = gathered(alloc, &words, inputs)?;
        let used = used_words(alloc, words.as_slice(), &lists)?;
        remove_empty(&mut lists);
        let (ends, rows) = laid(alloc, &lists)?;
        Ok(Terms {
            len,
            words: Dictionary::from_sorted(alloc, used)?,
            ends,
            rows,
        })
    }
}
