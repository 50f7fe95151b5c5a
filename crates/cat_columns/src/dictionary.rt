//! A dictionary: the texts of a field in byte order, each found by its ordinal, and each ordinal by its text.
ghost use Rattle.std.specs.Prelude.{◌≡◌, ◌≢◌, ◌<◌, ◌^◌, length, map, All, Contains, None, IfOk, IfSome};
ghost use Rattle.cat_base.specs.Texts.{sorted_set, IsTextSet};
ghost use Rattle.cat_model.specs.Ordinals.{dictionary_of, text_at, IsOrdinal};

use crate::hashing::text_hash;
use crate::hints::{Hint, hint_of, hints_of};
use crate::union::united;
use cat_base::{Text, TextSet};
use std::alloc::{AllocError, Global};
use std::marker::Model;
use std::sync::Arc;

/// Texts in byte order, each once. The ordinal of a text is how many texts stand before it: Lucene's `SortedDocValues`,
/// without the rows. Copies made by [`Dictionary::share`] hold the texts once.
///
/// Contracts see it as the list of its texts.
pub struct Dictionary {
    texts: Arc<TextSet>,
    // Where a text can be, by its hash. There are none where the dictionary is seldom asked.
    hints: Arc<Vec<Hint>>,
}

impl Model for Dictionary {
    ghost use Rattle.std.specs.Prelude.{ℕ, List};
    ghost use Rattle.std.specs.Arc.{arc_value};
    ghost use Rattle.cat_base.specs.Texts.{IsTextSet};
    ghost use Rattle.cat_columns.specs.Hints.{AreHints};

    ghost Value = { List (List ℕ) };

    ghost view = { λ d. arc_value d.texts };

    ghost invariant = { λ d. IsTextSet (arc_value d.texts) × AreHints (arc_value d.texts) (arc_value d.hints).items };
}

impl Drop for Dictionary {
    fn drop(self) {
        let Dictionary { texts, hints } = self;
        drop(texts);
        drop(hints);
    }
}

/// Copies of the texts.
fn copied(alloc: Global, texts: &[&Text]) -> Result<Vec<Text>, AllocError>
    ensures ok { IfOk result (λ v. v.items ≡ map (λ t. t.now) texts.now) }
{
    let mut copies = Vec::with_capacity(alloc, texts.len())?;
    for text in texts {
        copies.push(text.copy()?)?;
    }
    Ok(copies)
}

/// How many texts are looked at one by one before a binary search.
const NEAR: usize = 16;

/// The ordinal of the text, if it is one of a few from `from` on.
fn near(texts: &[Text], from: usize, text: &Text) -> Option<usize>
    ensures { IfSome result (λ ordinal. (ordinal < length texts.now) × (text_at texts.now ordinal ≡ text.now)) }
{
    for ordinal in from..texts.len().min(from.saturating_add(NEAR)) {
        if texts[ordinal] == *text {
            return Some(ordinal);
        }
    }
    None
}

impl Dictionary {
    /// The dictionary of the texts, with their hints.
    fn hinted(alloc: Global, texts: TextSet) -> Result<Self, AllocError>
        requires { IsTextSet texts }
        ensures ok { IfOk result (λ d. d ≡ texts) }
    {
        let hints = hints_of(alloc, texts.as_slice())?;
        Ok(Dictionary {
            texts: Arc::new(alloc, texts)?,
            hints: Arc::new(alloc, hints)?,
        })
    }

    /// The dictionary of the texts, without hints: it costs less to make, and more to ask.
    fn unhinted(alloc: Global, texts: Vec<Text>) -> Result<Self, AllocError>
        ensures ok { IfOk result (λ d. d ≡ sorted_set texts.items) }
    {
        Ok(Dictionary {
            texts: Arc::new(alloc, TextSet::of(texts))?,
            hints: Arc::new(alloc, Vec::new(alloc))?,
        })
    }

    /// The dictionary of the texts, which may come in any order and more than once. The time is linear where they rise, and
    /// the texts are taken over.
    pub fn of(alloc: Global, texts: Vec<Text>) -> Result<Self, AllocError>
        ensures ok { IfOk result (λ d. d ≡ sorted_set texts.items) }
    {
        Dictionary::hinted(alloc, TextSet::of(texts))
    }

    /// The dictionary of texts that rise by bytes, each once, as a file has them (see [`rises`](cat_base::rises)). They are
    /// taken over, and none is looked at.
    pub fn from_sorted(alloc: Global, texts: Vec<Text>) -> Result<Self, AllocError>
        requires { IsTextSet texts.items }
        ensures ok { IfOk result (λ d. d ≡ texts.items) }
    {
        Dictionary::hinted(alloc, TextSet::from_sorted(texts))
    }

    /// The dictionary of the texts of all the sets, as Lucene's `OrdinalMap` has it. The texts of each set are in byte order,
    /// and so are merged, two sets at a time, and not sorted anew; each distinct text is copied once.
    pub fn union(alloc: Global, sets: &[&[Text]]) -> Result<Self, AllocError>
        ensures ok { IfOk result (λ d. d ≡ dictionary_of (map (λ s. s.now) sets.now)) }
    {
        Dictionary::unhinted(alloc, copied(alloc, &united(alloc, sets)?)?)
    }

    /// The same dictionary once more; the texts are shared and not copied.
    pub fn share(&self) -> Result<Self, AllocError>
        ensures ok { IfOk result (λ d. d ≡ self.now) }
    {
        Ok(Dictionary {
            texts: Arc::try_clone(&self.texts)?,
            hints: Arc::try_clone(&self.hints)?,
        })
    }

    /// The ordinal of a text that the dictionary has, which is looked for from an ordinal on first.
    fn ordinal_from(&self, from: usize, text: &Text) -> usize
        requires { Contains self.now text.now }
        ensures value { text_at self.now result ≡ text.now }
        ensures bound { result < length self.now }
    {
        match near(self.as_slice(), from, text) {
            Some(ordinal) => ordinal,
            None => self.ordinal(text.as_str()).unwrap_or(0),
        }
    }

    /// The ordinal of each of the texts, all of which the dictionary has (`OrdinalMap.getGlobalOrds`). It is fast for texts in
    /// byte order.
    pub fn remap(&self, alloc: Global, texts: &[Text]) -> Result<Vec<u32>, AllocError>
        requires few { length self.now < 2 ^ 32 }
        requires there { All (Contains self.now) texts.now }
        ensures texts { IfOk result (λ v. map (text_at self.now) v.items ≡ texts.now) }
        ensures bound { IfOk result (λ v. All (λ o. o < length self.now) v.items) }
    {
        let mut ordinals = Vec::with_capacity(alloc, texts.len())?;
        let mut from = 0;
        for text in texts {
            let ordinal = self.ordinal_from(from, text);
            ordinals.push(ordinal as u32)?;
            from = ordinal + 1;
        }
        Ok(ordinals)
    }

    /// How many texts there are (`SortedDocValues.getValueCount`).
    pub fn len(&self) -> usize
        ensures { result ≡ length self.now }
    {
        self.texts.len()
    }

    /// The texts in byte order.
    pub fn as_slice(&self) -> &[Text]
        ensures value { result.now ≡ self.now }
        ensures sorted { IsTextSet self.now }
    {
        self.texts.as_slice()
    }

    /// The text of the ordinal (`SortedDocValues.lookupOrd`).
    pub fn text(&self, ordinal: usize) -> &Text
        requires { ordinal < length self.now }
        ensures { result.now ≡ text_at self.now ordinal }
    {
        &self.texts.as_slice()[ordinal]
    }

    /// The ordinal of the text, by binary search; none where the dictionary lacks it.
    fn search(&self, text: &str) -> Option<usize>
        ensures { IsOrdinal self.now text.now result }
    {
        self.texts
            .as_slice()
            .binary_search_by(|other| other.as_str().cmp(text))
            .ok()
    }

    /// This ordinal, if it is that of the text.
    fn ordinal_if(&self, ordinal: usize, text: &str) -> Option<usize>
        ensures some { IfSome result (λ o. (o < length self.now) × (text_at self.now o ≡ text.now)) }
        ensures none { result ≡ None → ordinal < length self.now → text_at self.now ordinal ≢ text.now }
    {
        let other = self.texts.as_slice().get(ordinal)?;
        if other.as_str() == text {
            Some(ordinal)
        } else {
            None
        }
    }

    /// The ordinal of the text (`SortedDocValues.lookupTerm`); none where the dictionary lacks it. Most texts are found, or
    /// missed, by their hash; a binary search finds the others.
    pub fn ordinal(&self, text: &str) -> Option<usize>
        ensures { IsOrdinal self.now text.now result }
    {
        match hint_of(&self.hints, text_hash(text)) {
            Hint::Empty => None,
            Hint::One(ordinal) => self.ordinal_if(ordinal as usize, text),
            Hint::Crowded => self.search(text),
        }
    }
}
