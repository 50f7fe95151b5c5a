//! A column of keywords: a dictionary, and the ordinal in it of each row's keyword.
ghost use Rattle.std.specs.Prelude.{◌≡◌, ◌↔◌, ◌⊎◌, ℕ, ◌+◌, Err, ◌^◌, ◌<◌, ◌≤◌, List, length, map, Option, option_map, None, IfOk, IfErr, IfSome, All, IsTrue, slice_index_or};
ghost use Rattle.std.specs.List.{list_any, flat_map};
ghost use Rattle.cat_base.specs.declared.refusal.Refusal.TheVariants.{Damaged, Memory};
ghost use Rattle.cat_model.specs.Text.{Text, same_text};
ghost use Rattle.cat_model.specs.Layout.{code_in, keywords_of};
ghost use Rattle.cat_model.specs.Ordinals.{dictionary_of, text_at, texts_of};
ghost use Rattle.cat_columns.specs.Columns.{has_text, DictionaryHas, text_of_code, texts_behind, AreCodes, IsLaidAsKeywords, HasNoKeywords};

use crate::covering::covers;
use crate::dictionary::Dictionary;
use crate::gathering::{add_text, dictionary_from};
use cat_base::{Refusal, Text, rises};
use std::alloc::{AllocError, Global};
use std::collections::HashSet;
use std::marker::Model;

/// A keyword for each row, or none: Lucene's `SortedDocValues`.
///
/// Contracts see it as the list of the rows' keywords.
pub struct KeywordColumn {
    dictionary: Dictionary,
    /// 0 for a row without a keyword, else its ordinal plus 1.
    codes: Vec<u32>,
}

impl Model for KeywordColumn {
    ghost use Rattle.std.specs.Prelude.{List, Option, ℕ, map};
    ghost use Rattle.cat_columns.specs.Columns.{text_of_code, IsKeywords};

    ghost Value = { List (Option (List ℕ)) };

    ghost view = { λ c. map (text_of_code c.dictionary) c.codes.items };

    ghost invariant = { λ c. IsKeywords c.dictionary c.codes.items };
}

impl Drop for KeywordColumn {
    fn drop(self) {
        let KeywordColumn { dictionary, codes } = self;
        drop(dictionary);
        drop(codes);
    }
}

/// The distinct keywords of the rows.
fn keywords_in<'a>(
    alloc: Global,
    values: &[Option<&'a Text>],
) -> Result<HashSet<&'a str>, AllocError>
    ensures ok { IfOk result (λ s. (text : Text) → has_text text s ≡ list_any (same_text text) (flat_map texts_behind values.now)) }
{
    let mut keywords = HashSet::new(alloc);
    for value in values {
        if let Some(text) = value {
            add_text(&mut keywords, text)?;
        }
    }
    Ok(keywords)
}

/// 0 for no keyword, else its ordinal plus 1.
fn code_of(dictionary: &Dictionary, value: Option<&Text>) -> u32
    requires few { length dictionary.now < 2 ^ 32 }
    requires there { DictionaryHas dictionary.now (option_map (λ t. t.now) value) }
    ensures value { text_of_code dictionary.now result ≡ option_map (λ t. t.now) value.entry }
    ensures bound { result ≤ length dictionary.now }
{
    let Some(text) = value else {
        return 0;
    };
    match dictionary.ordinal(text.as_str()) {
        Some(ordinal) => (ordinal + 1) as u32,
        None => 0,
    }
}

/// The codes of the rows' keywords, which the dictionary has.
fn codes_of(
    alloc: Global,
    dictionary: &Dictionary,
    values: &[Option<&Text>],
) -> Result<Vec<u32>, AllocError>
    requires few { length dictionary.now < 2 ^ 32 }
    requires there { All (λ v. DictionaryHas dictionary.now (option_map (λ t. t.now) v)) values.now }
    ensures values { IfOk result (λ v. map (text_of_code dictionary.now) v.items ≡ map (option_map (λ t. t.now)) values.now) }
    ensures bound { IfOk result (λ v. All (λ code. code ≤ length dictionary.now) v.items) }
{
    let mut codes = Vec::with_capacity(alloc, values.len())?;
    for value in values {
        codes.push(code_of(dictionary, *value))?;
    }
    Ok(codes)
}

/// Whether each code is of no keyword or of one of `len`.
fn codes_are_within(len: usize, codes: &[u32]) -> bool
    ensures { IsTrue result ↔ All (λ code. code ≤ len) codes.now }
{
    codes.iter().all(|code| *code as usize <= len)
}

/// Whether a column with `len` keywords may have the codes: none is past the last keyword, and each keyword has one.
fn are_codes(len: usize, codes: &[u32]) -> bool
    requires { length codes.now < 2 ^ 32 }
    ensures { IsTrue result ↔ AreCodes len codes.now }
{
    if len > codes.len() {
        return false;
    }
    if !codes_are_within(len, codes) {
        return false;
    }
    covers(codes, 1, len + 1)
}

impl KeywordColumn {
    /// The column of the rows' keywords, as Lucene's `SortedDocValuesWriter` makes it: each distinct keyword is copied
    /// once, and they are sorted once.
    pub fn of(alloc: Global, values: &[Option<&Text>]) -> Result<Self, AllocError>
        requires few { length values.now < 2 ^ 32 }
        ensures ok { IfOk result (λ c. c ≡ map (option_map (λ t. t.now)) values.now) }
    {
        let dictionary = dictionary_from(alloc, &keywords_in(alloc, values)?)?;
        let codes = codes_of(alloc, &dictionary, values)?;
        Ok(KeywordColumn { dictionary, codes })
    }

    /// The column that a file has as a dictionary and the code of each row's keyword, which is 0 for none, else the ordinal
    /// plus 1 (`DocValuesProducer.getSorted`). Both are taken over, in linear time.
    ///
    /// [`Refusal::Damaged`] exactly where no column is laid out so: the dictionary doesn't rise by bytes, a code is past it,
    /// or no row has one of its keywords. That is judged before memory is asked for.
    pub fn from_codes(
        alloc: Global,
        dictionary: Vec<Text>,
        codes: Vec<u32>,
    ) -> Result<Self, Refusal>
        requires few { length codes.items < 2 ^ 32 }
        ensures ok { IfOk result (λ c. IsLaidAsKeywords c dictionary.items codes.items) }
        ensures damaged { IfErr result (λ e. e ≡ Damaged → HasNoKeywords dictionary.items codes.items) }
        ensures due { HasNoKeywords dictionary.items codes.items → result ≡ Err Damaged }
        ensures refusal { IfErr result (λ e. (e ≡ Damaged) ⊎ (e ≡ Memory)) }
    {
        if !rises(&dictionary) {
            return Err(Refusal::Damaged);
        }
        if !are_codes(dictionary.len(), &codes) {
            return Err(Refusal::Damaged);
        }
        let dictionary = Dictionary::from_sorted(alloc, dictionary)?;
        Ok(KeywordColumn { dictionary, codes })
    }

    /// How many rows there are.
    pub fn len(&self) -> usize
        ensures value { result ≡ length self.now }
        ensures few { length self.now < 2 ^ 32 }
    {
        self.codes.len()
    }

    /// The keywords that some row has.
    pub fn dictionary(&self) -> &Dictionary
        ensures { result.now ≡ dictionary_of (map texts_of self.now) }
    {
        &self.dictionary
    }

    /// The code of each row's keyword, as a file has it: 0 for a row without a keyword, else its ordinal plus 1.
    pub fn codes(&self) -> &[u32]
        ensures { result.now ≡ map (code_in (keywords_of self.now)) self.now }
    {
        &self.codes
    }

    /// The ordinal of the row's keyword, if it has one (`SortedDocValues.ordValue`).
    pub fn ordinal(&self, row: usize) -> Option<usize>
        requires { row < length self.now }
        ensures value { option_map (text_at (dictionary_of (map texts_of self.now))) result ≡ slice_index_or self.now row None }
        ensures bound { IfSome result (λ ordinal. ordinal < length (dictionary_of (map texts_of self.now))) }
    {
        match self.codes[row] {
            0 => None,
            code => Some(code as usize - 1),
        }
    }

    /// The keyword of the row, if it has one.
    pub fn value(&self, row: usize) -> Option<&Text>
        requires { row < length self.now }
        ensures { option_map (λ t. t.now) result ≡ slice_index_or self.now row None }
    {
        match self.ordinal(row) {
            Some(ordinal) => Some(self.dictionary.text(ordinal)),
            None => None,
        }
    }
}
