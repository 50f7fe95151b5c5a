//! The terms of a field and their postings, looked up by a word.
ghost use Rattle.std.specs.Prelude.{◌≡◌, ◌+◌, ◌^◌, ◌<◌, ◌≤◌, Bool, length, take, drop, map, All, IfOk};
ghost use Rattle.std.specs.List.{flat_map, list_any, range_with_len};
ghost use Rattle.cat_base.specs.Texts.{IsTextSet};
ghost use Rattle.cat_model.specs.Text.{Text};
ghost use Rattle.cat_model.specs.Ordinals.{dictionary_of, postings_of, text_at};
ghost use Rattle.cat_model.specs.Layout.{pieces, AreEnds};
ghost use Rattle.cat_columns.specs.inverted.Postings.{start_of, is_among};
ghost use Rattle.cat_columns.specs.inverted.Intervals.{IsInterval};

use crate::{Dictionary, RowSet};
use cat_base::Text;
use std::alloc::AllocError;
use std::marker::Model;

/// The words of one field of a segment, each with its postings: the rows that have the word. Lucene's `Terms`, whose
/// `TermsEnum` seeks a word and whose `PostingsEnum` goes over the rows. Contracts see it as the list of the rows, each with
/// the set of its words.
pub struct Terms {
    /// How many rows the segment has, below 2^32.
    pub(crate) len: usize,
    pub(crate) words: Dictionary,
    /// Where the postings of each word end in `rows`; they begin where those of the word before end.
    pub(crate) ends: Vec<u32>,
    /// The postings of all words, one word behind another.
    pub(crate) rows: Vec<u32>,
}

impl Model for Terms {
    ghost use Rattle.std.specs.Prelude.{List};
    ghost use Rattle.cat_model.specs.Text.{Text};
    ghost use Rattle.cat_model.specs.Layout.{pieces};
    ghost use Rattle.cat_columns.specs.inverted.Postings.{words_of_rows, IsTerms};

    ghost Value = { List (List Text) };

    ghost view = { λ t. words_of_rows t.len t.words (pieces 0 t.ends.items t.rows.items) };

    ghost invariant = { λ t. IsTerms t.len t.words t.ends.items t.rows.items };
}

impl Drop for Terms {
    fn drop(self) {
        let Terms {
            len: _,
            words,
            ends,
            rows,
        } = self;
        drop(words);
        drop(ends);
        drop(rows);
    }
}

/// Where the postings of the word of this ordinal begin.
pub(crate) fn start_of(ends: &[u32], ordinal: usize) -> usize
    requires { ordinal ≤ length ends.now }
    ensures value { result ≡ start_of 0 ends.now ordinal }
    ensures bound { result < 2 ^ 32 }
{
    if ordinal == 0 {
        0
    } else {
        ends[ordinal - 1] as usize
    }
}

/// The postings of `count` words from the ordinal `first` on, one word behind another.
fn parts<'a>(ends: &[u32], rows: &'a [u32], first: usize, count: usize) -> &'a [u32]
    requires ends { AreEnds 0 ends.now (length rows.now) }
    requires within { first + count ≤ length ends.now }
    ensures { result.now ≡ flat_map (λ part. part) (take count (drop first (pieces 0 ends.now rows.now))) }
{
    &rows[start_of(ends, first)..start_of(ends, first + count)]
}

impl Terms {
    /// How many rows the segment has.
    pub fn len(&self) -> usize
        ensures value { result ≡ length self.now }
        ensures bound { length self.now < 2 ^ 32 }
        ensures sets { All IsTextSet self.now }
    {
        self.len
    }

    /// The words that some row has, in byte order. How many words stand before a word is its ordinal, as that of Lucene's
    /// `TermsEnum.ord`. There are fewer than 2^32.
    pub fn words(&self) -> &[Text]
        ensures value { result.now ≡ dictionary_of self.now }
        ensures sorted { IsTextSet result.now }
        ensures few { length (dictionary_of self.now) < 2 ^ 32 }
    {
        self.words.as_slice()
    }

    /// The rows that have the word of this ordinal, rising: at most as many as the segment has, and each below that number.
    /// It takes no search, as Lucene's `TermsEnum.seekExact(ord)` and `postings`.
    pub fn postings_at(&self, ordinal: usize) -> &[u32]
        requires { ordinal < length (dictionary_of self.now) }
        ensures value { result.now ≡ postings_of (text_at (dictionary_of self.now) ordinal) self.now }
        ensures within { All (λ row. row < length self.now) result.now }
        ensures count { length result.now ≤ length self.now }
        ensures few { length result.now < 2 ^ 32 }
    {
        parts(&self.ends, &self.rows, ordinal, 1)
    }

    /// The rows that have the word, rising; none for a word that no row has. It takes a binary search, as Lucene's
    /// `TermsEnum.seekExact` and `postings`.
    pub fn postings(&self, word: &str) -> &[u32]
        ensures { result.now ≡ postings_of word.now self.now }
    {
        match self.words.ordinal(word) {
            Some(ordinal) => parts(&self.ends, &self.rows, ordinal, 1),
            None => &[],
        }
    }

    /// The set of these rows.
    pub(crate) fn set_of(&self, rows: &[u32]) -> Result<RowSet, AllocError>
        requires { All (λ r. r < length self.now) rows.now }
        ensures ok { IfOk result (λ s. s ≡ map (is_among rows.now) (range_with_len 0 (length self.now))) }
    {
        let mut set = RowSet::none(*self.rows.allocator(), self.len())?;
        set.insert_all(rows);
        Ok(set)
    }

    /// The rows that have some of the `count` words from the ordinal `first` on, whose postings stand one behind another.
    pub(crate) fn rows_of_words(&self, first: usize, count: usize) -> Result<RowSet, AllocError>
        requires { first + count ≤ length (dictionary_of self.now) }
        ensures ok { IfOk result (λ s. (p : Text → Bool) → IsInterval p (dictionary_of self.now) first count
            → s ≡ map (list_any p) self.now) }
    {
        self.set_of(parts(&self.ends, &self.rows, first, count))
    }
}
