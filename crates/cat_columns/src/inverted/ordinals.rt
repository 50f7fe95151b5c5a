//! How the terms of a segment are built from the ordinals of its rows' texts.
ghost use Rattle.std.specs.Prelude.{◌≡◌, ◌^◌, ◌<◌, length, map, All, IfOk};
ghost use Rattle.std.specs.List.Sorted.{IsStrictlySortedBy};
ghost use Rattle.std.specs.Ordering.{nat_cmp};
ghost use Rattle.cat_model.specs.Layout.{pieces, AreEnds};
ghost use Rattle.cat_model.specs.Ordinals.{dictionary_of, text_at};

use crate::Dictionary;
use crate::inverted::counting::laid_by_ordinal;
use crate::inverted::terms::Terms;
use std::alloc::{AllocError, Global};

impl Terms {
    /// The terms of rows that have the words of these ordinals. The ordinals of each row rise, and stand one row behind
    /// another; `ends` says where each row's end. The words are those that some row has, as in the dictionary of Lucene's
    /// `SortedSetDocValues`, whose `termsEnum` has these terms.
    ///
    /// It goes over the ordinals once, hashes no word and compares none, and takes time in proportion to the rows, the words
    /// and the ordinals. The dictionary is taken over ([`Dictionary::share`] makes one that shares its texts). An error also
    /// where there are 2^32 ordinals or more.
    pub fn from_ordinals(
        alloc: Global,
        words: Dictionary,
        ends: &[u32],
        ordinals: &[u32],
    ) -> Result<Self, AllocError>
        requires few { length ends.now < 2 ^ 32 }
        requires parts { AreEnds 0 ends.now (length ordinals.now) }
        requires rising { All (IsStrictlySortedBy nat_cmp) (pieces 0 ends.now ordinals.now) }
        requires within { All (All (λ ordinal. ordinal < length words)) (pieces 0 ends.now ordinals.now) }
        requires occur { words ≡ dictionary_of (map (map (text_at words)) (pieces 0 ends.now ordinals.now)) }
        ensures ok { IfOk result (λ t. t ≡ map (map (text_at words)) (pieces 0 ends.now ordinals.now)) }
    {
        let (ends_of_words, rows) = laid_by_ordinal(alloc, words.len(), ends, ordinals)?;
        Ok(Terms {
            len: ends.len(),
            words,
            ends: ends_of_words,
            rows,
        })
    }
}
