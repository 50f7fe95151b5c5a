//! Terms of words that come with their postings, as they stand in a file.
ghost use Rattle.std.specs.Prelude.{◌≡◌, ◌⊎◌, ◌^◌, ◌<◌, ◌↔◌, List, length, All, Err, IfOk, IfErr, IsTrue};
ghost use Rattle.cat_base.specs.Texts.{IsTextSet};
ghost use Rattle.cat_base.specs.declared.refusal.Refusal.TheVariants.{Damaged, Memory};
ghost use Rattle.cat_model.specs.Text.{Text};
ghost use Rattle.cat_model.specs.Layout.{pieces, AreEnds, word_postings_of};
ghost use Rattle.cat_columns.specs.inverted.Postings.{IsPart, HaveTerms, HasNoTerms};

use crate::Dictionary;
use crate::inverted::terms::Terms;
use cat_base::{Refusal, Text, rises};
use std::alloc::Global;

/// Whether these are the postings of a word that some of `len` rows has: at least one, rising, each below `len`.
fn is_part(len: usize, rows: &[u32]) -> bool
    ensures { IsTrue result ↔ IsPart len rows.now }
{
    match rows.last() {
        Some(last) => (*last as usize) < len && rises(rows),
        None => false,
    }
}

/// Whether each piece of the rows is the postings of a word that some of `len` rows has.
fn are_parts(len: usize, ends: &[u32], rows: &[u32]) -> bool
    requires { AreEnds 0 ends.now (length rows.now) }
    ensures parts { IsTrue result ↔ All (IsPart len) (pieces 0 ends.now rows.now) }
    ensures few { length rows.now < 2 ^ 32 }
{
    let mut start = 0;
    for end in ends {
        let end = *end as usize;
        if !is_part(len, &rows[start..end]) {
            return false;
        }
        start = end;
    }
    true
}

impl Terms {
    /// The terms of `len` rows with these words, each of which has its piece of `rows` as its postings. The pieces stand one
    /// behind another and `ends` says where each ends. So Lucene's `FieldsProducer` makes the `Terms` that a file holds. The
    /// lists are taken over, in time in proportion to the words and the postings.
    ///
    /// [`Refusal::Damaged`] exactly where no rows have such terms: the words don't rise by their bytes, or a piece has no row,
    /// doesn't rise, or has a row that isn't below `len`. That is judged before memory is asked for, which the sharing of the
    /// words takes.
    pub fn from_postings(
        alloc: Global,
        len: usize,
        words: Vec<Text>,
        ends: Vec<u32>,
        rows: Vec<u32>,
    ) -> Result<Self, Refusal>
        requires few { len < 2 ^ 32 }
        requires paired { length ends.items ≡ length words.items }
        requires parts { AreEnds 0 ends.items (length rows.items) }
        ensures ok { IfOk result (λ t. HaveTerms len words.items (pieces 0 ends.items rows.items) t) }
        ensures damaged { IfErr result (λ e. e ≡ Damaged → HasNoTerms len words.items (pieces 0 ends.items rows.items)) }
        ensures due { HasNoTerms len words.items (pieces 0 ends.items rows.items) → result ≡ Err Damaged }
        ensures refusal { IfErr result (λ e. (e ≡ Damaged) ⊎ (e ≡ Memory)) }
    {
        if !rises(&words) {
            return Err(Refusal::Damaged);
        }
        if !are_parts(len, &ends, &rows) {
            return Err(Refusal::Damaged);
        }
        let words = Dictionary::from_sorted(alloc, words)?;
        Ok(Terms {
            len,
            words,
            ends,
            rows,
        })
    }
}

/// The rows of terms are told by how many they are and by the words with their postings.
pub fn terms_are_told_by_their_postings()
    ensures { (a b : List (List Text)) → length a ≡ length b → All IsTextSet a → All IsTextSet b
        → word_postings_of a ≡ word_postings_of b → a ≡ b }
{}
