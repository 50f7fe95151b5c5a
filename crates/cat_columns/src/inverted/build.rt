//! How the terms of a segment are built from the words of its rows, as Lucene's `FreqProxTermsWriter` does.
ghost use Rattle.std.specs.Prelude.{◌≡◌, ◌^◌, ◌<◌, ◌++◌, ◌∷◌, ◌||◌, [], length, map, All, IfOk, OnOk, is_some, if◌then◌else◌};
ghost use Rattle.std.specs.List.{flat_map, list_any};
ghost use Rattle.cat_base.specs.Texts.{IsTextSet};
ghost use Rattle.cat_model.specs.Text.{Text, same_text};
ghost use Rattle.cat_model.specs.Ordinals.{postings_of};
ghost use Rattle.cat_columns.specs.inverted.Gathered.{found, listed, ends_from};

use crate::Dictionary;
use crate::inverted::laying::add_list;
use crate::inverted::terms::Terms;
use cat_base::Text;
use std::alloc::{AllocError, Global};
use std::collections::HashMap;

/// Adds the row behind the postings of the word.
fn add_posting<'a>(
    alloc: Global,
    postings: &mut HashMap<&'a str, Vec<u32>>,
    row: u32,
    word: &'a str,
) -> Result<(), AllocError>
    ensures lists { OnOk result ((other : Text) → listed other postings.new
        ≡ listed other postings.old ++ (if same_text other word.now then row ∷ [] else [])) }
    ensures keys { OnOk result ((other : Text) → is_some (found other postings.new)
        ≡ (is_some (found other postings.old) || same_text other word.now)) }
{
    match postings.get_mut(word) {
        Some(rows) => rows.push(row)?,
        None => {
            let mut rows = Vec::new(alloc);
            rows.push(row)?;
            postings.insert(word, rows)?;
        }
    }
    Ok(())
}

/// Adds the row behind the postings of each of its words.
fn add_row<'a>(
    alloc: Global,
    postings: &mut HashMap<&'a str, Vec<u32>>,
    row: u32,
    words: &'a [Text],
) -> Result<(), AllocError>
    requires { IsTextSet words.now }
    ensures lists { OnOk result ((word : Text) → listed word postings.new
        ≡ listed word postings.old ++ (if list_any (same_text word) words.now then row ∷ [] else [])) }
    ensures keys { OnOk result ((word : Text) → is_some (found word postings.new)
        ≡ (is_some (found word postings.old) || list_any (same_text word) words.now)) }
{
    for word in words {
        add_posting(alloc, postings, row, word.as_str())?;
    }
    Ok(())
}

/// The postings of each word.
fn gathered<'a>(
    alloc: Global,
    rows: &[&'a [Text]],
) -> Result<HashMap<&'a str, Vec<u32>>, AllocError>
    requires few { length rows.now < 2 ^ 32 }
    requires sets { All (λ r. IsTextSet r.now) rows.now }
    ensures lists { IfOk result (λ m. (word : Text) → listed word m ≡ postings_of word (map (λ r. r.now) rows.now)) }
    ensures keys { IfOk result (λ m. (word : Text) → is_some (found word m)
        ≡ list_any (list_any (same_text word)) (map (λ r. r.now) rows.now)) }
{
    let mut postings = HashMap::new(alloc);
    for (row, words) in rows.iter().enumerate() {
        add_row(alloc, &mut postings, row as u32, words)?;
    }
    Ok(postings)
}

/// The words that have postings.
fn words_of(alloc: Global, postings: &HashMap<&str, Vec<u32>>) -> Result<Dictionary, AllocError>
    ensures ok { IfOk result (λ s. (word : Text) → list_any (same_text word) s ≡ is_some (found word postings.now)) }
    ensures sorted { IfOk result (λ s. IsTextSet s) }
{
    let mut words = Vec::with_capacity(alloc, postings.len())?;
    for word in postings.keys() {
        words.push(Text::from_str(alloc, word)?)?;
    }
    Dictionary::of(alloc, words)
}

/// The rows that the word has gathered.
fn rows_of<'m>(postings: &'m HashMap<&str, Vec<u32>>, word: &str) -> &'m [u32]
    ensures { result.now ≡ listed word.now postings.now }
{
    match postings.get(word) {
        Some(rows) => rows,
        None => &[],
    }
}

/// Where the postings of each word end, and the postings of the words, one word behind another.
fn laid(
    alloc: Global,
    words: &[Text],
    postings: &HashMap<&str, Vec<u32>>,
) -> Result<(Vec<u32>, Vec<u32>), AllocError>
    ensures ends { IfOk result (λ p. p.0.items ≡ ends_from 0 (map (λ word. listed word postings.now) words.now)) }
    ensures rows { IfOk result (λ p. p.1.items ≡ flat_map (λ part. part) (map (λ word. listed word postings.now) words.now)) }
    ensures few { IfOk result (λ p. length p.1.items < 2 ^ 32) }
{
    let mut ends = Vec::with_capacity(alloc, words.len())?;
    let mut rows = Vec::new(alloc);
    for word in words {
        add_list(&mut ends, &mut rows, rows_of(postings, word.as_str()))?;
    }
    Ok((ends, rows))
}

impl Terms {
    /// The terms of rows that have these sets of words, as Lucene's `FieldsConsumer.write` takes them. Each distinct word is
    /// copied once and the words are sorted once. An error also where there are 2^32 postings or more.
    pub fn build(alloc: Global, rows: &[&[Text]]) -> Result<Self, AllocError>
        requires few { length rows.now < 2 ^ 32 }
        requires sets { All (λ r. IsTextSet r.now) rows.now }
        ensures ok { IfOk result (λ t. t ≡ map (λ r. r.now) rows.now) }
    {
        let postings = gathered(alloc, rows)?;
        let words = words_of(alloc, &postings)?;
        let (ends, rows_of_words) = laid(alloc, words.as_slice(), &postings)?;
        Ok(Terms {
            len: rows.len(),
            words,
            ends,
            rows: rows_of_words,
        })
    }
}
