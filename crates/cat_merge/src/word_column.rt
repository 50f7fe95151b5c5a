//! The column of a text field of a merged segment.
ghost use Rattle.std.specs.Prelude.{◌≡◌, ◌<◌, ◌^◌, map, length, IfOk};
ghost use Rattle.cat_items.specs.file_parts.Parts.{column_in, IsColumnParts};
ghost use Rattle.cat_model.specs.Layout.{Laid, word_postings_of};
ghost use Rattle.cat_model.specs.Ordinals.{dictionary_of, postings_of};

use crate::lists::Lists;
use cat_base::Text;
use cat_columns::inverted::Terms;
use cat_items::file_parts::ColumnParts;
use std::alloc::{AllocError, Global};

/// Copies of the texts.
pub(crate) fn copied(alloc: Global, texts: &[Text]) -> Result<Vec<Text>, AllocError>
    ensures ok { IfOk result (λ v. v.items ≡ texts.now) }
{
    let mut copies = Vec::with_capacity(alloc, texts.len())?;
    for text in texts {
        copies.push(text.copy()?)?;
    }
    Ok(copies)
}

/// The postings of each word.
fn postings(alloc: Global, terms: &Terms) -> Result<Lists, AllocError>
    ensures ok { IfOk result (λ l. l ≡ map (λ w. postings_of w terms.now) (dictionary_of terms.now)) }
{
    let words = terms.words().len();
    let mut postings = Lists::with_capacity(alloc, words)?;
    for ordinal in 0..words {
        postings.push(terms.postings_at(ordinal))?;
    }
    Ok(postings)
}

/// The column of these terms.
pub(crate) fn word_column(alloc: Global, terms: &Terms) -> Result<ColumnParts, AllocError>
    ensures cut { IfOk result IsColumnParts }
    ensures laid { IfOk result (λ p. column_in p ≡ Laid.words (word_postings_of terms.now)) }
    ensures few { length (dictionary_of terms.now) < 2 ^ 32 }
{
    let words = terms.words();
    let (ends, rows) = postings(alloc, terms)?.into_parts();
    Ok(ColumnParts::Text(copied(alloc, words)?, ends, rows))
}
