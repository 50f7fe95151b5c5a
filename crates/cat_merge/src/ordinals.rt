//! The ordinals of the texts of one dictionary in another.
ghost use Rattle.std.specs.Prelude.{◌<◌, ◌^◌, ◌+◌, length, All, IfOk};
ghost use Rattle.cat_base.specs.Texts.{IsTextSet};
ghost use Rattle.cat_model.specs.Ordinals.{IsOrdinal};
ghost use Rattle.cat_merge.specs.Coded.{AreOrdinalsAmong};

use cat_base::Text;
use std::alloc::{AllocError, Global};

/// How many of the words, which rise by bytes, stand before the text, if it is one of them.
fn ordinal_of(words: &[Text], text: &Text) -> Option<usize>
    requires { IsTextSet words.now }
    ensures { IsOrdinal words.now text.now result }
{
    words
        .binary_search_by(|word| word.as_str().cmp(text.as_str()))
        .ok()
}

/// The ordinal of each text among the words, and 0 for a text that isn't one of them.
pub(crate) fn ordinals_among(
    alloc: Global,
    words: &[Text],
    texts: &[Text],
) -> Result<Vec<u32>, AllocError>
    requires sorted { IsTextSet words.now }
    requires few { length words.now < 2 ^ 32 }
    ensures ok { IfOk result (λ v. AreOrdinalsAmong words.now texts.now v.items) }
    ensures bound { IfOk result (λ v. All (λ o. o + 1 < 2 ^ 32) v.items) }
{
    let mut ordinals = Vec::with_capacity(alloc, texts.len())?;
    for text in texts {
        ordinals.push(ordinal_of(words, text).unwrap_or(0) as u32)?;
    }
    Ok(ordinals)
}
