//! The distinct texts of many rows, gathered without a copy of each occurrence, and the dictionary of them.
ghost use Rattle.std.specs.Prelude.{◌≡◌, ◌||◌, map, IfOk, OnOk};
ghost use Rattle.std.specs.List.{list_any};
ghost use Rattle.std.specs.HashSet.{keys};
ghost use Rattle.cat_base.specs.Texts.{sorted_set};
ghost use Rattle.cat_model.specs.Text.{Text, same_text};
ghost use Rattle.cat_columns.specs.Columns.{has_text};

use crate::dictionary::Dictionary;
use cat_base::Text;
use std::alloc::{AllocError, Global};
use std::collections::HashSet;

/// Adds the text, if it isn't there.
pub fn add_text<'a>(texts: &mut HashSet<&'a str>, text: &'a Text) -> Result<(), AllocError>
    ensures ok { OnOk result ((q : Text) → has_text q texts.new ≡ (has_text q texts.old || same_text q text.now)) }
{
    texts.insert(text.as_str())?;
    Ok(())
}

/// Adds each of the texts that isn't there.
pub fn add_texts<'a>(texts: &mut HashSet<&'a str>, row: &'a [Text]) -> Result<(), AllocError>
    ensures ok { OnOk result ((q : Text) → has_text q texts.new ≡ (has_text q texts.old || list_any (same_text q) row.now)) }
{
    for text in row {
        add_text(texts, text)?;
    }
    Ok(())
}

/// The dictionary of the texts, each copied once.
pub fn dictionary_from(alloc: Global, texts: &HashSet<&str>) -> Result<Dictionary, AllocError>
    ensures ok { IfOk result (λ d. d ≡ sorted_set (map (λ k. k.now) (keys texts.now))) }
{
    let mut copies = Vec::with_capacity(alloc, texts.len())?;
    for text in texts {
        copies.push(Text::from_str(alloc, text)?)?;
    }
    Dictionary::of(alloc, copies)
}
