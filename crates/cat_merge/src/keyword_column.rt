//! The column of a keyword field of a merged segment.
ghost use Rattle.std.specs.Prelude.{◌≡◌, ◌<◌, ◌≤◌, ◌^◌, ◌+◌, ◌++◌, map, length, All, IfOk, OnOk};
ghost use Rattle.cat_base.specs.Texts.{IsTextSet};
ghost use Rattle.cat_model.specs.Item.{Kind};
ghost use Rattle.cat_model.specs.Layout.{code_in, keywords_of};
ghost use Rattle.cat_model.specs.View.{selected};
ghost use Rattle.cat_columns.specs.Columns.{DictionaryHas};
ghost use Rattle.cat_merge.specs.Coded.{moved_code, AreOrdinalsAmong};
ghost use Rattle.cat_merge.specs.Fields.{texts_under, keywords_under, kept_rows, HasField, IsMergedColumn};

use crate::input::Input;
use crate::ordinals::ordinals_among;
use crate::word_column::copied;
use cat_base::Text;
use cat_columns::KeywordColumn;
use cat_columns::inverted::Terms;
use cat_items::file_parts::ColumnParts;
use cat_views::cat_segment::{Column, Live};
use std::alloc::{AllocError, Global};

/// The code of a row's text in the merged dictionary, by its code in the input's, where the texts of that have these ordinals.
fn moved_code(ordinals: &[u32], code: u32) -> u32
    requires within { code ≤ length ordinals.now }
    requires bound { All (λ o. o + 1 < 2 ^ 32) ordinals.now }
    ensures { result ≡ moved_code ordinals.now code }
{
    if code == 0 {
        0
    } else {
        ordinals[code as usize - 1] + 1
    }
}

/// Adds the codes of the rows that are live.
fn add_codes(
    codes: &mut Vec<u32>,
    values: &KeywordColumn,
    live: &Live,
    words: &[Text],
    ordinals: &[u32],
) -> Result<(), AllocError>
    requires long { length live.now ≡ length values.now }
    requires ordinals { AreOrdinalsAmong words.now (keywords_of values.now) ordinals.now }
    requires bound { All (λ o. o + 1 < 2 ^ 32) ordinals.now }
    requires there { All (DictionaryHas words.now) (selected live.now values.now) }
    ensures { OnOk result (codes.new.items ≡ codes.old.items ++ map (code_in words.now) (selected live.now values.now)) }
{
    for (row, code) in values.codes().iter().enumerate() {
        if live.is_live(row) {
            codes.push(moved_code(ordinals, *code))?;
        }
    }
    Ok(())
}

/// Adds the codes of an input's rows that are kept.
fn add_input(
    alloc: Global,
    codes: &mut Vec<u32>,
    words: &[Text],
    input: &Input,
    index: usize,
) -> Result<(), AllocError>
    requires sorted { IsTextSet words.now }
    requires few { length words.now < 2 ^ 32 }
    requires field { HasField Kind.keyword index input.now }
    requires there { All (DictionaryHas words.now) (selected input.now.live (keywords_under index input.now.segment.rows)) }
    ensures { OnOk result (codes.new.items
        ≡ codes.old.items ++ map (code_in words.now) (selected input.now.live (keywords_under index input.now.segment.rows))) }
{
    match input.column(index) {
        Column::Keyword(keywords) => {
            let values = keywords.values();
            let ordinals = ordinals_among(alloc, words, values.dictionary().as_slice())?;
            add_codes(codes, values, input.live(), words, &ordinals)
        }
        _ => unreachable!(),
    }
}

/// The column of the keyword field of this index, whose terms are these.
pub(crate) fn keyword_column(
    alloc: Global,
    inputs: &[Input],
    index: usize,
    terms: &Terms,
) -> Result<ColumnParts, AllocError>
    requires field { All (HasField Kind.keyword index) inputs.now }
    requires terms { terms.now ≡ texts_under Kind.keyword index (kept_rows inputs.now) }
    ensures { IfOk result (IsMergedColumn Kind.keyword index (kept_rows inputs.now)) }
{
    let words = terms.words();
    let mut codes = Vec::with_capacity(alloc, terms.len())?;
    for input in inputs {
        add_input(alloc, &mut codes, words, input, index)?;
    }
    Ok(ColumnParts::Keyword(copied(alloc, words)?, codes))
}
