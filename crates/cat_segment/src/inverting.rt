//! The terms of a column whose rows' texts are ordinals of a dictionary.
ghost use Rattle.std.specs.Prelude.{◌≡◌, ◌<◌, ◌^◌, ◌++◌, length, map, All, IfOk, OnOk};
ghost use Rattle.std.specs.List.Sorted.{IsStrictlySortedBy};
ghost use Rattle.std.specs.Ordering.{nat_cmp};
ghost use Rattle.cat_model.specs.Layout.{pieces, AreEnds};
ghost use Rattle.cat_model.specs.Ordinals.{dictionary_of, text_at, texts_of};
ghost use Rattle.cat_segment.specs.Parts.{ordinals_of};

use cat_columns::inverted::Terms;
use cat_columns::{Dictionary, KeywordColumn, SetColumn};
use std::alloc::{AllocError, Global};

/// The terms of rows whose texts have these ordinals of the dictionary.
fn terms_from(
    alloc: Global,
    dictionary: &Dictionary,
    ends: &[u32],
    ordinals: &[u32],
) -> Result<Terms, AllocError>
    requires few { length ends.now < 2 ^ 32 }
    requires parts { AreEnds 0 ends.now (length ordinals.now) }
    requires rising { All (IsStrictlySortedBy nat_cmp) (pieces 0 ends.now ordinals.now) }
    requires within { All (All (λ o. o < length dictionary.now)) (pieces 0 ends.now ordinals.now) }
    requires whole { dictionary.now ≡ dictionary_of (map (map (text_at dictionary.now)) (pieces 0 ends.now ordinals.now)) }
    ensures ok { IfOk result (λ t. t ≡ map (map (text_at dictionary.now)) (pieces 0 ends.now ordinals.now)) }
{
    Terms::from_ordinals(alloc, dictionary.share()?, ends, ordinals)
}

/// Adds the ordinal of the code, if it is of one.
fn add_ordinal(ordinals: &mut Vec<u32>, code: u32) -> Result<(), AllocError>
    ensures ok { OnOk result (ordinals.new.items ≡ ordinals.old.items ++ ordinals_of code) }
{
    if code != 0 {
        ordinals.push(code - 1)?;
    }
    Ok(())
}

/// Where the ordinal of each row ends, and the ordinals.
fn ordinals_of(alloc: Global, codes: &[u32]) -> Result<(Vec<u32>, Vec<u32>), AllocError>
    requires { length codes.now < 2 ^ 32 }
    ensures parts { IfOk result (λ p. AreEnds 0 p.0.items (length p.1.items)) }
    ensures rows { IfOk result (λ p. pieces 0 p.0.items p.1.items ≡ map ordinals_of codes.now) }
{
    let mut ends = Vec::with_capacity(alloc, codes.len())?;
    let mut ordinals = Vec::with_capacity(alloc, codes.len())?;
    for code in codes {
        add_ordinal(&mut ordinals, *code)?;
        ends.push(ordinals.len() as u32)?;
    }
    Ok((ends, ordinals))
}

/// The rows of each keyword of the column.
pub(crate) fn terms_of_keywords(alloc: Global, values: &KeywordColumn) -> Result<Terms, AllocError>
    ensures ok { IfOk result (λ t. t ≡ map texts_of values.now) }
{
    // Its contract says that there are fewer than 2^32 rows.
    let _rows = values.len();
    let (ends, ordinals) = ordinals_of(alloc, values.codes())?;
    terms_from(alloc, values.dictionary(), &ends, &ordinals)
}

/// The rows of each label of the column.
pub(crate) fn terms_of_labels(alloc: Global, labels: &SetColumn) -> Result<Terms, AllocError>
    ensures ok { IfOk result (λ t. t ≡ labels.now) }
{
    // Its contract says that each row has a set of labels, and that there are fewer than 2^32 rows.
    let _rows = labels.len();
    let (ends, ordinals) = labels.layout();
    terms_from(alloc, labels.dictionary(), ends, ordinals)
}
