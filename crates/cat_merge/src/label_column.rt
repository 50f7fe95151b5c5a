//! The column of a facet field of a merged segment.
ghost use Rattle.std.specs.Prelude.{◌≡◌, ◌<◌, ◌^◌, ◌++◌, map, length, All, Contains, OnOk, IfOk};
ghost use Rattle.cat_base.specs.Texts.{IsTextSet};
ghost use Rattle.cat_model.specs.Item.{Kind};
ghost use Rattle.cat_model.specs.Layout.{ordinal_in};
ghost use Rattle.cat_model.specs.Ordinals.{dictionary_of};
ghost use Rattle.cat_model.specs.View.{selected};
ghost use Rattle.cat_merge.specs.Coded.{AreOrdinalsAmong};
ghost use Rattle.cat_merge.specs.Fields.{texts_under, labels_under, kept_rows, HasField, IsMergedColumn};

use crate::input::Input;
use crate::lists::Lists;
use crate::ordinals::ordinals_among;
use crate::word_column::copied;
use cat_base::Text;
use cat_columns::SetColumn;
use cat_columns::inverted::Terms;
use cat_items::file_parts::ColumnParts;
use cat_views::cat_segment::{Column, Live};
use std::alloc::{AllocError, Global};

/// Adds the labels of the rows that are live, by their ordinals among the words, where those of the column have these.
fn add_rows(
    rows: &mut Lists,
    labels: &SetColumn,
    live: &Live,
    words: &[Text],
    ordinals: &[u32],
) -> Result<(), AllocError>
    requires long { length live.now ≡ length labels.now }
    requires ordinals { AreOrdinalsAmong words.now (dictionary_of labels.now) ordinals.now }
    requires there { All (All (Contains words.now)) (selected live.now labels.now) }
    ensures { OnOk result (rows.new ≡ rows.old ++ map (map (ordinal_in words.now)) (selected live.now labels.now)) }
{
    for row in 0..labels.len() {
        if live.is_live(row) {
            rows.push_found(labels.ordinals(row), ordinals)?;
        }
    }
    Ok(())
}

/// Adds the labels of an input's rows that are kept, by their ordinals among the words.
fn add_input(
    alloc: Global,
    rows: &mut Lists,
    words: &[Text],
    input: &Input,
    index: usize,
) -> Result<(), AllocError>
    requires sorted { IsTextSet words.now }
    requires few { length words.now < 2 ^ 32 }
    requires field { HasField Kind.facet index input.now }
    requires there { All (All (Contains words.now)) (selected input.now.live (labels_under index input.now.segment.rows)) }
    ensures { OnOk result (rows.new
        ≡ rows.old ++ map (map (ordinal_in words.now)) (selected input.now.live (labels_under index input.now.segment.rows))) }
{
    match input.column(index) {
        Column::Facet(facet) => {
            let labels = facet.labels();
            let ordinals = ordinals_among(alloc, words, labels.dictionary().as_slice())?;
            add_rows(rows, labels, input.live(), words, &ordinals)
        }
        _ => unreachable!(),
    }
}

/// The column of the facet field of this index, whose terms are these.
pub(crate) fn label_column(
    alloc: Global,
    inputs: &[Input],
    index: usize,
    terms: &Terms,
) -> Result<ColumnParts, AllocError>
    requires field { All (HasField Kind.facet index) inputs.now }
    requires terms { terms.now ≡ texts_under Kind.facet index (kept_rows inputs.now) }
    ensures { IfOk result (IsMergedColumn Kind.facet index (kept_rows inputs.now)) }
{
    let words = terms.words();
    let mut rows = Lists::with_capacity(alloc, terms.len())?;
    for input in inputs {
        add_input(alloc, &mut rows, words, input, index)?;
    }
    let (ends, ordinals) = rows.into_parts();
    Ok(ColumnParts::Facet(copied(alloc, words)?, ends, ordinals))
}
