//! Columns of the parts of a file, and whether rows have as few labels as they may.
ghost use Rattle.std.specs.Prelude.{◌≡◌, ◌↔◌, ◌⊎◌, ◌≤◌, ◌<◌, ◌++◌, ◌∷◌, [], All, Any, IfOk, IfErr, IfSome, OnOk, IsTrue};
ghost use Rattle.std.specs.Vec.Iter.{into_iter_items};
ghost use Rattle.cat_base.specs.declared.refusal.Refusal.TheVariants.{Damaged, Memory};
ghost use Rattle.cat_items.specs.file_parts.Parts.{column_in, IsColumnParts};
ghost use Rattle.cat_items.specs.declared.file_parts.parts.ColumnParts.TheVariants as parts;
ghost use Rattle.cat_model.specs.Item.{Kind};
ghost use Rattle.cat_model.specs.Layout.{IsLaid};
ghost use Rattle.cat_model.specs.Limits.{row_limit, label_limit};
ghost use Rattle.cat_segment.specs.Index.{AreAllRows};
ghost use Rattle.cat_segment.specs.Parts.{kind_in, IsColumnOf, HasNoColumn, HasFewLabels, AreColumnsOf};
ghost use Rattle.cat_segment.specs.Sources.{lengths_between, Rise};
ghost use Rattle.cat_segment.specs.declared.column.Column as declared;

use crate::column::{Column, Keywords, Labels};
use crate::numbers::Numbers;
use cat_base::{MAX_LABELS, Refusal, Text};
use cat_columns::inverted::Terms;
use cat_columns::{KeywordColumn, NumberColumn, SetColumn};
use cat_items::file_parts::ColumnParts;
use std::alloc::{AllocError, Global};
use std::vec::IntoIter;

/// The column of a text field. [`Refusal::Damaged`] where no column has these words and postings.
fn words_from(
    alloc: Global,
    rows: usize,
    words: Vec<Text>,
    ends: Vec<u32>,
    postings: Vec<u32>,
) -> Result<Column, Refusal>
    requires few { rows ≤ row_limit }
    requires cut { IsColumnParts (parts.Text words ends postings) }
    requires laid { IsLaid rows Kind.text (column_in (parts.Text words ends postings)) }
    ensures ok { IfOk result (IsColumnOf rows (parts.Text words ends postings)) }
    ensures damaged { IfErr result (λ e. e ≡ Damaged → HasNoColumn rows (parts.Text words ends postings)) }
    ensures due { IfErr result (λ e. e ≡ Memory → HasNoColumn rows (parts.Text words ends postings) → ⊥) }
    ensures refusal { IfErr result (λ e. (e ≡ Damaged) ⊎ (e ≡ Memory)) }
{
    let terms = Terms::from_postings(alloc, rows, words, ends, postings)?;
    // Its contract says that each row has a set of words.
    let _rows = terms.len();
    Ok(Column::Text(terms))
}

/// The column of a keyword field. [`Refusal::Damaged`] where no column has these keywords and codes.
fn keywords_from(
    alloc: Global,
    rows: usize,
    dictionary: Vec<Text>,
    codes: Vec<u32>,
) -> Result<Column, Refusal>
    requires few { rows ≤ row_limit }
    requires laid { IsLaid rows Kind.keyword (column_in (parts.Keyword dictionary codes)) }
    ensures ok { IfOk result (IsColumnOf rows (parts.Keyword dictionary codes)) }
    ensures damaged { IfErr result (λ e. e ≡ Damaged → HasNoColumn rows (parts.Keyword dictionary codes)) }
    ensures due { IfErr result (λ e. e ≡ Memory → HasNoColumn rows (parts.Keyword dictionary codes) → ⊥) }
    ensures refusal { IfErr result (λ e. (e ≡ Damaged) ⊎ (e ≡ Memory)) }
{
    let values = KeywordColumn::from_codes(alloc, dictionary, codes)?;
    Ok(Column::Keyword(Keywords::joined(alloc, values)?))
}

/// Whether no row has more labels than it may, where the labels of each row end here.
fn are_few(ends: &[u32]) -> bool
    requires { Rise 0 ends.now }
    ensures { IsTrue result ↔ All (λ n. n ≤ label_limit) (lengths_between 0 ends.now) }
{
    let mut start = 0;
    for end in ends {
        if (*end - start) as usize > MAX_LABELS {
            return false;
        }
        start = *end;
    }
    true
}

/// Whether no row has more labels than it may; only a facet field has labels.
fn has_few_labels(part: &ColumnParts) -> bool
    requires { IsColumnParts part.now }
    ensures { IsTrue result ↔ HasFewLabels part.now }
{
    match part {
        ColumnParts::Facet(_, ends, _) => are_few(ends),
        _ => true,
    }
}

/// Whether no row has more labels in some field than it may. It takes no memory.
pub(crate) fn have_few_labels(parts: &[ColumnParts]) -> bool
    requires { All IsColumnParts parts.now }
    ensures { IsTrue result ↔ All HasFewLabels parts.now }
{
    for part in parts {
        if !has_few_labels(part) {
            return false;
        }
    }
    true
}

/// The column of a facet field. [`Refusal::Damaged`] where no column has these labels and ordinals.
fn labels_from(
    alloc: Global,
    rows: usize,
    dictionary: Vec<Text>,
    ends: Vec<u32>,
    ordinals: Vec<u32>,
) -> Result<Column, Refusal>
    requires few { rows ≤ row_limit }
    requires cut { IsColumnParts (parts.Facet dictionary ends ordinals) }
    requires labels { HasFewLabels (parts.Facet dictionary ends ordinals) }
    requires laid { IsLaid rows Kind.facet (column_in (parts.Facet dictionary ends ordinals)) }
    ensures ok { IfOk result (IsColumnOf rows (parts.Facet dictionary ends ordinals)) }
    ensures damaged { IfErr result (λ e. e ≡ Damaged → HasNoColumn rows (parts.Facet dictionary ends ordinals)) }
    ensures due { IfErr result (λ e. e ≡ Memory → HasNoColumn rows (parts.Facet dictionary ends ordinals) → ⊥) }
    ensures refusal { IfErr result (λ e. (e ≡ Damaged) ⊎ (e ≡ Memory)) }
{
    let labels = SetColumn::from_ordinals(alloc, dictionary, ends, ordinals)?;
    // Its contract says that each row has a set of labels.
    let _rows = labels.len();
    Ok(Column::Facet(Labels::joined(alloc, labels)?))
}

/// The column of a number field. Where all rows are given in runs with rising numbers, their order is merged of these.
fn numbers_from(
    alloc: Global,
    rows: usize,
    numbers: Vec<Option<i64>>,
    runs: Option<Vec<u32>>,
) -> Result<Column, AllocError>
    requires few { rows ≤ row_limit }
    requires laid { IsLaid rows Kind.number (column_in (parts.Number numbers)) }
    requires runs { IfSome runs (λ order. AreAllRows rows order.items) }
    ensures ok { IfOk result (IsColumnOf rows (parts.Number numbers)) }
    ensures due { HasNoColumn rows (parts.Number numbers) → ⊥ }
{
    let values = NumberColumn::of(alloc, &numbers)?;
    Ok(Column::Number(Numbers::joined(alloc, values, runs)?))
}

/// The column of the parts, of as many rows; that of a number field takes the next of the orders. [`Refusal::Damaged`] where no
/// column is laid out so.
fn column_from(
    alloc: Global,
    rows: usize,
    part: ColumnParts,
    orders: &mut IntoIter<Vec<u32>>,
) -> Result<Column, Refusal>
    requires few { rows ≤ row_limit }
    requires cut { IsColumnParts part }
    requires labels { HasFewLabels part }
    requires laid { IsLaid rows (kind_in part) (column_in part) }
    requires orders { All (λ order. AreAllRows rows order.items) (into_iter_items orders.old) }
    ensures orders { All (λ order. AreAllRows rows order.items) (into_iter_items orders.new) }
    ensures ok { IfOk result (IsColumnOf rows part) }
    ensures damaged { IfErr result (λ e. e ≡ Damaged → HasNoColumn rows part) }
    ensures due { IfErr result (λ e. e ≡ Memory → HasNoColumn rows part → ⊥) }
    ensures refusal { IfErr result (λ e. (e ≡ Damaged) ⊎ (e ≡ Memory)) }
{
    match part {
        ColumnParts::Text(words, ends, postings) => words_from(alloc, rows, words, ends, postings),
        ColumnParts::Keyword(dictionary, codes) => keywords_from(alloc, rows, dictionary, codes),
        ColumnParts::Number(numbers) => Ok(numbers_from(alloc, rows, numbers, orders.next())?),
        ColumnParts::Facet(dictionary, ends, ordinals) => {
            labels_from(alloc, rows, dictionary, ends, ordinals)
        }
    }
}

/// Adds the column of the parts, of as many rows, as [`column_from`] makes it. [`Refusal::Damaged`] where no column is laid out
/// so, also where memory is wanting.
fn add_column(
    alloc: Global,
    rows: usize,
    part: ColumnParts,
    orders: &mut IntoIter<Vec<u32>>,
    columns: &mut Vec<Column>,
) -> Result<(), Refusal>
    requires few { rows ≤ row_limit }
    requires cut { IsColumnParts part }
    requires labels { HasFewLabels part }
    requires laid { IsLaid rows (kind_in part) (column_in part) }
    requires orders { All (λ order. AreAllRows rows order.items) (into_iter_items orders.old) }
    ensures orders { All (λ order. AreAllRows rows order.items) (into_iter_items orders.new) }
    ensures ok { OnOk result ((c : declared.Column) × IsColumnOf rows part c × (columns.new.items ≡ columns.old.items ++ c ∷ [])) }
    ensures damaged { IfErr result (λ e. e ≡ Damaged → HasNoColumn rows part) }
    ensures due { IfErr result (λ e. e ≡ Memory → HasNoColumn rows part → ⊥) }
    ensures refusal { IfErr result (λ e. (e ≡ Damaged) ⊎ (e ≡ Memory)) }
{
    let column = column_from(alloc, rows, part, orders)?;
    columns.push(column)?;
    Ok(())
}

/// The columns of the parts, of as many rows. [`Refusal::Damaged`] where no column is laid out as some of them, also where
/// memory is wanting: then the parts that are left are still judged. For the number fields in turn all rows may be given in
/// runs with rising numbers.
pub(crate) fn columns_from(
    alloc: Global,
    rows: usize,
    parts: Vec<ColumnParts>,
    orders: Vec<Vec<u32>>,
) -> Result<Vec<Column>, Refusal>
    requires few { rows ≤ row_limit }
    requires cut { All IsColumnParts parts.items }
    requires labels { All HasFewLabels parts.items }
    requires laid { All (λ p. IsLaid rows (kind_in p) (column_in p)) parts.items }
    requires orders { All (λ order. AreAllRows rows order.items) orders.items }
    ensures ok { IfOk result (λ cs. AreColumnsOf rows parts.items cs.items) }
    ensures damaged { IfErr result (λ e. e ≡ Damaged → Any (HasNoColumn rows) parts.items) }
    ensures due { IfErr result (λ e. e ≡ Memory → All (λ p. HasNoColumn rows p → ⊥) parts.items) }
    ensures refusal { IfErr result (λ e. (e ≡ Damaged) ⊎ (e ≡ Memory)) }
{
    let mut columns = Vec::new(alloc);
    let mut orders = orders.into_iter();
    let mut is_short = false;
    for part in parts {
        match add_column(alloc, rows, part, &mut orders, &mut columns) {
            Ok(()) => {}
            Err(refusal) => match refusal {
                Refusal::Damaged => return Err(Refusal::Damaged),
                _ => is_short = true,
            },
        }
    }
    if is_short {
        return Err(Refusal::Memory);
    }
    Ok(columns)
}
