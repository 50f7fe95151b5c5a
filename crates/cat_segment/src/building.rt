//! What a segment is made of, out of rows: their numbers, their ids, the lengths of their sources, and a column for each field.
ghost use Rattle.std.specs.Prelude.{◌≡◌, ℕ, ◌<◌, ◌≤◌, ◌^◌, true, map, length, IfOk, All};
ghost use Rattle.cat_base.specs.Texts.{IsTextSet};
ghost use Rattle.cat_model.specs.Forms.{IsSourceLength};
ghost use Rattle.cat_model.specs.Item.{AreFields, is_id};
ghost use Rattle.cat_model.specs.Limits.{row_limit};
ghost use Rattle.cat_model.specs.Ordinals.{dictionary_of};
ghost use Rattle.cat_items.specs.Kinds.{field_kind_of};
ghost use Rattle.cat_segment.specs.Contents.{contents_told};
ghost use Rattle.cat_segment.specs.Fields.{content_in, contents_of_rows, contents_by_field, AreFitting, IsFilled};

use crate::column::{Column, Keywords, Labels};
use crate::field_values::{keywords, numbers, texts};
use crate::ids::Ids;
use crate::numbers::Numbers;
use crate::segment::Row;
use crate::sources::Sources;
use cat_base::{Text, WriteNo};
use cat_columns::inverted::Terms;
use cat_columns::{KeywordColumn, NumberColumn, SetColumn};
use cat_items::{Field, Kind};
use std::alloc::{AllocError, Global};

/// The terms of the rows' words, of which there are fewer than 2^32.
fn terms(alloc: Global, rows: &[&[Text]]) -> Result<Terms, AllocError>
    requires few { length rows.now < 2 ^ 32 }
    requires sets { All (λ r. IsTextSet r.now) rows.now }
    ensures ok { IfOk result (λ t. t ≡ map (λ r. r.now) rows.now) }
    ensures few { IfOk result (λ t. length (dictionary_of t) < 2 ^ 32) }
{
    let terms = Terms::build(alloc, rows)?;
    // Its contract says how many words there are.
    let _words = terms.words();
    Ok(terms)
}

/// The column of the field of the index, whose kind is given.
fn column_of(
    alloc: Global,
    kind: Kind,
    index: usize,
    rows: &[Row<'_>],
) -> Result<Column, AllocError>
    requires few { length rows.now < 2 ^ 32 }
    requires filled { All (λ r. IsFilled (field_kind_of kind) (content_in index r.item.now)) rows.now }
    ensures ok { IfOk result (λ c. contents_told c ≡ contents_of_rows index rows.now) }
    ensures fitting { IfOk result (λ c. AreFitting index rows.now) }
{
    match kind {
        Kind::Text => {
            let texts = texts(alloc, index, rows)?;
            Ok(Column::Text(terms(alloc, &texts)?))
        }
        Kind::Keyword => {
            let keywords = keywords(alloc, index, rows)?;
            let values = KeywordColumn::of(alloc, &keywords)?;
            Ok(Column::Keyword(Keywords::joined(alloc, values)?))
        }
        Kind::Number => {
            let numbers = numbers(alloc, index, rows)?;
            let values = NumberColumn::of(alloc, &numbers)?;
            Ok(Column::Number(Numbers::joined(alloc, values, None)?))
        }
        Kind::Facet => {
            let texts = texts(alloc, index, rows)?;
            let labels = SetColumn::of(alloc, &texts)?;
            Ok(Column::Facet(Labels::joined(alloc, labels)?))
        }
    }
}

/// The columns of the fields, in the fields' order.
pub(crate) fn columns_of(
    alloc: Global,
    fields: &[Field],
    rows: &[Row<'_>],
) -> Result<Vec<Column>, AllocError>
    requires few { length rows.now < 2 ^ 32 }
    requires typed { All (λ r. AreFields fields.now r.item.now.fields) rows.now }
    ensures ok { IfOk result (λ cs. map contents_told cs.items ≡ contents_by_field (length fields.now) rows.now) }
    ensures fitting { IfOk result (λ cs. (index : ℕ) → index < length fields.now → AreFitting index rows.now) }
{
    let mut columns = Vec::with_capacity(alloc, fields.len())?;
    for (index, field) in fields.iter().enumerate() {
        columns.push(column_of(alloc, field.kind(), index, rows)?)?;
    }
    Ok(columns)
}

/// The number of each row.
pub(crate) fn write_numbers(alloc: Global, rows: &[Row<'_>]) -> Result<Vec<WriteNo>, AllocError>
    ensures ok { IfOk result (λ v. v.items ≡ map (λ r. r.number) rows.now) }
    ensures fit { IfOk result (λ v. All (λ r. r.number < 2 ^ 64) rows.now) }
{
    let mut numbers = Vec::with_capacity(alloc, rows.len())?;
    for row in rows {
        numbers.push(row.number)?;
    }
    Ok(numbers)
}

/// A copy of the id of each row.
fn copied_ids(alloc: Global, rows: &[Row<'_>]) -> Result<Vec<Text>, AllocError>
    ensures ok { IfOk result (λ v. v.items ≡ map (λ r. r.item.now.id) rows.now) }
    ensures forms { IfOk result (λ v. All (λ r. is_id r.item.now.id ≡ true) rows.now) }
{
    let mut ids = Vec::with_capacity(alloc, rows.len())?;
    for row in rows {
        ids.push(Text::from_str(alloc, row.item.id())?)?;
    }
    Ok(ids)
}

/// The ids of the rows, with their index.
pub(crate) fn ids(alloc: Global, rows: &[Row<'_>]) -> Result<Ids, AllocError>
    requires { length rows.now < 2 ^ 32 }
    ensures ok { IfOk result (λ i. i ≡ map (λ r. r.item.now.id) rows.now) }
    ensures forms { IfOk result (λ i. All (λ r. is_id r.item.now.id ≡ true) rows.now) }
{
    Ids::of(alloc, copied_ids(alloc, rows)?)
}

/// Where the texts that the rows' items came as stand.
pub(crate) fn sources(alloc: Global, rows: &[Row<'_>]) -> Result<Sources, AllocError>
    requires { length rows.now ≤ row_limit }
    ensures ok { IfOk result (λ s. s ≡ map (λ r. length r.item.now.source) rows.now) }
    ensures sizes { IfOk result (λ s. All (λ r. IsSourceLength (length r.item.now.source)) rows.now) }
{
    let mut sources = Sources::with_capacity(alloc, rows.len())?;
    for row in rows {
        sources.push(row.item.source().len() as u32)?;
    }
    Ok(sources)
}
