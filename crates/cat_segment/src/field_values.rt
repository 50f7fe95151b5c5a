//! What rows have in one field, as references, which the field's column is built of.
ghost use Rattle.std.specs.Prelude.{◌≡◌, map, option_map, IfOk, IfSome, All};
ghost use Rattle.cat_base.specs.Texts.{IsTextSet};
ghost use Rattle.cat_model.specs.Forms.{IsFormed};
ghost use Rattle.cat_model.specs.Item.{keyword_in, number_in};
ghost use Rattle.cat_items.specs.Contents.{field_content_of};
ghost use Rattle.cat_segment.specs.Fields.{content_in, content_texts, IsFormedIn};

use crate::segment::Row;
use cat_base::Text;
use cat_items::{FieldValue, Item};
use std::alloc::{AllocError, Global};

/// What the item has in the field of the index, if there is such a field.
fn value_at(item: &Item, index: usize) -> Option<&FieldValue>
    ensures value { option_map (λ v. field_content_of v.now) result ≡ content_in index item.now }
    ensures formed { IfSome (content_in index item.now) IsFormed }
{
    item.values().get(index)
}

/// The texts that the item has in the field of the index: its words or its labels.
fn texts_at(item: &Item, index: usize) -> &[Text]
    ensures value { result.now ≡ content_texts (content_in index item.now) }
    ensures sorted { IsTextSet result.now }
    ensures formed { IfSome (content_in index item.now) IsFormed }
{
    match value_at(item, index) {
        Some(FieldValue::Words(words)) => words.as_slice(),
        Some(FieldValue::Labels(labels)) => labels.as_slice(),
        _ => &[],
    }
}

/// The text that the item has in the keyword field of the index, if it has one.
fn keyword_at(item: &Item, index: usize) -> Option<&Text>
    ensures value { option_map (λ t. t.now) result ≡ keyword_in (content_in index item.now) }
    ensures formed { IfSome (content_in index item.now) IsFormed }
{
    match value_at(item, index) {
        Some(FieldValue::Keyword(text)) => text.as_ref(),
        _ => None,
    }
}

/// The integer that the item has in the number field of the index, if it has one.
fn number_at(item: &Item, index: usize) -> Option<i64>
    ensures value { result ≡ number_in (content_in index item.now) }
    ensures formed { IfSome (content_in index item.now) IsFormed }
{
    match value_at(item, index) {
        Some(FieldValue::Number(number)) => *number,
        _ => None,
    }
}

/// The texts of each row in the field of the index.
pub(crate) fn texts<'a>(
    alloc: Global,
    index: usize,
    rows: &[Row<'a>],
) -> Result<Vec<&'a [Text]>, AllocError>
    ensures ok { IfOk result (λ v. map (λ t. t.now) v.items ≡ map (λ r. content_texts (content_in index r.item.now)) rows.now) }
    ensures sets { IfOk result (λ v. All (λ t. IsTextSet t.now) v.items) }
    ensures formed { IfOk result (λ v. All (IsFormedIn index) rows.now) }
{
    let mut texts = Vec::with_capacity(alloc, rows.len())?;
    for row in rows {
        texts.push(texts_at(row.item, index))?;
    }
    Ok(texts)
}

/// The text of each row in the keyword field of the index.
pub(crate) fn keywords<'a>(
    alloc: Global,
    index: usize,
    rows: &[Row<'a>],
) -> Result<Vec<Option<&'a Text>>, AllocError>
    ensures ok { IfOk result (λ v. map (option_map (λ t. t.now)) v.items ≡ map (λ r. keyword_in (content_in index r.item.now)) rows.now) }
    ensures formed { IfOk result (λ v. All (IsFormedIn index) rows.now) }
{
    let mut keywords = Vec::with_capacity(alloc, rows.len())?;
    for row in rows {
        keywords.push(keyword_at(row.item, index))?;
    }
    Ok(keywords)
}

/// The integer of each row in the number field of the index.
pub(crate) fn numbers(
    alloc: Global,
    index: usize,
    rows: &[Row<'_>],
) -> Result<Vec<Option<i64>>, AllocError>
    ensures ok { IfOk result (λ v. v.items ≡ map (λ r. number_in (content_in index r.item.now)) rows.now) }
    ensures formed { IfOk result (λ v. All (IsFormedIn index) rows.now) }
{
    let mut numbers = Vec::with_capacity(alloc, rows.len())?;
    for row in rows {
        numbers.push(number_at(row.item, index))?;
    }
    Ok(numbers)
}
