//! The terms of a field of a merged segment, of those of its inputs.
ghost use Rattle.std.specs.Prelude.{◌≡◌, ◌≢◌, ◌<◌, ◌^◌, map, length, IfOk, MatchOption, All};
ghost use Rattle.cat_model.specs.Item.{Kind};
ghost use Rattle.cat_views.specs.cat_segment.Contents.{contents_of};
ghost use Rattle.cat_views.specs.cat_segment.Laid.{column_kind};
ghost use Rattle.cat_merge.specs.Fields.{texts_read, texts_under, texts_at, field_kind_at, kept_rows, HasField};
ghost use Rattle.cat_merge.specs.Maps.{codes_of};
ghost use Rattle.cat_merge.specs.Walk.{AreInputs};

use crate::input::Input;
use cat_columns::inverted::{MergeInput, Terms};
use cat_views::cat_segment::Column;
use std::alloc::{AllocError, Global};

/// The terms of the column; a number field has none.
fn terms_of(column: &Column) -> Option<&Terms>
    ensures { MatchOption result (column_kind column.now ≡ Kind.number) (λ t. t.now ≡ map (texts_read (column_kind column.now)) (contents_of column.now)) }
{
    match column {
        Column::Text(terms) => Some(terms),
        Column::Keyword(keywords) => Some(keywords.terms()),
        Column::Number(_) => None,
        Column::Facet(labels) => Some(labels.terms()),
    }
}

/// The terms of the field of this index.
fn terms_at(input: &Input, index: usize) -> &Terms
    requires field { index < length input.now.segment.schema }
    requires kind { field_kind_at index input.now ≢ Kind.number }
    ensures { result.now ≡ texts_at index input.now }
{
    match terms_of(input.column(index)) {
        Some(terms) => terms,
        None => unreachable!(),
    }
}

/// What a merge of the terms of the field of this index takes of the input, whose rows go where the map says.
fn part_of<'a>(input: &'a Input, row_map: &'a [u32], index: usize) -> MergeInput<'a>
    requires field { index < length input.now.segment.schema }
    requires kind { field_kind_at index input.now ≢ Kind.number }
    ensures terms { result.terms.now ≡ texts_at index input.now }
    ensures map { result.row_map.now ≡ row_map.now }
{
    MergeInput {
        terms: terms_at(input, index),
        row_map,
    }
}

/// What a merge of the terms of the field of this index takes of each input.
fn terms_in<'a>(
    alloc: Global,
    inputs: &'a [Input],
    maps: &'a [Vec<u32>],
    index: usize,
) -> Result<Vec<MergeInput<'a>>, AllocError>
    requires fields { All (λ leaf. (index < length leaf.segment.schema) × (field_kind_at index leaf ≢ Kind.number)) inputs.now }
    requires maps { map (λ m. m.items) maps.now ≡ codes_of 0 inputs.now }
    ensures terms { IfOk result (λ v. map (λ p. p.terms.now) v.items ≡ map (texts_at index) inputs.now) }
    ensures maps { IfOk result (λ v. map (λ p. p.row_map.now) v.items ≡ codes_of 0 inputs.now) }
{
    let mut parts = Vec::with_capacity(alloc, inputs.len())?;
    for (place, input) in inputs.iter().enumerate() {
        parts.push(part_of(input, &maps[place], index))?;
    }
    Ok(parts)
}

/// The terms of the rows that are kept, in the field of this index.
pub(crate) fn merged_terms(
    alloc: Global,
    inputs: &[Input],
    maps: &[Vec<u32>],
    index: usize,
    rows: usize,
) -> Result<Terms, AllocError>
    requires inputs { AreInputs inputs.now }
    requires few { rows < 2 ^ 32 }
    requires rows { rows ≡ length (kept_rows inputs.now) }
    requires fields { All (λ leaf. (index < length leaf.segment.schema) × (field_kind_at index leaf ≢ Kind.number)) inputs.now }
    requires maps { map (λ m. m.items) maps.now ≡ codes_of 0 inputs.now }
    ensures ok { IfOk result (λ t. (kind : Kind) → All (HasField kind index) inputs.now → t ≡ texts_under kind index (kept_rows inputs.now)) }
{
    Terms::merge(alloc, rows, &terms_in(alloc, inputs, maps, index)?)
}
