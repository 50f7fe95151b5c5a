//! The columns of a merged segment.
ghost use Rattle.std.specs.Prelude.{◌≡◌, ◌<◌, ◌^◌, ◌+◌, map, length, All, IfOk, OnOk};
ghost use Rattle.cat_items.specs.Kinds.{field_kind_of};
ghost use Rattle.cat_views.specs.cat_segment.Index.{AreAllRows};
ghost use Rattle.cat_merge.specs.Fields.{kept_rows, HasField, IsMergedColumn, AreFirstColumns, AreMergedColumns};
ghost use Rattle.cat_merge.specs.Maps.{codes_of};
ghost use Rattle.cat_merge.specs.Walk.{AreInputs};

use crate::input::Input;
use crate::keyword_column::keyword_column;
use crate::label_column::label_column;
use crate::merged_terms::merged_terms;
use crate::number_column::number_column;
use crate::number_order::number_order;
use crate::word_column::word_column;
use cat_items::file_parts::ColumnParts;
use cat_items::{Field, Kind};
use std::alloc::{AllocError, Global};

/// The column of the field of this index, which is of this kind.
pub(crate) fn merged_column(
    alloc: Global,
    inputs: &[Input],
    maps: &[Vec<u32>],
    kind: Kind,
    index: usize,
    rows: usize,
) -> Result<ColumnParts, AllocError>
    requires inputs { AreInputs inputs.now }
    requires few { rows < 2 ^ 32 }
    requires rows { rows ≡ length (kept_rows inputs.now) }
    requires fields { All (HasField (field_kind_of kind) index) inputs.now }
    requires maps { map (λ m. m.items) maps.now ≡ codes_of 0 inputs.now }
    ensures { IfOk result (IsMergedColumn (field_kind_of kind) index (kept_rows inputs.now)) }
{
    match kind {
        Kind::Number => number_column(alloc, inputs, index, rows),
        Kind::Text => word_column(alloc, &merged_terms(alloc, inputs, maps, index, rows)?),
        Kind::Keyword => {
            let terms = merged_terms(alloc, inputs, maps, index, rows)?;
            keyword_column(alloc, inputs, index, &terms)
        }
        Kind::Facet => {
            let terms = merged_terms(alloc, inputs, maps, index, rows)?;
            label_column(alloc, inputs, index, &terms)
        }
    }
}

/// Adds the rows by the numbers of the field of this index, if its kind is that of numbers.
fn add_order(
    alloc: Global,
    inputs: &[Input],
    maps: &[Vec<u32>],
    kind: Kind,
    index: usize,
    rows: usize,
    orders: &mut Vec<Vec<u32>>,
) -> Result<(), AllocError>
    requires inputs { AreInputs inputs.now }
    requires fields { All (HasField (field_kind_of kind) index) inputs.now }
    requires maps { map (λ m. m.items) maps.now ≡ codes_of 0 inputs.now }
    requires orders { All (λ order. AreAllRows (length (kept_rows inputs.now)) order.items) orders.old.items }
    ensures orders { All (λ order. AreAllRows (length (kept_rows inputs.now)) order.items) orders.new.items }
{
    match kind {
        Kind::Number => {
            let order = number_order(alloc, inputs, maps, index, rows)?;
            orders.push(order)?;
            Ok(())
        }
        _ => Ok(()),
    }
}

/// Adds the column of the field behind those that have one, and the rows by their numbers if it is a number field.
pub(crate) fn add_column(
    alloc: Global,
    fields: &[Field],
    inputs: &[Input],
    maps: &[Vec<u32>],
    rows: usize,
    columns: &mut Vec<ColumnParts>,
    orders: &mut Vec<Vec<u32>>,
) -> Result<(), AllocError>
    requires inputs { AreInputs inputs.now }
    requires few { rows < 2 ^ 32 }
    requires rows { rows ≡ length (kept_rows inputs.now) }
    requires fields { All (λ leaf. leaf.segment.schema ≡ fields.now) inputs.now }
    requires maps { map (λ m. m.items) maps.now ≡ codes_of 0 inputs.now }
    requires left { length columns.old.items < length fields.now }
    requires columns { AreFirstColumns fields.now (kept_rows inputs.now) columns.old.items }
    requires orders { All (λ order. AreAllRows (length (kept_rows inputs.now)) order.items) orders.old.items }
    ensures columns { AreFirstColumns fields.now (kept_rows inputs.now) columns.new.items }
    ensures orders { All (λ order. AreAllRows (length (kept_rows inputs.now)) order.items) orders.new.items }
    ensures more { OnOk result (length columns.new.items ≡ length columns.old.items + 1) }
{
    let index = columns.len();
    let kind = fields[index].kind();
    // Then nothing is left that may be refused once the order is added, so that each order is that of its column.
    columns.reserve(1)?;
    let column = merged_column(alloc, inputs, maps, kind, index, rows)?;
    add_order(alloc, inputs, maps, kind, index, rows, orders)?;
    columns.push(column)?;
    Ok(())
}

/// Adds the columns of all fields behind those that have one, and the rows by their numbers of the number fields.
pub(crate) fn add_columns(
    alloc: Global,
    fields: &[Field],
    inputs: &[Input],
    maps: &[Vec<u32>],
    rows: usize,
    columns: &mut Vec<ColumnParts>,
    orders: &mut Vec<Vec<u32>>,
) -> Result<(), AllocError>
    requires inputs { AreInputs inputs.now }
    requires few { rows < 2 ^ 32 }
    requires rows { rows ≡ length (kept_rows inputs.now) }
    requires fields { All (λ leaf. leaf.segment.schema ≡ fields.now) inputs.now }
    requires maps { map (λ m. m.items) maps.now ≡ codes_of 0 inputs.now }
    requires columns { AreFirstColumns fields.now (kept_rows inputs.now) columns.old.items }
    requires orders { All (λ order. AreAllRows (length (kept_rows inputs.now)) order.items) orders.old.items }
    ensures ok { OnOk result (AreMergedColumns fields.now (kept_rows inputs.now) columns.new.items) }
    ensures orders { OnOk result (All (λ order. AreAllRows (length (kept_rows inputs.now)) order.items) orders.new.items) }
{
    for _ in columns.len()..fields.len() {
        add_column(alloc, fields, inputs, maps, rows, columns, orders)?;
    }
    Ok(())
}
