//! The column of a number field of a merged segment.
ghost use Rattle.std.specs.Prelude.{◌≡◌, ◌++◌, length, All, IfOk, OnOk};
ghost use Rattle.cat_model.specs.Item.{Kind};
ghost use Rattle.cat_model.specs.View.{selected};
ghost use Rattle.cat_merge.specs.Fields.{numbers_under, kept_rows, HasField, IsMergedColumn};

use crate::input::Input;
use cat_columns::NumberColumn;
use cat_items::file_parts::ColumnParts;
use cat_views::cat_segment::{Column, Live};
use std::alloc::{AllocError, Global};

/// Adds the numbers of the rows that are live.
fn add_numbers(
    numbers: &mut Vec<Option<i64>>,
    values: &NumberColumn,
    live: &Live,
) -> Result<(), AllocError>
    requires { length live.now ≡ length values.now }
    ensures { OnOk result (numbers.new.items ≡ numbers.old.items ++ selected live.now values.now) }
{
    for row in 0..values.len() {
        if live.is_live(row) {
            numbers.push(values.value(row))?;
        }
    }
    Ok(())
}

/// Adds the numbers of an input's rows that are kept.
fn add_input(numbers: &mut Vec<Option<i64>>, input: &Input, index: usize) -> Result<(), AllocError>
    requires { HasField Kind.number index input.now }
    ensures { OnOk result (numbers.new.items ≡ numbers.old.items ++ selected input.now.live (numbers_under index input.now.segment.rows)) }
{
    match input.column(index) {
        Column::Number(column) => add_numbers(numbers, column.values(), input.live()),
        _ => unreachable!(),
    }
}

/// The column of the number field of this index.
pub(crate) fn number_column(
    alloc: Global,
    inputs: &[Input],
    index: usize,
    rows: usize,
) -> Result<ColumnParts, AllocError>
    requires { All (HasField Kind.number index) inputs.now }
    ensures { IfOk result (IsMergedColumn Kind.number index (kept_rows inputs.now)) }
{
    let mut numbers = Vec::with_capacity(alloc, rows)?;
    for input in inputs {
        add_input(&mut numbers, input, index)?;
    }
    Ok(ColumnParts::Number(numbers))
}
