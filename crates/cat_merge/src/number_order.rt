//! The rows of a merged segment in runs, each with rising numbers of one field: those of one input behind those of another.
ghost use Rattle.std.specs.Prelude.{◌≡◌, ◌<◌, ◌++◌, ℕ, List, map, length, All, IfOk, OnOk};
ghost use Rattle.std.specs.List.{range_with_len};
ghost use Rattle.std.specs.List.Sorted.{IsPermutation};
ghost use Rattle.cat_columns.specs.Merged.{moved, row_in};
ghost use Rattle.cat_model.specs.Item.{Kind};
ghost use Rattle.cat_views.specs.cat_segment.Index.{AreAllRows};
ghost use Rattle.cat_merge.specs.Fields.{kept_rows, HasField};
ghost use Rattle.cat_merge.specs.Maps.{codes_of};
ghost use Rattle.cat_merge.specs.Walk.{AreInputs};

use crate::input::Input;
use cat_views::cat_segment::Column;
use std::alloc::{AllocError, Global};

/// Adds the row of the code, unless it is of none.
fn add_row(order: &mut Vec<u32>, code: u32) -> Result<(), AllocError>
    ensures { OnOk result (order.new.items ≡ order.old.items ++ row_in code) }
{
    if code != 0 {
        order.push(code - 1)?;
    }
    Ok(())
}

/// Adds what these rows of an input become.
fn add_moved(order: &mut Vec<u32>, rows: &[u32], row_map: &[u32]) -> Result<(), AllocError>
    requires { All (λ r. r < length row_map.now) rows.now }
    ensures { OnOk result (order.new.items ≡ order.old.items ++ moved row_map.now rows.now) }
{
    for row in rows {
        add_row(order, row_map[*row as usize])?;
    }
    Ok(())
}

/// Adds the rows that an input keeps, the least number first.
fn add_input(
    order: &mut Vec<u32>,
    input: &Input,
    index: usize,
    row_map: &[u32],
) -> Result<(), AllocError>
    requires field { HasField Kind.number index input.now }
    requires long { length row_map.now ≡ length input.now.segment.rows }
    ensures { OnOk result ((run : List ℕ) × IsPermutation (moved row_map.now (range_with_len 0 (length row_map.now))) run × (order.new.items ≡ order.old.items ++ run)) }
{
    match input.column(index) {
        Column::Number(column) => add_moved(order, column.rising(), row_map),
        _ => unreachable!(),
    }
}

/// All rows, those of each input with rising numbers of the field of this index.
pub(crate) fn number_order(
    alloc: Global,
    inputs: &[Input],
    maps: &[Vec<u32>],
    index: usize,
    rows: usize,
) -> Result<Vec<u32>, AllocError>
    requires inputs { AreInputs inputs.now }
    requires fields { All (HasField Kind.number index) inputs.now }
    requires maps { map (λ m. m.items) maps.now ≡ codes_of 0 inputs.now }
    ensures { IfOk result (λ v. AreAllRows (length (kept_rows inputs.now)) v.items) }
{
    let mut order = Vec::with_capacity(alloc, rows)?;
    for place in 0..inputs.len() {
        add_input(&mut order, &inputs[place], index, &maps[place])?;
    }
    Ok(order)
}
