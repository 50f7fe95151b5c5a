//! The rows of a column of keywords that have none.
ghost use Rattle.std.specs.Prelude.{◌≡◌, ◌<◌, ◌^◌, ◌++◌, ◌∷◌, [], None, cond, length, IfOk, OnOk, slice_index_or};
ghost use Rattle.cat_segment.specs.Valued.{rows_with, same_value};

use cat_columns::KeywordColumn;
use std::alloc::{AllocError, Global};

/// Adds the row, if it has no keyword.
fn add_missing(rows: &mut Vec<u32>, values: &KeywordColumn, row: usize) -> Result<(), AllocError>
    requires few { length values.now < 2 ^ 32 }
    requires within { row < length values.now }
    ensures ok { OnOk result (rows.new.items ≡ rows.old.items ++ cond (same_value None (slice_index_or values.now row None)) (row ∷ []) []) }
{
    if values.ordinal(row).is_none() {
        rows.push(row as u32)?;
    }
    Ok(())
}

/// The rows without a keyword, rising.
pub(crate) fn missing_rows(alloc: Global, values: &KeywordColumn) -> Result<Vec<u32>, AllocError>
    ensures ok { IfOk result (λ v. v.items ≡ rows_with values.now None) }
{
    let mut rows = Vec::new(alloc);
    for row in 0..values.len() {
        add_missing(&mut rows, values, row)?;
    }
    Ok(rows)
}
