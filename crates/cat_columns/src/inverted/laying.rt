//! How the rows of words are laid one word behind another.
ghost use Rattle.std.specs.Prelude.{◌≡◌, ◌^◌, ◌<◌, ◌++◌, ◌∷◌, [], length, OnOk};

use std::alloc::AllocError;

/// Adds a word's rows behind those that stand there, and where they end. An error also where 2^32 rows or more would stand.
pub(crate) fn add_list(
    ends: &mut Vec<u32>,
    rows: &mut Vec<u32>,
    list: &[u32],
) -> Result<(), AllocError>
    ensures rows { OnOk result (rows.new.items ≡ rows.old.items ++ list.now) }
    ensures ends { OnOk result (ends.new.items ≡ ends.old.items ++ length rows.new.items ∷ []) }
    ensures few { OnOk result (length rows.new.items < 2 ^ 32) }
{
    rows.extend_from_slice(list)?;
    if rows.len() > u32::MAX as usize {
        return Err(AllocError);
    }
    ends.push(rows.len() as u32)?;
    Ok(())
}
