//! Where the rows of the inputs go in the merged segment (Lucene: the `DocMap`s of a `MergeState`).
ghost use Rattle.std.specs.Prelude.{◌≡◌, ◌≤◌, ◌<◌, ◌+◌, ◌^◌, map, length, count_by, IfOk};
ghost use Rattle.std.specs.List.{flat_map};
ghost use Rattle.cat_model.specs.Limits.{row_limit};
ghost use Rattle.cat_model.specs.View.{live_rows};
ghost use Rattle.cat_merge.specs.Maps.{codes_from, codes_of};
ghost use Rattle.cat_merge.specs.Walk.{AreInputs};

use crate::input::Input;
use cat_views::cat_segment::Live;
use std::alloc::{AllocError, Global};

/// For each row 0, where it isn't live, or else its row in the merged segment plus 1; so many rows stand before them there.
fn row_map(alloc: Global, live: &Live, first: u32) -> Result<Vec<u32>, AllocError>
    requires { first + count_by (λ b. b) live.now < 2 ^ 32 }
    ensures ok { IfOk result (λ v. v.items ≡ codes_from first live.now) }
{
    let mut map = Vec::with_capacity(alloc, live.len())?;
    let mut next = first;
    for row in 0..live.len() {
        if live.is_live(row) {
            next += 1;
            map.push(next)?;
        } else {
            map.push(0)?;
        }
    }
    Ok(map)
}

/// The same for each input.
pub(crate) fn row_maps(alloc: Global, inputs: &[Input]) -> Result<Vec<Vec<u32>>, AllocError>
    requires few { length (flat_map live_rows inputs.now) ≤ row_limit }
    requires inputs { AreInputs inputs.now }
    ensures ok { IfOk result (λ v. map (λ m. m.items) v.items ≡ codes_of 0 inputs.now) }
{
    let mut maps = Vec::with_capacity(alloc, inputs.len())?;
    let mut first = 0;
    for input in inputs {
        let live = input.live();
        maps.push(row_map(alloc, live, first)?)?;
        first += live.count() as u32;
    }
    Ok(maps)
}
