//! Which rows of a merged segment are live.
ghost use Rattle.std.specs.Prelude.{◌≡◌, ◌≤◌, ◌<◌, ◌+◌, ◌-◌, ◌++◌, ◌^◌, true, length, map, take, drop, replicate, slice_set, IfOk};
ghost use Rattle.cat_model.specs.Limits.{row_limit};
ghost use Rattle.cat_model.specs.Merged.{rows_of_all, live_of_all, AreDeletedFrom};
ghost use Rattle.cat_model.specs.RowSets.{has_row};
ghost use Rattle.cat_model.specs.View.{selected};
ghost use Rattle.cat_merge.specs.Merging.{with_live};
ghost use Rattle.cat_merge.specs.Walk.{AreInputs};

use crate::counting::live_rows_in;
use crate::input::Input;
use cat_views::cat_segment::Live;
use std::alloc::{AllocError, Global};

/// Kills the row, unless it is to stay live.
fn settle_row(live: &mut Live, row: usize, stays: bool)
    requires row { row < length live.old }
    requires live { has_row live.old row ≡ true }
    ensures { live.new ≡ slice_set live.old row stays }
{
    if !stays {
        live.kill(row);
    }
}

/// Kills those of the rows that were kept of one input which aren't live now. All from the first of them on are live; the answer
/// is the row behind them.
fn settle_input(live: &mut Live, first: usize, before: &Live, now: &Live) -> usize
    requires few { length live.old < 2 ^ 32 }
    requires long { length now.now ≡ length before.now }
    requires room { first + length (selected before.now now.now) ≤ length live.old }
    requires all { drop first live.old ≡ replicate (length live.old - first) true }
    ensures live { live.new ≡ take first live.old ++ (selected before.now now.now ++ replicate (length live.old - result) true) }
    ensures next { result ≡ first + length (selected before.now now.now) }
{
    let mut next = first;
    for row in 0..before.len() {
        if before.is_live(row) {
            settle_row(live, next, now.is_live(row));
            next += 1;
        }
    }
    next
}

/// Of the rows that are kept of these inputs, those that are live now.
pub(crate) fn settled(alloc: Global, inputs: &[Input], now: &[&Live]) -> Result<Live, AllocError>
    requires few { length (rows_of_all inputs.now) ≤ row_limit }
    requires inputs { AreInputs inputs.now }
    requires deleted { AreDeletedFrom inputs.now (with_live inputs.now (map (λ l. l.now) now.now)) }
    ensures ok { IfOk result (λ l. l ≡ selected (live_of_all inputs.now) (live_of_all (with_live inputs.now (map (λ l. l.now) now.now)))) }
{
    let mut live = Live::all(alloc, live_rows_in(inputs))?;
    let mut next = 0;
    for (index, input) in inputs.iter().enumerate() {
        next = settle_input(&mut live, next, input.live(), now[index]);
    }
    Ok(live)
}
