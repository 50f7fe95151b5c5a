//! Which of the segments that stand are to be merged: those that the policy picks, or all of them.
//!
//! Lucene's `LogMergePolicy.findMerges` and `findForcedMerges`.
ghost use Rattle.std.specs.Prelude.{◌≡◌, ◌↔◌, ◌≤◌, false, sum, IfOk, IsTrue};
ghost use Rattle.cat_model.specs.Limits.{row_limit};
ghost use Rattle.cat_model.specs.Window.{IsWindow};
ghost use Rattle.cat_ledger_laws.specs.model.Calls.{all_alive};
ghost use Rattle.cat_ledger_laws.specs.model.Plans.{MayBeForced};
ghost use Rattle.cat_ledger_laws.specs.lines.PlanLaws.{sizes_in, live_sets_in};

use crate::upkeep::policy::MergePolicy;
use cat_base::MAX_ROWS;
use cat_ledger_state::{Leaf, window};
use std::alloc::{AllocError, Global};

/// How many rows each of the segments has, deleted ones counted.
fn sizes_of(alloc: Global, leaves: &[Leaf]) -> Result<Vec<u32>, AllocError>
    ensures { IfOk result (λ v. v.items ≡ sizes_in leaves.now) }
{
    let mut sizes = Vec::with_capacity(alloc, leaves.len())?;
    for leaf in leaves {
        sizes.push(leaf.segment().len() as u32)?;
    }
    Ok(sizes)
}

/// How many segments stand before those that the policy merges next, if there are some.
pub(crate) fn window_of(
    alloc: Global,
    leaves: &[Leaf],
    policy: MergePolicy,
) -> Result<Option<usize>, AllocError>
    ensures { IfOk result (IsWindow policy.factor policy.least (sizes_in leaves.now)) }
{
    let sizes = sizes_of(alloc, leaves)?;
    Ok(window(&sizes, policy.factor(), policy.least()))
}

/// Whether one segment can hold the rows of all.
fn fit_one(leaves: &[Leaf]) -> bool
    ensures { IsTrue result ↔ (sum (sizes_in leaves.now) ≤ row_limit) }
{
    let mut room = MAX_ROWS;
    for leaf in leaves {
        let rows = leaf.segment().len();
        if rows > room {
            return false;
        }
        room -= rows;
    }
    true
}

/// Whether some row of the segment is deleted.
fn has_dead(leaf: &Leaf) -> bool
    ensures { IsTrue result ↔ (all_alive leaf.now.live ≡ false) }
{
    leaf.live().count() < leaf.segment().len()
}

/// Whether it is of some use to merge all segments, and one can hold their rows: some stand, one that stands alone has a
/// deleted row.
pub(crate) fn may_be_forced(leaves: &[Leaf]) -> bool
    ensures { IsTrue result ↔ MayBeForced (sizes_in leaves.now) (live_sets_in leaves.now) }
{
    let useful = match leaves {
        [] => false,
        [only] => has_dead(only),
        _ => true,
    };
    useful && fit_one(leaves)
}
