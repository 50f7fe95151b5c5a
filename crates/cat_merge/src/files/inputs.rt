//! The segments that a merge takes, and their live sets.
ghost use Rattle.std.specs.Prelude.{◌≡◌, length, map, IfOk, All};

use crate::Input;
use cat_views::Leaf;
use cat_views::cat_segment::Live;
use std::alloc::{AllocError, Global};

/// The segment of the leaf, with those of its rows live that are so now. Both are shared.
fn input_of(leaf: &Leaf) -> Result<Input, AllocError>
    ensures { IfOk result (λ i. i ≡ leaf.now) }
{
    // Its contract says that there is a truth value for each row.
    let _live = leaf.live();
    let segment = leaf.share_segment()?;
    let live = leaf.share_live()?;
    Ok(Input::new(segment, live))
}

/// The segments of the leaves, each with those of its rows live that are so now.
pub(crate) fn inputs_of(alloc: Global, leaves: &[Leaf]) -> Result<Vec<Input>, AllocError>
    ensures ok { IfOk result (λ v. v.items ≡ leaves.now) }
{
    let mut inputs = Vec::with_capacity(alloc, leaves.len())?;
    for leaf in leaves {
        inputs.push(input_of(leaf)?)?;
    }
    Ok(inputs)
}

/// The live sets of the leaves, each of which has a truth value for each row.
pub(crate) fn lives_of<'a>(alloc: Global, leaves: &'a [Leaf]) -> Result<Vec<&'a Live>, AllocError>
    ensures ok { IfOk result (λ v. map (λ l. l.now) v.items ≡ map (λ leaf. leaf.live) leaves.now) }
    ensures long { IfOk result (λ v. All (λ leaf. length leaf.live ≡ length leaf.segment.rows) leaves.now) }
{
    let mut lives = Vec::with_capacity(alloc, leaves.len())?;
    for leaf in leaves {
        lives.push(leaf.live())?;
    }
    Ok(lives)
}
