//! All listed segments, read from their files.
ghost use Rattle.std.specs.Prelude.{◌≡◌, ◌≢◌, ◌<◌, List, length, Some, None, IfOk, IfErr};
ghost use Rattle.std.specs.List.{HoldsAt};
ghost use Rattle.cat_base.specs.declared.refusal.Refusal.TheVariants.{Damaged, Memory};
ghost use Rattle.cat_directory.specs.Frames.{FailsReading, OnlyReads};
ghost use Rattle.cat_model.specs.View as model;
ghost use Rattle.cat_ledger_laws.specs.model.Opening.{AreLeavesOf};
ghost use Rattle.cat_ledger_laws.specs.shape.OpeningLaws.{MayHold};
ghost use Rattle.cat_commits.specs.reading.Told.{Tells};

use crate::ListedSegment;
use crate::reading::leaf::read_leaf;
use cat_base::Refusal;
use cat_directory::{FileName, Shelf};
use cat_items::Schema;
use cat_views::Leaf;
use std::alloc::Global;

/// The leaves of the listed segments, in order; [`Refusal::Damaged`] where the files of one hold none. A file's bytes are
/// let go before the next is read.
///
/// Memory is taken only once the first file was found, so that want of it never hides that this one is absent. Which segment
/// it was wanting for isn't told, so that of the others nothing more is known.
pub(crate) fn read_leaves<S: Shelf>(
    alloc: Global,
    shelf: &mut S,
    schema: &Schema,
    listed: &[ListedSegment],
) -> Result<Vec<Leaf>, Refusal>
    ensures ok { IfOk result (λ v. AreLeavesOf (MayHold (S.bytes shelf.old)) schema.now listed.now v.items) }
    ensures damaged { IfErr result (λ e. e ≡ Damaged → (leaves : List model.Leaf)
        → AreLeavesOf (Tells (S.bytes shelf.old)) schema.now listed.now leaves → ⊥) }
    ensures due { IfErr result (λ e. e ≡ Memory → (0 < length listed.now)
        × HoldsAt (λ x. S.bytes shelf.old (FileName.Segment x.number) ≢ Some None) listed.now 0) }
    ensures fails { FailsReading S.can_fail S.fault_count shelf.old shelf.new result }
    ensures frame { OnlyReads S.bytes S.may_leave S.can_fail shelf.old shelf.new }
{
    let mut leaves = Vec::new(alloc);
    for segment in listed {
        let leaf = read_leaf(alloc, shelf, schema, *segment)?;
        leaves.push(leaf)?;
    }
    Ok(leaves)
}
