//! The cell's steps on a pass, for whichever outcome: what the rule asks for it is passed on, in the rule's own words.
ghost use Rattle.std.specs.Prelude.{◌≡◌, []};
ghost use Rattle.crossbeam_utils.specs.Register.{Forks, Merges, Turns};
ghost use Rattle.crossbeam_utils.specs.Seq.{cell_view};
ghost use Rattle.cat_threads.specs.history.Rules.{Kept};

use crate::history::cell::{Cell, Seat};
use crate::history::sight::Sight;
use atomic_table::{Join, Split};
use crossbeam_utils::rule::Outcome;
use std::sync::Wait;

/// Reads the words.
pub(crate) fn load<M: Outcome<[u64; 2], Sight>, R: Wait>(
    rt: &R,
    cell: &Cell,
    seat: &mut Seat,
) -> [u64; 2]
    requires own { seat.old.table_id ≡ cell.now.table.shared.table_id }
    requires rule { Turns Kept seat.old.id (cell_view seat.old) (λ x. x) M.then }
    ensures own { seat.new.table_id ≡ seat.old.table_id }
    ensures rule { M.then (cell_view seat.old) result result (cell_view seat.new) }
{
    cell.load_as::<M, R>(rt, seat)
}

/// Writes the words, and answers those that stood there.
pub(crate) fn swap<M: Outcome<[u64; 2], Sight>, R: Wait>(
    rt: &R,
    cell: &Cell,
    seat: &mut Seat,
    words: [u64; 2],
) -> [u64; 2]
    requires own { seat.old.table_id ≡ cell.now.table.shared.table_id }
    requires rule { Turns Kept seat.old.id (cell_view seat.old) (λ _. words) M.then }
    ensures own { seat.new.table_id ≡ seat.old.table_id }
    ensures rule { M.then (cell_view seat.old) result words (cell_view seat.new) }
{
    cell.swap_as::<M, R>(rt, seat, words)
}

/// Cuts what the pass has seen in two.
pub(crate) fn split<M: Split<Sight>>(cell: &Cell, seat: &mut Seat) -> Seat
    requires own { seat.old.table_id ≡ cell.now.table.shared.table_id }
    requires rule { Forks Kept seat.old.id (cell_view seat.old) (M.left (cell_view seat.old)) (M.right (cell_view seat.old)) }
    ensures kept { (seat.new.table_id ≡ seat.old.table_id) × (cell_view seat.new ≡ M.left (cell_view seat.old)) }
    ensures given { (result.table_id ≡ seat.old.table_id) × (cell_view result ≡ M.right (cell_view seat.old)) × (result.me.1 ≡ []) }
{
    cell.split_pass::<M>(seat)
}

/// Takes in what a part has seen.
pub(crate) fn take_in<M: Join<Sight>>(cell: &Cell, seat: &mut Seat, other: Seat)
    requires own { (seat.old.table_id ≡ cell.now.table.shared.table_id) × (other.table_id ≡ seat.old.table_id) × (other.me.1 ≡ []) }
    requires rule { Merges Kept seat.old.id (cell_view seat.old) other.id (cell_view other) (M.both (cell_view seat.old) (cell_view other)) M.spent }
    ensures { (seat.new.table_id ≡ seat.old.table_id) × (cell_view seat.new ≡ M.both (cell_view seat.old) (cell_view other)) }
{
    cell.join_pass::<M>(seat, other);
}
