//! The row that a mark names.
ghost use Rattle.std.specs.Prelude.{◌≡◌, ◌≢◌, ◌<◌, ◌==◌, find, length, map, Some, None, All, AllPairs, MatchOption, IfOk, IfErr, true, false};
ghost use Rattle.std.specs.List.{flat_map, HoldsAt};
ghost use Rattle.cat_base.specs.declared.refusal.Refusal.TheVariants.{Mark};
ghost use Rattle.cat_model.specs.Answer.{has_mark};
ghost use Rattle.cat_model.specs.View.{live_rows};
ghost use Rattle.cat_search.specs.Candidates.{mark_standing};
ghost use Rattle.cat_views.specs.Rows.{all_rows};
ghost use Rattle.cat_search.specs.Rows.{bare_record, live_numbered, mark_in_rows};

use crate::leaf_ranks::LeafRanks;
use crate::sort::Order;
use crate::standings::Candidate;
use cat_base::{Refusal, WriteNo};
use cat_views::Leaf;
use cat_views::cat_segment::Segment;

/// The row of the segment that the write of this number put, live or dead.
fn row_of(segment: &Segment, number: WriteNo) -> Option<usize>
    ensures rising { AllPairs (λ a b. a.number < b.number) segment.now.rows }
    ensures row { MatchOption result
        (All (λ r. r.number ≢ number) segment.now.rows)
        (λ row. (row < length segment.now.rows) × HoldsAt (λ r. r.number ≡ number) segment.now.rows row) }
{
    let row = segment.rows_through(number).checked_sub(1)?;
    if segment.write_number(row) == number {
        Some(row)
    } else {
        None
    }
}

/// The only leaf that can have the row of this number: the last whose first row has no higher one.
fn leaf_of(leaves: &[Leaf], number: WriteNo) -> Option<&Leaf>
    requires { AllPairs (λ a b. a.number < b.number) (all_rows leaves.now) }
    ensures { MatchOption result
        (live_numbered leaves.now number ≡ None)
        (λ l. live_numbered leaves.now number ≡ find (λ r. r.number == number) (live_rows l.now)) }
{
    if leaves.is_empty() {
        return None;
    }
    let mut low = 0;
    let mut high = leaves.len();
    while high - low > 1 {
        let middle = low + (high - low) / 2;
        if leaves[middle].first_number() <= number {
            low = middle;
        } else {
            high = middle;
        }
    }
    Some(&leaves[low])
}

/// The live row of this number, if there is one, by its segment and its index there.
fn live_row(leaves: &[Leaf], number: WriteNo) -> Option<(&Segment, usize)>
    requires { AllPairs (λ a b. a.number < b.number) (all_rows leaves.now) }
    ensures { MatchOption result
        (live_numbered leaves.now number ≡ None)
        (λ at. (at.1 < length at.0.now.rows) × HoldsAt (λ r. live_numbered leaves.now number ≡ Some r) at.0.now.rows at.1) }
{
    let leaf = leaf_of(leaves, number)?;
    let row = row_of(leaf.segment(), number)?;
    if leaf.live().is_live(row) {
        Some((leaf.segment(), row))
    } else {
        None
    }
}

/// The row of the mark as a hit, if there is a mark. [`Refusal::Mark`] if the mark is the number of no live row.
pub(crate) fn mark_in_leaves<'a>(
    leaves: &'a [Leaf],
    order: Order<'a>,
    mark: Option<WriteNo>,
) -> Result<Option<Candidate<'a>>, Refusal>
    requires { AllPairs (λ a b. a.number < b.number) (all_rows leaves.now) }
    ensures ok { IfOk result (λ m. mark_standing m ≡ mark_in_rows order.entry (flat_map live_rows leaves.now) mark) }
    ensures has { IfOk result (λ m. has_mark (map bare_record (flat_map live_rows leaves.now)) mark ≡ true) }
    ensures err { IfErr result (λ e. (e ≡ Mark) × (has_mark (map bare_record (flat_map live_rows leaves.now)) mark ≡ false)) }
{
    let Some(number) = mark else {
        return Ok(None);
    };
    let Some((segment, row)) = live_row(leaves, number) else {
        return Err(Refusal::Mark);
    };
    Ok(Some(LeafRanks::of(segment, order).at(row)))
}
