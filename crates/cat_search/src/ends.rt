//! Keys that a page needn't look at.
ghost use Rattle.std.specs.Prelude.{IfSome};
ghost use Rattle.cat_search.specs.Bars.{HasKey, MarkHas, LastHas, AreEndsOf};
ghost use Rattle.cat_search.specs.Keys.{key_ref_of};
ghost use Rattle.cat_search.specs.Candidates.{mark_standing, rank_of};

use crate::best::Best;
use crate::keys::KeyRef;
use crate::sort::Order;
use crate::standings::{Candidate, Rank};
use std::cmp::Reverse;

/// Between which keys a row may come into the page, both included; an absent end is open.
#[derive(Clone, Copy)]
pub(crate) struct Ends<'a> {
    pub(crate) low: Option<KeyRef<'a>>,
    pub(crate) high: Option<KeyRef<'a>>,
    // Whether a row without a key may come in.
    pub(crate) missing: bool,
}

/// The key of the rank, if the rank is one of this order.
fn key_in<'a>(rank: &Rank<'a>, order: Order) -> Option<KeyRef<'a>>
    ensures { IfSome result (λ k. HasKey order.entry (rank_of rank.now) (key_ref_of k)) }
{
    match (order, rank) {
        (Order::Rising(_), Rank::Rising(key)) => Some(*key),
        (Order::Falling(_), Rank::Falling(Reverse(key))) => Some(*key),
        _ => None,
    }
}

/// The key of the mark, if it has one in this order.
fn mark_key<'a>(mark: &Option<Candidate<'a>>, order: Order) -> Option<KeyRef<'a>>
    ensures { IfSome result (λ k. MarkHas order.entry (mark_standing mark.now) (key_ref_of k)) }
{
    match mark {
        Some(mark) => key_in(&mark.rank, order),
        None => None,
    }
}

/// The key of the last hit that is kept, if there is no room for more and it has one in this order.
fn last_key<'a>(best: &Best<Candidate<'a>>, order: Order) -> Option<KeyRef<'a>>
    ensures { IfSome result (λ k. LastHas order.entry best.now (key_ref_of k)) }
{
    match best.last_if_full() {
        Some(last) => key_in(&last.rank, order),
        None => None,
    }
}

impl<'a> Ends<'a> {
    /// The ends of the page as it is: nothing that they keep out can come in, by the mark or by the last hit of a full page.
    pub(crate) fn of(
        best: &Best<Candidate<'a>>,
        order: Order,
        mark: &Option<Candidate<'a>>,
    ) -> Ends<'a>
        ensures { AreEndsOf order.entry (mark_standing mark.now) best.now result }
    {
        let first = mark_key(mark, order);
        let last = last_key(best, order);
        let missing = last.is_none();
        match order {
            Order::Falling(_) => Ends {
                low: last,
                high: first,
                missing,
            },
            Order::Rising(_) | Order::Added => Ends {
                low: first,
                high: last,
                missing,
            },
        }
    }
}
