//! The rows of a column of numbers that a page needn't look at.
ghost use Rattle.std.specs.Prelude.{◌≡◌, ◌<◌, ◌+◌, ◌*◌, ℕ, None, false, length, option_map, slice_index_or};
ghost use Rattle.cat_search.specs.Blocks.{has_bit};
ghost use Rattle.cat_search.specs.Bars.{lets_in, number_of_key, IsBarOf};
ghost use Rattle.cat_search.specs.Keys.{key_ref_of};
ghost use Rattle.cat_search.specs.Candidates.{mark_standing};

use crate::bar::Bar;
use crate::best::Best;
use crate::ends::Ends;
use crate::keys::KeyRef;
use crate::sort::Order;
use crate::standings::Candidate;
use cat_columns::NumberColumn;
use cat_query::{is_at_least, is_at_most};

/// Between which numbers a row may come into the page, both included; an absent end is open.
///
/// It costs two comparisons of integers, where an offer builds and compares a whole candidate. Lucene's
/// `NumericComparator` has the same two ends, as the `minValueAsLong` and `maxValueAsLong` of its competitive values.
#[derive(Clone, Copy)]
pub(crate) struct NumberBar {
    low: Option<i64>,
    high: Option<i64>,
    // Whether a row without a number may come in.
    missing: bool,
}

/// The number that is the key, if it is one.
fn number_of(key: Option<KeyRef>) -> Option<i64>
    ensures { result ≡ number_of_key (option_map key_ref_of key.entry) }
{
    match key {
        Some(KeyRef::Number(number)) => Some(number),
        _ => None,
    }
}

impl NumberBar {
    /// The bar of the page as it is: nothing that it keeps out can come in, by the mark or by the last hit of a full page.
    pub(crate) fn of<'a>(
        best: &Best<Candidate<'a>>,
        order: Order,
        mark: &Option<Candidate<'a>>,
    ) -> NumberBar
        ensures { IsBarOf order.entry (mark_standing mark.now) best.now result }
    {
        let ends = Ends::of(best, order, mark);
        NumberBar {
            low: number_of(ends.low),
            high: number_of(ends.high),
            missing: ends.missing,
        }
    }

    /// Whether a row with this number has to be looked at. A tie with an end has: there the write numbers decide.
    pub(crate) fn lets_in(self, number: Option<i64>) -> bool
        ensures { result ≡ lets_in self number }
    {
        match number {
            Some(number) => is_at_least(self.low, number) && is_at_most(self.high, number),
            None => self.missing,
        }
    }

    /// One bit for each of the 64 rows of the column from `64 * block` on, from the lowest: what has none needn't be looked at.
    pub(crate) fn lets_in_of(self, column: &NumberColumn, block: usize) -> u64
        requires { 64 * block < length column.now }
        ensures { (i : ℕ) → i < 64 → has_bit result i ≡ false → lets_in self (slice_index_or column.now (64 * block + i) None) ≡ false }
    {
        if self.missing {
            return u64::MAX;
        }
        column.block_between(block, self.low, self.high)
    }
}

/// The rows of a column of numbers, with the numbers that may come into the page.
#[derive(Drop)]
pub(crate) struct NumberRows<'a> {
    column: &'a NumberColumn,
    order: Order<'a>,
    bar: NumberBar,
}

impl<'a> NumberRows<'a> {
    ghost use Rattle.std.specs.Prelude.{◌≡◌};

    /// The rows of the column, none of which is kept out yet.
    pub(crate) fn open(column: &'a NumberColumn, order: Order<'a>) -> NumberRows<'a>
        ensures order { result.order ≡ order.entry }
        ensures column { result.column.now ≡ column.now }
    {
        let bar = NumberBar {
            low: None,
            high: None,
            missing: true,
        };
        NumberRows { column, order, bar }
    }
}

impl<'a> Bar<'a> for NumberRows<'a> {
    ghost use Rattle.std.specs.Prelude.{◌≡◌, None, false, map, option_map, slice_index_or};
    ghost use Rattle.cat_model.specs.Page.{Key};
    ghost use Rattle.cat_search.specs.Bars.{lets_in};

    ghost is_sound = { λ b. Unit {0} };

    ghost order = { λ b. b.order };

    ghost keys = { λ b. map (option_map Key.number) b.column.now };

    ghost keeps_out = { λ b row. lets_in b.bar (slice_index_or b.column.now row None) ≡ false };

    fn lets_in(&self, row: usize) -> bool {
        self.bar.lets_in(self.column.value(row))
    }

    fn renew(&mut self, best: &Best<Candidate<'a>>, mark: &Option<Candidate<'a>>) {
        self.bar = NumberBar::of(best, self.order, mark);
    }
}
