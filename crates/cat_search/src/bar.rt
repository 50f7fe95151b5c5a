//! Rows that a page needn't look at.
ghost use Rattle.std.specs.Prelude.{◌≡◌, ◌<◌, ℕ, false, length};

use crate::best::Best;
use crate::standings::Candidate;

/// A test of the rows of a segment that costs less than an offer. Only rows fail it that can't come into the page: by
/// their keys they stand before the mark, or behind the last hit of a full page. (Lucene: the `competitiveIterator` of a
/// `LeafFieldComparator`.)
pub(crate) trait Bar<'a> {
    ghost use Rattle.std.specs.Prelude.{◌≡◌, ◌<◌, ℕ, List, Option, None, false, length, slice_index_or};
    ghost use Rattle.cat_model.specs.Page.{Key};
    ghost use Rattle.cat_search.specs.declared.sort.Order.{Order};
    ghost use Rattle.cat_search.specs.Bars.{IsLeftOut};
    ghost use Rattle.cat_search.specs.Candidates.{mark_standing};

    /// What always holds of the bar.
    ghost is_sound: { Self → Type 0 };

    /// The order of the page.
    ghost order: { Self → Order };

    /// The keys of the rows.
    ghost keys: { Self → List (Option Key) };

    /// The row fails the test.
    ghost keeps_out: { Self → ℕ → Type 0 };

    /// Whether the row has to be looked at.
    fn lets_in(&self, row: usize) -> bool
        requires sound { is_sound self.now }
        requires within { row < length (keys self.now) }
        ensures { result ≡ false → keeps_out self.now row };

    /// Makes it the bar of the page as it is.
    fn renew(&mut self, best: &Best<Candidate<'a>>, mark: &Option<Candidate<'a>>)
        requires { is_sound self.old }
        ensures sound { is_sound self.new }
        ensures order { order self.new ≡ order self.old }
        ensures keys { keys self.new ≡ keys self.old }
        ensures bar { (row : ℕ) → keeps_out self.new row
            → IsLeftOut (order self.old) (mark_standing mark.now) best.now (slice_index_or (keys self.old) row None) };
}
