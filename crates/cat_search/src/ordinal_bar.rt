//! The rows of a column of keywords that a page needn't look at.
ghost use Rattle.std.specs.Prelude.{◌≡◌, ℕ, ◌<◌, true, false, length, Option, option_map, IfSome, IsTrue};
ghost use Rattle.cat_search.specs.Bars.{keyword_of, lies_within};
ghost use Rattle.cat_search.specs.Keys.{key_ref_of};
ghost use Rattle.cat_search.specs.OrdinalBars.{is_below_end, is_above_end, AreTextsBelow, AreAbove, lets_ordinal_in, AreOrdinalsOf, IsOrdinalBarOf, keyword_key};
ghost use Rattle.cat_search.specs.Candidates.{mark_standing};

use crate::bar::Bar;
use crate::best::Best;
use crate::ends::Ends;
use crate::keys::KeyRef;
use crate::sort::Order;
use crate::standings::Candidate;
use cat_base::Text;
use cat_columns::{Dictionary, KeywordColumn};

/// From which ordinal on, and up to before which, a row of one segment may come into the page.
///
/// It costs two comparisons of integers, where an offer looks the row's text up and compares it. Lucene's
/// `TermOrdValComparator` has the same two ends, as the ordinals that its `CompetitiveIterator` is given.
#[derive(Clone, Copy)]
pub(crate) struct OrdinalBar<'a> {
    from: usize,
    before: usize,
    // Whether a row without a keyword may come in.
    missing: bool,
    // The texts that `from` and `before` were found by.
    low: Option<&'a str>,
    high: Option<&'a str>,
    // How often an end may still be looked up. Where nearly every row comes into the page, as by names that fall with
    // the rows, the look-ups would cost more than the offers that they save.
    lookups: usize,
}

/// The text that is the key, if it is one.
fn keyword_of<'a>(key: Option<KeyRef<'a>>) -> Option<&'a str>
    ensures { option_map (λ t. t.now) result ≡ keyword_of (option_map key_ref_of key.entry) }
{
    match key {
        Some(KeyRef::Keyword(text)) => Some(text),
        _ => None,
    }
}

/// Whether the text is below the end.
fn is_below_end(text: &Text, low: Option<&str>) -> bool
    ensures { result ≡ is_below_end text.now (option_map (λ a. a.now) low.entry) }
{
    match low {
        Some(low) => text.as_str() < low,
        None => false,
    }
}

/// Whether the text is above the end.
fn is_above_end(text: &Text, high: Option<&str>) -> bool
    ensures { result ≡ is_above_end text.now (option_map (λ a. a.now) high.entry) }
{
    match high {
        Some(high) => high < text.as_str(),
        None => false,
    }
}

/// The ordinal of the first text that isn't below the end.
fn first_from(dictionary: &Dictionary, low: Option<&str>) -> usize
    ensures { AreTextsBelow (option_map (λ a. a.now) low.entry) dictionary.now result }
{
    dictionary
        .as_slice()
        .partition_point(|text| is_below_end(text, low))
}

/// The ordinal of the first text that is above the end.
fn first_above(dictionary: &Dictionary, high: Option<&str>) -> usize
    ensures { AreAbove (option_map (λ a. a.now) high.entry) dictionary.now result }
{
    dictionary
        .as_slice()
        .partition_point(|text| !is_above_end(text, high))
}

/// Whether the two ends are the same text, or both open.
fn is_same(end: Option<&str>, other: Option<&str>) -> bool
    ensures { IsTrue result → option_map (λ a. a.now) end.entry ≡ option_map (λ a. a.now) other.entry }
{
    match (end, other) {
        (Some(end), Some(other)) => end == other,
        (None, None) => true,
        _ => false,
    }
}

impl<'a> OrdinalBar<'a> {
    /// A bar that lets everything in, and that may be renewed by so many look-ups.
    pub(crate) fn open(dictionary: &Dictionary, lookups: usize) -> OrdinalBar<'a>
        ensures ordinals { AreOrdinalsOf dictionary.now result }
        ensures open { (i : Option ℕ) → IfSome i (λ k. k < length dictionary.now) → lets_ordinal_in result i ≡ true }
    {
        OrdinalBar {
            from: 0,
            before: dictionary.len(),
            missing: true,
            low: None,
            high: None,
            lookups,
        }
    }

    /// The bar's `from` for this end, which is looked up only if it isn't the end that the bar has.
    fn from_end(self, dictionary: &Dictionary, low: Option<&str>) -> usize
        requires { AreOrdinalsOf dictionary.now self }
        ensures { AreTextsBelow (option_map (λ a. a.now) low.entry) dictionary.now result }
    {
        if is_same(self.low, low) {
            return self.from;
        }
        first_from(dictionary, low)
    }

    /// The bar's `before` for this end, which is looked up only if it isn't the end that the bar has.
    fn before_end(self, dictionary: &Dictionary, high: Option<&str>) -> usize
        requires { AreOrdinalsOf dictionary.now self }
        ensures { AreAbove (option_map (λ a. a.now) high.entry) dictionary.now result }
    {
        if is_same(self.high, high) {
            return self.before;
        }
        first_above(dictionary, high)
    }

    /// The bar between these ends.
    fn between(self, ends: Ends<'a>, dictionary: &Dictionary) -> OrdinalBar<'a>
        requires { AreOrdinalsOf dictionary.now self }
        ensures ordinals { AreOrdinalsOf dictionary.now result }
        ensures within { (i : Option ℕ) → IfSome i (λ k. k < length dictionary.now)
            → lets_ordinal_in result i ≡ false → lies_within ends.entry (keyword_key dictionary.now i) ≡ false }
    {
        let low = keyword_of(ends.low);
        let high = keyword_of(ends.high);
        if is_same(self.low, low) && is_same(self.high, high) {
            return OrdinalBar {
                missing: ends.missing,
                ..self
            };
        }
        if self.lookups == 0 {
            return OrdinalBar::open(dictionary, 0);
        }
        OrdinalBar {
            from: self.from_end(dictionary, low),
            before: self.before_end(dictionary, high),
            missing: ends.missing,
            low,
            high,
            lookups: self.lookups - 1,
        }
    }

    /// The bar of the page as it is, over the ordinals of this dictionary: nothing that it keeps out can come in, by the mark
    /// or by the last hit of a full page. Where an end is as it was, it isn't looked up again.
    pub(crate) fn renewed(
        self,
        best: &Best<Candidate<'a>>,
        order: Order,
        mark: &Option<Candidate<'a>>,
        dictionary: &Dictionary,
    ) -> OrdinalBar<'a>
        requires { AreOrdinalsOf dictionary.now self }
        ensures ordinals { AreOrdinalsOf dictionary.now result }
        ensures bar { IsOrdinalBarOf order.entry (mark_standing mark.now) best.now dictionary.now result }
    {
        self.between(Ends::of(best, order, mark), dictionary)
    }

    /// Whether a row with the text of this ordinal has to be looked at. A tie with an end has: there the write numbers
    /// decide.
    pub(crate) fn lets_in(self, ordinal: Option<usize>) -> bool
        ensures { result ≡ lets_ordinal_in self.entry ordinal }
    {
        match ordinal {
            Some(ordinal) => self.from <= ordinal && ordinal < self.before,
            None => self.missing,
        }
    }
}

/// The rows of a column of keywords, with the ordinals that may come into the page.
#[derive(Drop)]
pub(crate) struct KeywordRows<'a> {
    column: &'a KeywordColumn,
    order: Order<'a>,
    bar: OrdinalBar<'a>,
}

impl<'a> KeywordRows<'a> {
    ghost use Rattle.std.specs.Prelude.{◌≡◌, map};
    ghost use Rattle.cat_model.specs.Ordinals.{dictionary_of, texts_of};
    ghost use Rattle.cat_search.specs.OrdinalBars.{AreOrdinalsOf};

    /// The rows of the column, none of which is kept out yet.
    pub(crate) fn open(column: &'a KeywordColumn, order: Order<'a>) -> KeywordRows<'a>
        ensures order { result.order ≡ order.entry }
        ensures column { result.column.now ≡ column.now }
        ensures ordinals { AreOrdinalsOf (dictionary_of (map texts_of result.column.now)) result.bar }
    {
        // One look-up for 16 rows adds little to the offers of these, in whatever order the rows come.
        let bar = OrdinalBar::open(column.dictionary(), column.len() / 16);
        KeywordRows { column, order, bar }
    }
}

impl<'a> Bar<'a> for KeywordRows<'a> {
    ghost use Rattle.std.specs.Prelude.{None, map, option_map, slice_index_or};
    ghost use Rattle.cat_model.specs.Ordinals.{dictionary_of, texts_of};
    ghost use Rattle.cat_model.specs.Page.{Key};
    ghost use Rattle.cat_search.specs.OrdinalBars.{AreOrdinalsOf, KeepsOut};

    ghost is_sound = { λ b. AreOrdinalsOf (dictionary_of (map texts_of b.column.now)) b.bar };

    ghost order = { λ b. b.order };

    ghost keys = { λ b. map (option_map Key.keyword) b.column.now };

    ghost keeps_out = { λ b row. KeepsOut (dictionary_of (map texts_of b.column.now)) b.bar (slice_index_or b.column.now row None) };

    fn lets_in(&self, row: usize) -> bool {
        self.bar.lets_in(self.column.ordinal(row))
    }

    fn renew(&mut self, best: &Best<Candidate<'a>>, mark: &Option<Candidate<'a>>) {
        self.bar = self
            .bar
            .renewed(best, self.order, mark, self.column.dictionary());
    }
}
