//! Rows of a column in the order of their values, in parts.
ghost use Rattle.std.specs.Prelude.{◌≡◌, ◌<◌, ◌+◌, [], IfSome, length, map, slice_index_or};
ghost use Rattle.cat_segment.specs.RowParts.{EndsIn, falling_values, parts_of, rising_values, rows_of_parts_before};
ghost use Rattle.cat_segment.specs.Valued.{rows_with};

use crate::column::Keywords;
use crate::number_runs::NumberRuns;

/// Rows of a column in the order of their values, as lists that stand one behind another. A keyword field needs no list of its
/// own: the postings of its words are the parts (Lucene: `TermOrdValComparator`, which takes the postings of the terms that may
/// still come into a page). Nor does a number field for its falling order, which is its rising one read from the end.
#[derive(Clone, Copy)]
pub enum RowParts<'a> {
    /// The rows as one list.
    Whole(&'a [u32]),
    /// The rows of each text, those of the least text first, and last the rows without a text.
    Rising(&'a Keywords),
    /// The rows of each text, those of the greatest text first, and last the rows without a text.
    Falling(&'a Keywords),
    /// The rows of each number of a stretch, those of the greatest number first. Parts may be empty, and the last one is.
    Runs(NumberRuns<'a>),
    /// The same of each number of the field, and last the rows without a number.
    AllRuns(NumberRuns<'a>),
}

/// The rows of the text of this ordinal, or those without a text where it is the next after the last one.
fn keyword_part(keywords: &Keywords, ordinal: usize) -> &[u32]
    requires { ordinal < length (rising_values keywords.now) }
    ensures { result.now ≡ slice_index_or (map (rows_with keywords.now) (rising_values keywords.now)) ordinal [] }
{
    let terms = keywords.terms();
    if ordinal < terms.words().len() {
        terms.postings_at(ordinal)
    } else {
        keywords.missing()
    }
}

/// The same, where the ordinals are counted from the last one down.
fn keyword_part_from_end(keywords: &Keywords, place: usize) -> &[u32]
    requires { place < length (falling_values keywords.now) }
    ensures { result.now ≡ slice_index_or (map (rows_with keywords.now) (falling_values keywords.now)) place [] }
{
    let terms = keywords.terms();
    let count = terms.words().len();
    if place < count {
        terms.postings_at(count - 1 - place)
    } else {
        keywords.missing()
    }
}

impl<'a> RowParts<'a> {
    /// How many parts there are.
    #[inline(always)]
    pub fn len(&self) -> usize
        ensures { result ≡ length (parts_of self.now) }
    {
        match self {
            RowParts::Whole(_) => 1,
            RowParts::Rising(keywords) => keywords.terms().words().len() + 1,
            RowParts::Falling(keywords) => keywords.terms().words().len() + 1,
            RowParts::Runs(runs) | RowParts::AllRuns(runs) => runs.len() + 1,
        }
    }

    /// The part of this index.
    #[inline(always)]
    pub fn part(&self, index: usize) -> &'a [u32]
        requires { index < length (parts_of self.now) }
        ensures { result.now ≡ slice_index_or (parts_of self.now) index [] }
    {
        match self {
            RowParts::Whole(rows) => rows,
            RowParts::Rising(keywords) => keyword_part(keywords, index),
            RowParts::Falling(keywords) => keyword_part_from_end(keywords, index),
            RowParts::Runs(runs) => runs.part(index, &[]),
            RowParts::AllRuns(runs) => runs.part(index, runs.behind()),
        }
    }

    /// The last row of the parts up to the one of this index. An empty part has none, but for the places of a number field, each
    /// of which has a row before its part's end.
    pub fn last_through(&self, index: usize) -> Option<u32>
        requires { index < length (parts_of self.now) }
        ensures { IfSome result (λ row. EndsIn (rows_of_parts_before self.now (index + 1)) row) }
    {
        match self {
            RowParts::Runs(runs) => runs.last_through(index, &[]),
            RowParts::AllRuns(runs) => runs.last_through(index, runs.behind()),
            _ => self.part(index).last().copied(),
        }
    }
}
