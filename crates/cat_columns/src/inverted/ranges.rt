//! The rows that have some word of a range, as sets.
ghost use Rattle.std.specs.Prelude.{◌≡◌, ◌<◌, ◌≤◌, ◌&&◌, true, false, not, length, map, All, IfOk};
ghost use Rattle.std.specs.List.{list_any};
ghost use Rattle.std.specs.List.Sorted.{IsPartitionPoint};
ghost use Rattle.std.specs.Option.{option_map};
ghost use Rattle.cat_base.specs.Texts.{IsTextSet};
ghost use Rattle.cat_model.specs.Text.{text_le, has_prefix};
ghost use Rattle.cat_model.specs.Query.{open_or};
ghost use Rattle.cat_model.specs.Ordinals.{rows_having};
ghost use Rattle.cat_columns.specs.inverted.Intervals.{is_from, is_up_to};

use crate::RowSet;
use crate::inverted::terms::Terms;
use cat_base::Text;
use std::alloc::AllocError;

fn as_str<'a>(text: Option<&'a Text>) -> Option<&'a str>
    ensures { option_map (λ t. t.now) result ≡ option_map (λ t. t.now) text.entry }
{
    text.map(|text| text.as_str())
}

/// Whether the word comes before the low end; none does where the end is open.
fn is_below(word: &Text, low: Option<&str>) -> bool
    ensures { result ≡ not (is_from low.entry word.now) }
{
    match low {
        Some(low) => word.as_str() < low,
        None => false,
    }
}

/// Whether the text doesn't come before the low end of a range; none does where the end is open.
pub fn is_from(text: &Text, low: Option<&Text>) -> bool
    ensures { result ≡ is_from low.entry text.now }
{
    !is_below(text, as_str(low))
}

/// Whether the text is at most the high end of a range; each is where the end is open.
pub fn is_up_to(word: &Text, high: Option<&Text>) -> bool
    ensures { result ≡ is_up_to high.entry word.now }
{
    match high {
        Some(high) => word.cmp(high).is_le(),
        None => true,
    }
}

fn begins(word: &Text, prefix: &str) -> bool
    ensures { result ≡ has_prefix prefix.now word.now }
{
    word.as_str().as_bytes().starts_with(prefix.as_bytes())
}

/// The ordinal of the first word that doesn't come before the low end.
fn first_from(words: &[Text], low: Option<&str>) -> usize
    requires { IsTextSet words.now }
    ensures bound { result ≤ length words.now }
    ensures point { IsPartitionPoint (λ w. is_from low.entry w ≡ false) (λ w. is_from low.entry w ≡ true) words.now result }
{
    words.partition_point(|word| is_below(word, low))
}

/// How many of the words are at most the high end.
fn count_up_to(words: &[Text], high: Option<&Text>) -> usize
    requires { IsTextSet words.now }
    ensures bound { result ≤ length words.now }
    ensures point { IsPartitionPoint (λ w. is_up_to high.entry w ≡ true) (λ w. is_up_to high.entry w ≡ false) words.now result }
{
    words.partition_point(|word| is_up_to(word, high))
}

/// How many of the words begin with the prefix, where none comes before it.
fn count_with_prefix(words: &[Text], prefix: &str) -> usize
    requires sorted { IsTextSet words.now }
    requires from { All (λ w. text_le prefix.now w ≡ true) words.now }
    ensures bound { result ≤ length words.now }
    ensures point { IsPartitionPoint (λ w. has_prefix prefix.now w ≡ true) (λ w. has_prefix prefix.now w ≡ false) words.now result }
{
    words.partition_point(|word| begins(word, prefix))
}

impl Terms {
    /// The rows that have the word, as Lucene's `TermQuery` finds them.
    pub fn rows_with(&self, word: &str) -> Result<RowSet, AllocError>
        ensures ok { IfOk result (λ s. s ≡ rows_having word.now self.now) }
    {
        self.set_of(self.postings(word))
    }

    /// The rows that have a word that begins with the prefix, as Lucene's `PrefixQuery` finds them.
    pub fn prefix(&self, prefix: &str) -> Result<RowSet, AllocError>
        ensures ok { IfOk result (λ s. s ≡ map (list_any (has_prefix prefix.now)) self.now) }
    {
        let words = self.words();
        let first = first_from(words, Some(prefix));
        let count = count_with_prefix(&words[first..], prefix);
        self.rows_of_words(first, count)
    }

    /// The rows that have a word from `low` to `high`, both included, as Lucene's `TermRangeQuery` finds them. An end that is
    /// absent bounds nothing.
    pub fn between(&self, low: Option<&Text>, high: Option<&Text>) -> Result<RowSet, AllocError>
        ensures ok { IfOk result (λ s. s
            ≡ map (list_any (λ k. open_or (λ a. text_le a k) (option_map (λ a. a.now) low.entry)
            && open_or (text_le k) (option_map (λ a. a.now) high.entry))) self.now) }
    {
        let words = self.words();
        let first = first_from(words, as_str(low));
        let count = count_up_to(&words[first..], high);
        self.rows_of_words(first, count)
    }
}
