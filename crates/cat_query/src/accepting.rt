//! Which items a query accepts.
ghost use Rattle.std.specs.Prelude.{◌≡◌, ◌&&◌, Some};
ghost use Rattle.std.specs.List.{list_any};
ghost use Rattle.cat_model.specs.Text.{same_text, has_prefix};
ghost use Rattle.cat_model.specs.Item as model;
ghost use Rattle.cat_model.specs.Query.{matches, primary_matches, open_or, int_le};
ghost use Rattle.cat_segment.specs.cat_items.Contents.{field_content_of};
ghost use Rattle.cat_query.specs.View.{tested, primary_of, clauses_of, query_of};
ghost use Rattle.cat_query.specs.Tests.{passes};

use crate::query::{Clause, Primary, Query, Sign, Test};
use cat_base::{Text, TextSet};
use cat_columns::inverted::{is_from, is_up_to};
use cat_items::{FieldValue, Item};

impl Query {
    /// Whether the item matches each `+` clause and no `-` clause and, where there is no `+` clause, some clause without
    /// a sign: Lucene's `BooleanQuery`.
    pub fn accepts(&self, item: &Item) -> bool
        ensures { result ≡ matches (query_of self.now) item.now }
    {
        clauses_accept(&self.clauses, item)
    }
}

#[cycle(accepting)]
fn clauses_accept(clauses: &[Clause], item: &Item) -> bool
    ensures { result ≡ matches (clauses_of clauses.now) item.now }
{
    let mut supported = false;
    for clause in clauses {
        let found = primary_accepts(&clause.primary, item);
        match clause.sign {
            Sign::Must => {
                if !found {
                    return false;
                }
                supported = true;
            }
            Sign::MustNot => {
                if found {
                    return false;
                }
            }
            Sign::Should => supported = supported || found,
        }
    }
    supported
}

#[cycle(accepting)]
fn primary_accepts(primary: &Primary, item: &Item) -> bool
    ensures { result ≡ primary_matches (primary_of primary.now) item.now }
{
    match primary {
        Primary::Everything => true,
        Primary::Group(clauses) => clauses_accept(clauses, item),
        Primary::Field(name, test) => field_accepts(name, test, item),
    }
}

fn field_accepts(name: &Text, test: &Test, item: &Item) -> bool
    ensures { result ≡ primary_matches (tested name.now test.now) item.now }
{
    match item.value(name.as_str()) {
        Some(value) => value_accepts(test, value),
        None => false,
    }
}

fn value_accepts(test: &Test, value: &FieldValue) -> bool
    ensures { result ≡ passes test.now (Some (field_content_of value.now)) }
{
    match value {
        FieldValue::Words(words) => words_accept(test, words),
        FieldValue::Keyword(Some(keyword)) => keyword_accepts(test, keyword),
        FieldValue::Number(Some(number)) => number_accepts(test, *number),
        FieldValue::Labels(labels) => labels_accept(test, labels),
        FieldValue::Keyword(None) | FieldValue::Number(None) => false,
    }
}

fn words_accept(test: &Test, words: &TextSet) -> bool
    ensures { result ≡ passes test.now (Some (model.Content.words words.now)) }
{
    match test {
        Test::Word(word) => has(words, word),
        Test::WordPrefix(prefix) => has_prefixed(words, prefix),
        _ => false,
    }
}

fn labels_accept(test: &Test, labels: &TextSet) -> bool
    ensures { result ≡ passes test.now (Some (model.Content.labels labels.now)) }
{
    match test {
        Test::Label(label) => has(labels, label),
        Test::LabelPrefix(prefix) => has_prefixed(labels, prefix),
        _ => false,
    }
}

fn keyword_accepts(test: &Test, keyword: &Text) -> bool
    ensures { result ≡ passes test.now (Some (model.Content.keyword (Some keyword.now))) }
{
    match test {
        Test::Keyword(text) => text == keyword,
        Test::KeywordPrefix(prefix) => begins(prefix, keyword),
        Test::KeywordRange(low, high) => {
            is_from(keyword, low.as_ref()) && is_up_to(keyword, high.as_ref())
        }
        _ => false,
    }
}

fn number_accepts(test: &Test, number: i64) -> bool
    ensures { result ≡ passes test.now (Some (model.Content.number (Some number))) }
{
    match test {
        Test::Number(wanted) => *wanted <= number && number <= *wanted,
        Test::NumberRange(low, high) => is_at_least(*low, number) && is_at_most(*high, number),
        _ => false,
    }
}

fn has(texts: &TextSet, text: &Text) -> bool
    ensures { result ≡ list_any (same_text text.now) texts.now }
{
    texts.contains(text.as_str())
}

fn has_prefixed(texts: &TextSet, prefix: &Text) -> bool
    ensures { result ≡ list_any (has_prefix prefix.now) texts.now }
{
    texts.as_slice().iter().any(|text| begins(prefix, text))
}

fn begins(prefix: &Text, text: &Text) -> bool
    ensures { result ≡ has_prefix prefix.now text.now }
{
    let prefix = prefix.as_str().as_bytes();
    text.as_str().as_bytes().starts_with(prefix)
}

/// Whether the number is not below the low end of a range; none is where the end is open.
pub fn is_at_least(low: Option<i64>, number: i64) -> bool
    ensures { result ≡ open_or (λ a. int_le a number) low }
{
    match low {
        Some(low) => low <= number,
        None => true,
    }
}

/// Whether the number is at most the high end of a range; each is where the end is open.
pub fn is_at_most(high: Option<i64>, number: i64) -> bool
    ensures { result ≡ open_or (int_le number) high }
{
    match high {
        Some(high) => number <= high,
        None => true,
    }
}
