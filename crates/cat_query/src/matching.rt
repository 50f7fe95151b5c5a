//! Which rows of a segment a query matches: its clauses one after another, each over the whole segment.
ghost use Rattle.std.specs.Prelude.{◌≡◌, map, false, Some, IfOk, IfSome};
ghost use Rattle.std.specs.List.{list_any};
ghost use Rattle.cat_model.specs.Item as model;
ghost use Rattle.cat_model.specs.Query.{matches, supports, supported, primary_matches};
ghost use Rattle.cat_model.specs.View.{item_in, row_matches};
ghost use Rattle.cat_segment.specs.Contents.{contents_of};
ghost use Rattle.cat_query.specs.View.{sign_of, tested, primary_of, clauses_of, query_of, sole};
ghost use Rattle.cat_query.specs.Tests.{passes};

use crate::doc_set::DocSet;
use crate::query::{Clause, Primary, Query, Sign, Test};
use cat_base::Text;
use cat_columns::RowSet;
use cat_columns::inverted::Terms;
use cat_segment::{Column, Keywords, Labels, Numbers, Segment};
use std::alloc::{AllocError, Global};

impl Query {
    /// The rows of the segment that the query matches, as [`Query::accepts`] says of the item of each; deleted rows too,
    /// since a segment doesn't know which of its rows live: Lucene's `BooleanWeight.scorer` for one leaf, before its
    /// `liveDocs` are asked.
    pub fn matches(&self, alloc: Global, segment: &Segment) -> Result<DocSet, AllocError>
        ensures ok { IfOk result (λ s. s ≡ map (row_matches (query_of self.now)) segment.now.rows) }
    {
        let rows = match sole_primary(&self.clauses) {
            Some(primary) => primary_set(alloc, primary, segment)?,
            None => clauses_set(alloc, &self.clauses, segment)?,
        };
        Ok(DocSet::of(rows))
    }
}

/// The primary of one clause without a sign, as most queries are: its rows are the query's, and no set is joined with
/// another (`BooleanQuery.rewrite` of one clause).
pub(crate) fn sole_primary(clauses: &[Clause]) -> Option<&Primary>
    ensures { IfSome result (λ p. clauses_of clauses.now ≡ sole (primary_of p.now)) }
{
    match clauses {
        [
            Clause {
                sign: Sign::Should,
                primary,
            },
        ] => Some(primary),
        _ => None,
    }
}

/// The rows that the clauses accept.
#[cycle(rows)]
fn clauses_set(alloc: Global, clauses: &[Clause], segment: &Segment) -> Result<RowSet, AllocError>
    ensures { IfOk result (λ s. s ≡ map (λ r. matches (clauses_of clauses.now) (item_in r)) segment.now.rows) }
{
    let mut rows = supported_set(alloc, clauses, segment)?;
    for clause in clauses {
        match clause.sign {
            Sign::Must => rows.and_with(&primary_set(alloc, &clause.primary, segment)?),
            Sign::MustNot => rows.and_not(&primary_set(alloc, &clause.primary, segment)?),
            Sign::Should => {}
        }
    }
    Ok(rows)
}

/// The rows that some `+` clause or some clause without a sign speaks for: all rows where there is a `+` clause, and then
/// no clause without a sign is looked at.
#[cycle(rows)]
fn supported_set(alloc: Global, clauses: &[Clause], segment: &Segment) -> Result<RowSet, AllocError>
    ensures { IfOk result (λ s. s ≡ map (λ r. supported (clauses_of clauses.now) (item_in r)) segment.now.rows) }
{
    if has_must(clauses) {
        return RowSet::all(alloc, segment.len());
    }
    let mut rows = RowSet::none(alloc, segment.len())?;
    for clause in clauses {
        match clause.sign {
            Sign::Should => rows.or_with(&primary_set(alloc, &clause.primary, segment)?),
            _ => {}
        }
    }
    Ok(rows)
}

/// Whether some clause is a `+` clause, which speaks even for rows that it doesn't match.
fn has_must(clauses: &[Clause]) -> bool
    ensures { result ≡ list_any (λ c. supports (sign_of c.sign) false) clauses.now }
{
    clauses
        .iter()
        .any(|clause| matches!(clause.sign, Sign::Must))
}

/// The rows that the primary matches.
#[cycle(rows)]
fn primary_set(alloc: Global, primary: &Primary, segment: &Segment) -> Result<RowSet, AllocError>
    ensures { IfOk result (λ s. s ≡ map (λ r. primary_matches (primary_of primary.now) (item_in r)) segment.now.rows) }
{
    match primary {
        Primary::Everything => RowSet::all(alloc, segment.len()),
        Primary::Group(clauses) => clauses_set(alloc, clauses, segment),
        Primary::Field(name, test) => field_set(alloc, name, test, segment),
    }
}

/// The rows whose field of the name passes the test; none where the segment has no such field.
fn field_set(
    alloc: Global,
    name: &Text,
    test: &Test,
    segment: &Segment,
) -> Result<RowSet, AllocError>
    ensures { IfOk result (λ s. s ≡ map (λ r. primary_matches (tested name.now test.now) (item_in r)) segment.now.rows) }
{
    match segment.column(name.as_str()) {
        Some(column) => column_set(alloc, test, column),
        None => RowSet::none(alloc, segment.len()),
    }
}

/// The rows of the column that pass the test. A test of another kind of field passes none.
fn column_set(alloc: Global, test: &Test, column: &Column) -> Result<RowSet, AllocError>
    ensures { IfOk result (λ s. s ≡ map (λ c. passes test.now (Some c)) (contents_of column.now)) }
{
    match column {
        Column::Text(terms) => words_set(alloc, test, terms),
        Column::Keyword(keywords) => keywords_set(alloc, test, keywords),
        Column::Number(numbers) => numbers_set(alloc, test, numbers),
        Column::Facet(labels) => labels_set(alloc, test, labels),
    }
}

fn words_set(alloc: Global, test: &Test, terms: &Terms) -> Result<RowSet, AllocError>
    ensures { IfOk result (λ s. s ≡ map (λ ws. passes test.now (Some (model.Content.words ws))) terms.now) }
{
    match test {
        Test::Word(word) => terms.rows_with(word.as_str()),
        Test::WordPrefix(prefix) => terms.prefix(prefix.as_str()),
        _ => RowSet::none(alloc, terms.len()),
    }
}

fn keywords_set(alloc: Global, test: &Test, keywords: &Keywords) -> Result<RowSet, AllocError>
    ensures { IfOk result (λ s. s ≡ map (λ k. passes test.now (Some (model.Content.keyword k))) keywords.now) }
{
    match test {
        Test::Keyword(text) => keywords.terms().rows_with(text.as_str()),
        Test::KeywordPrefix(prefix) => keywords.terms().prefix(prefix.as_str()),
        Test::KeywordRange(low, high) => keywords.terms().between(low.as_ref(), high.as_ref()),
        _ => RowSet::none(alloc, keywords.terms().len()),
    }
}

fn numbers_set(alloc: Global, test: &Test, numbers: &Numbers) -> Result<RowSet, AllocError>
    ensures { IfOk result (λ s. s ≡ map (λ n. passes test.now (Some (model.Content.number n))) numbers.now) }
{
    match test {
        Test::Number(wanted) => numbers.between(alloc, Some(*wanted), Some(*wanted)),
        Test::NumberRange(low, high) => numbers.between(alloc, *low, *high),
        _ => RowSet::none(alloc, numbers.values().len()),
    }
}

fn labels_set(alloc: Global, test: &Test, labels: &Labels) -> Result<RowSet, AllocError>
    ensures { IfOk result (λ s. s ≡ map (λ ls. passes test.now (Some (model.Content.labels ls))) labels.now) }
{
    match test {
        Test::Label(label) => labels.terms().rows_with(label.as_str()),
        Test::LabelPrefix(prefix) => labels.terms().prefix(prefix.as_str()),
        _ => RowSet::none(alloc, labels.terms().len()),
    }
}
