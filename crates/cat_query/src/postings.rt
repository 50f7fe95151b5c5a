//! Queries that are one word of a text, one keyword or one label.
ghost use Rattle.std.specs.Prelude.{◌≡◌, IfSome, Some, map};
ghost use Rattle.cat_model.specs.Item as model;
ghost use Rattle.cat_model.specs.Query.{primary_matches};
ghost use Rattle.cat_model.specs.RowSets.{indices};
ghost use Rattle.cat_model.specs.View.{item_in, row_matches};
ghost use Rattle.cat_segment.specs.Contents.{contents_of};
ghost use Rattle.cat_query.specs.Tests.{passes};
ghost use Rattle.cat_query.specs.View.{query_of, tested};

use crate::matching::sole_primary;
use crate::query::{Primary, Query, Test};
use cat_base::Text;
use cat_columns::inverted::Terms;
use cat_segment::{Column, Keywords, Labels, Segment};

fn word_postings<'a>(test: &Test, terms: &'a Terms) -> Option<&'a [u32]>
    ensures { IfSome result (λ rows. rows.now ≡ indices (map (λ ws. passes test.now (Some (model.Content.words ws))) terms.now)) }
{
    match test {
        Test::Word(word) => Some(terms.postings(word.as_str())),
        _ => None,
    }
}

fn keyword_postings<'a>(test: &Test, keywords: &'a Keywords) -> Option<&'a [u32]>
    ensures { IfSome result (λ rows. rows.now ≡ indices (map (λ k. passes test.now (Some (model.Content.keyword k))) keywords.now)) }
{
    match test {
        Test::Keyword(text) => Some(keywords.terms().postings(text.as_str())),
        _ => None,
    }
}

fn label_postings<'a>(test: &Test, labels: &'a Labels) -> Option<&'a [u32]>
    ensures { IfSome result (λ rows. rows.now ≡ indices (map (λ ls. passes test.now (Some (model.Content.labels ls))) labels.now)) }
{
    match test {
        Test::Label(label) => Some(labels.terms().postings(label.as_str())),
        _ => None,
    }
}

/// The rows of the column that pass the test, rising, where the test is for a whole word of a field of this kind.
fn column_postings<'a>(test: &Test, column: &'a Column) -> Option<&'a [u32]>
    ensures { IfSome result (λ rows. rows.now ≡ indices (map (λ c. passes test.now (Some c)) (contents_of column.now))) }
{
    match column {
        Column::Text(terms) => word_postings(test, terms),
        Column::Keyword(keywords) => keyword_postings(test, keywords),
        Column::Number(_) => None,
        Column::Facet(labels) => label_postings(test, labels),
    }
}

/// The rows whose field of the name passes the test, where it is for a whole word and the segment has such a field.
fn field_postings<'a>(name: &Text, test: &Test, segment: &'a Segment) -> Option<&'a [u32]>
    ensures { IfSome result (λ rows. rows.now
        ≡ indices (map (λ r. primary_matches (tested name.now test.now) (item_in r)) segment.now.rows)) }
{
    let column = segment.column(name.as_str())?;
    column_postings(test, column)
}

impl Query {
    /// The rows of the segment that the query matches, rising, deleted rows too: where it is one clause without a sign, of a
    /// word of a text, a keyword or a label, and the segment has a field of this name and kind. They are lent as the segment
    /// keeps them, and no set is made (Lucene: the `PostingsEnum` of a `TermQuery`). There are none for any other query.
    pub fn postings<'a>(&self, segment: &'a Segment) -> Option<&'a [u32]>
        ensures { IfSome result (λ rows. rows.now ≡ indices (map (row_matches (query_of self.now)) segment.now.rows)) }
    {
        let primary = sole_primary(&self.clauses)?;
        match primary {
            Primary::Field(name, test) => field_postings(name, test, segment),
            _ => None,
        }
    }
}
