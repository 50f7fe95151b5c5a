//! Queries that are one range of numbers.
ghost use Rattle.std.specs.Prelude.{◌≡◌, IfSome};
ghost use Rattle.cat_model.specs.Item.{content_of, number_in};
ghost use Rattle.cat_model.specs.View.{Row, item_in, row_matches};
ghost use Rattle.cat_segment.specs.Ranges.{lies_between};
ghost use Rattle.cat_query.specs.View.{query_of};

use crate::matching::sole_primary;
use crate::query::{Primary, Query, Test};

/// A range of the numbers of one field: both ends are part of it, and an end that is absent bounds nothing.
#[derive(Clone, Copy)]
pub struct NumberRange<'a> {
    /// The name of the field.
    pub field: &'a str,
    /// The least number of the range.
    pub low: Option<i64>,
    /// The greatest number of the range.
    pub high: Option<i64>,
}

impl Query {
    /// The range that the query is, where it is one clause without a sign, of a number or of a range of numbers: it matches
    /// the rows whose number lies in the range, and no others (Lucene: `PointRangeQuery.getField`, and its points). There is
    /// none for any other query, even where it matches the same rows.
    pub fn number_range(&self) -> Option<NumberRange<'_>>
        ensures { IfSome result (λ range. (row : Row) → row_matches (query_of self.now) row
            ≡ lies_between range.low range.high (number_in (content_of range.field.now (item_in row)))) }
    {
        match sole_primary(&self.clauses)? {
            Primary::Field(name, Test::Number(number)) => Some(NumberRange {
                field: name.as_str(),
                low: Some(*number),
                high: Some(*number),
            }),
            Primary::Field(name, Test::NumberRange(low, high)) => Some(NumberRange {
                field: name.as_str(),
                low: *low,
                high: *high,
            }),
            _ => None,
        }
    }
}
