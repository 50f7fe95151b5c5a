//! The rows of a segment as hits of a sort.
ghost use Rattle.std.specs.Prelude.{◌≡◌, ◌<◌, None, length, map, option_map, replicate, slice_get, IfSome, IsPermutation, IsTrue, MatchOption};
ghost use Rattle.std.specs.List.{HoldsAt};
ghost use Rattle.cat_model.specs.Page.{Key, key, key_in};
ghost use Rattle.cat_views.specs.cat_segment.Contents.{contents_of, contents_told, contents_under_name};
ghost use Rattle.cat_views.specs.cat_segment.Ranges.{lies_between};
ghost use Rattle.cat_views.specs.cat_segment.RowParts.{rows_of_parts};
ghost use Rattle.cat_search.specs.Bars.{HaveRanks};
ghost use Rattle.cat_search.specs.Candidates.{standing_of};
ghost use Rattle.cat_search.specs.Keys.{key_ref_of};
ghost use Rattle.cat_search.specs.Rows.{bare_record, keys_by, row_standing};
ghost use Rattle.cat_search.specs.Sorts.{sort_in};
ghost use Rattle.cat_search.specs.Walks.{IsWalk, IsWalkWhere, ranked_number};

use crate::keys::KeyRef;
use crate::sort::{Order, OrderField, rank_with};
use crate::standings::Candidate;
use cat_columns::{KeywordColumn, NumberColumn};
use cat_items::Schema;
use cat_views::cat_segment::{Column, RowParts, Segment};
use std::marker::Model;

/// The rows of a segment as hits of one sort, whose column is looked up once (Lucene: a `LeafFieldComparator` over the
/// doc values of its leaf).
///
/// Contracts see it as the standing of each row.
#[derive(Drop)]
pub(crate) struct LeafRanks<'a> {
    segment: &'a Segment,
    order: Order<'a>,
    // None in order of addition, and where the segment has no field of the name.
    column: Option<&'a Column>,
}

impl<'a> Model for LeafRanks<'a> {
    ghost use Rattle.std.specs.Prelude.{◌≡◌, List, length};
    ghost use Rattle.cat_search.specs.Rows.{keyed_standings, keys_by};
    ghost use Rattle.cat_search.specs.Standings.{HitStanding};

    ghost Value = { List HitStanding };

    ghost view = { λ r. keyed_standings r.order (keys_by r.column (length r.segment.now.rows)) r.segment.now.rows };

    ghost invariant = { λ r. length (keys_by r.column (length r.segment.now.rows)) ≡ length r.segment.now.rows };
}

/// Whether the schema has the field at its place.
fn has_field(schema: &Schema, field: OrderField) -> bool
    ensures within { IsTrue result → field.entry.index < length schema.now }
    ensures name { IsTrue result → HoldsAt (λ f. f.name ≡ field.entry.name.now) schema.now field.entry.index }
{
    match schema.fields().get(field.index) {
        Some(found) => found.name() == field.name,
        None => false,
    }
}

/// The column of the field's name, if the segment has one. Where the segment's schema has the field at its place, no name is
/// searched.
fn column_of<'a>(field: OrderField, segment: &'a Segment) -> Option<&'a Column>
    ensures { MatchOption result
        (contents_under_name field.entry.name.now segment.now.rows ≡ replicate (length segment.now.rows) None)
        (λ c. contents_told c.now ≡ contents_under_name field.entry.name.now segment.now.rows) }
{
    if has_field(segment.schema(), field) {
        return Some(segment.column_at(field.index));
    }
    segment.column(field.name)
}

/// The column of the order's field: none in order of addition, and none where the segment has no field of the name.
fn column_by<'a>(order: Order, segment: &'a Segment) -> Option<&'a Column>
    ensures { keys_by result (length segment.now.rows) ≡ map (λ r. key (sort_in order.entry) (bare_record r)) segment.now.rows }
{
    match order {
        Order::Added => None,
        Order::Rising(field) => column_of(field, segment),
        Order::Falling(field) => column_of(field, segment),
    }
}

/// The sort key that the row has in the column: none where it has no value, and none in the column of a text or facet
/// field.
fn key_at(column: &Column, row: usize) -> Option<KeyRef>
    requires { row < length (contents_of column.now) }
    ensures { option_map key_ref_of result ≡ key_in (slice_get (contents_of column.now) row) }
{
    match column {
        Column::Number(numbers) => match numbers.values().value(row) {
            Some(number) => Some(KeyRef::Number(number)),
            None => None,
        },
        Column::Keyword(keywords) => match keywords.values().value(row) {
            Some(text) => Some(KeyRef::Keyword(text.as_str())),
            None => None,
        },
        Column::Text(_) | Column::Facet(_) => None,
    }
}

/// The rows of a range of numbers, live or dead.
#[derive(Clone, Copy)]
pub(crate) struct RangeRows<'a> {
    /// In any order, side by side: they are counted so.
    pub(crate) rows: &'a [u32],
    /// In the order of the page.
    pub(crate) walk: RowParts<'a>,
}

impl<'a> LeafRanks<'a> {
    /// The rows of the segment, in this order.
    pub(crate) fn of(segment: &'a Segment, order: Order<'a>) -> LeafRanks<'a>
        ensures { result ≡ map (row_standing order.entry) segment.now.rows }
    {
        LeafRanks {
            segment,
            order,
            column: column_by(order, segment),
        }
    }

    /// How many rows there are.
    pub(crate) fn len(&self) -> usize
        ensures { result ≡ length self.now }
    {
        self.segment.len()
    }

    /// The row as a hit.
    pub(crate) fn at(&self, row: usize) -> Candidate<'a>
        requires { row < length self.now }
        ensures { HoldsAt (λ standing. standing_of result ≡ standing) self.now row }
    {
        let key = match self.column {
            Some(column) => key_at(column, row),
            None => None,
        };
        Candidate {
            rank: rank_with(key, self.order),
            number: self.segment.write_number(row),
            id: self.segment.id_text(row),
        }
    }

    /// The numbers that rank the rows, and in which order, where the sort is by a number field.
    pub(crate) fn numbers(&self) -> Option<(&'a NumberColumn, Order<'a>)>
        ensures { IfSome result (λ n. HaveRanks Key.number n.1 n.0.now self.now) }
    {
        let Column::Number(numbers) = self.column? else {
            return None;
        };
        Some((numbers.values(), self.order))
    }

    /// All rows in the order of the page, where the sort is by a number field.
    fn number_walk(&self) -> Option<RowParts<'a>>
        ensures { IfSome result (λ w. IsWalk self.now (rows_of_parts w)) }
    {
        let Column::Number(numbers) = self.column? else {
            return None;
        };
        // Its contract says that the numbers of the rows rise.
        let _rows = self.segment.len();
        match self.order {
            Order::Added => None,
            Order::Rising(_) => Some(RowParts::Whole(numbers.rising())),
            Order::Falling(_) => Some(numbers.falling()),
        }
    }

    /// The rows whose number lies between the two, both included, where an absent end is open, where the sort is by a number
    /// field.
    pub(crate) fn range(&self, low: Option<i64>, high: Option<i64>) -> Option<RangeRows<'a>>
        ensures walk { IfSome result (λ range. IsWalkWhere (λ standing. lies_between low high (ranked_number standing.rank)) self.now
            (rows_of_parts range.walk)) }
        ensures rows { IfSome result (λ range. IsPermutation (rows_of_parts range.walk) range.rows.now) }
    {
        let Column::Number(numbers) = self.column? else {
            return None;
        };
        // Its contract says that the numbers of the rows rise.
        let _count = self.segment.len();
        let rows = numbers.rising_between(low, high);
        match self.order {
            Order::Added => None,
            Order::Rising(_) => Some(RangeRows {
                rows,
                walk: RowParts::Whole(rows),
            }),
            Order::Falling(_) => Some(RangeRows {
                rows,
                walk: numbers.falling_between(low, high),
            }),
        }
    }

    /// All rows in the order of the page, where the sort is by a keyword field.
    fn keyword_walk(&self) -> Option<RowParts<'a>>
        ensures { IfSome result (λ w. IsWalk self.now (rows_of_parts w)) }
    {
        let Column::Keyword(keywords) = self.column? else {
            return None;
        };
        // Its contract says that the numbers of the rows rise.
        let _rows = self.segment.len();
        match self.order {
            Order::Added => None,
            Order::Rising(_) => Some(keywords.rising()),
            Order::Falling(_) => Some(keywords.falling()),
        }
    }

    /// All rows in the order of the page, where the sort is by a field and the segment has a column of it.
    pub(crate) fn walk(&self) -> Option<RowParts<'a>>
        ensures { IfSome result (λ w. IsWalk self.now (rows_of_parts w)) }
    {
        match self.number_walk() {
            Some(walk) => Some(walk),
            None => self.keyword_walk(),
        }
    }

    /// The keywords that rank the rows, and in which order, where the sort is by a keyword field.
    pub(crate) fn keywords(&self) -> Option<(&'a KeywordColumn, Order<'a>)>
        ensures { IfSome result (λ k. HaveRanks Key.keyword k.1 k.0.now self.now) }
    {
        let Column::Keyword(keywords) = self.column? else {
            return None;
        };
        Some((keywords.values(), self.order))
    }
}
