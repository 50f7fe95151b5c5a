//! The columns of a segment: what its rows have in one field, with the terms of that field.
ghost use Rattle.std.specs.Prelude.{◌≡◌, ◌<◌, None, map, IfOk};
ghost use Rattle.cat_model.specs.Ordinals.{texts_of};
ghost use Rattle.cat_model.specs.Text.{text_cmp};
ghost use Rattle.cat_segment.specs.Orders.{IsOrderBy, turned};
ghost use Rattle.cat_segment.specs.RowParts.{rows_of_parts};
ghost use Rattle.cat_segment.specs.Valued.{rows_with};

use crate::inverting::{terms_of_keywords, terms_of_labels};
use crate::missing_rows::missing_rows;
use crate::numbers::Numbers;
use crate::row_parts::RowParts;
use cat_columns::inverted::Terms;
use cat_columns::{KeywordColumn, SetColumn};
use std::alloc::{AllocError, Global};
use std::marker::Model;

/// What each row has in a keyword field, the rows of each text, and those without a text (Lucene: the field's
/// `SortedDocValues`, and its `Terms`).
pub struct Keywords {
    values: KeywordColumn,
    terms: Terms,
    missing: Vec<u32>,
}

impl Model for Keywords {
    ghost use Rattle.std.specs.Prelude.{◌≡◌, List, Option, None, ℕ, map};
    ghost use Rattle.cat_model.specs.Ordinals.{texts_of};
    ghost use Rattle.cat_segment.specs.Valued.{rows_with};

    ghost Value = { List (Option (List ℕ)) };

    ghost view = { λ k. k.values };

    ghost invariant = { λ k. (k.terms ≡ map texts_of k.values) × (k.missing.items ≡ rows_with k.values None) };
}

impl Drop for Keywords {
    fn drop(self) {
        let Keywords {
            values,
            terms,
            missing,
        } = self;
        drop(values);
        drop(terms);
        drop(missing);
    }
}

impl Keywords {
    /// The column of the rows' values, and the rows of each of their texts. Each text is hashed and sorted once, and kept
    /// once.
    pub(crate) fn joined(alloc: Global, values: KeywordColumn) -> Result<Keywords, AllocError>
        ensures ok { IfOk result (λ k. k ≡ values) }
    {
        let terms = terms_of_keywords(alloc, &values)?;
        let missing = missing_rows(alloc, &values)?;
        Ok(Keywords {
            values,
            terms,
            missing,
        })
    }

    /// The text of each row.
    pub fn values(&self) -> &KeywordColumn
        ensures { result.now ≡ self.now }
    {
        &self.values
    }

    /// The rows of each text.
    pub fn terms(&self) -> &Terms
        ensures { result.now ≡ map texts_of self.now }
    {
        &self.terms
    }

    /// The rows without a text, rising.
    pub fn missing(&self) -> &[u32]
        ensures { result.now ≡ rows_with self.now None }
    {
        &self.missing
    }

    /// All rows in parts, the least text first. A row without a text stands last, and of rows that tie the lower one stands
    /// first.
    pub fn rising(&self) -> RowParts<'_>
        ensures { IsOrderBy text_cmp self.now (rows_of_parts result) }
    {
        RowParts::Rising(self)
    }

    /// All rows in parts, the greatest text first. A row without a text stands last here too, and of rows that tie the lower
    /// one stands first.
    pub fn falling(&self) -> RowParts<'_>
        ensures { IsOrderBy (turned text_cmp) self.now (rows_of_parts result) }
    {
        RowParts::Falling(self)
    }
}

/// What each row has in a facet field, and the rows of each label (Lucene: the field's `SortedSetDocValues`, and its
/// `Terms`).
pub struct Labels {
    labels: SetColumn,
    terms: Terms,
}

impl Model for Labels {
    ghost use Rattle.std.specs.Prelude.{◌≡◌, List, ℕ};

    ghost Value = { List (List (List ℕ)) };

    ghost view = { λ l. l.labels };

    ghost invariant = { λ l. l.terms ≡ l.labels };
}

impl Drop for Labels {
    fn drop(self) {
        let Labels { labels, terms } = self;
        drop(labels);
        drop(terms);
    }
}

impl Labels {
    /// The column of these labels, and the rows of each of them. Each label is hashed and sorted once, and kept once.
    pub(crate) fn joined(alloc: Global, labels: SetColumn) -> Result<Labels, AllocError>
        ensures ok { IfOk result (λ l. l ≡ labels) }
    {
        let terms = terms_of_labels(alloc, &labels)?;
        Ok(Labels { labels, terms })
    }

    /// The labels of each row.
    pub fn labels(&self) -> &SetColumn
        ensures { result.now ≡ self.now }
    {
        &self.labels
    }

    /// The rows of each label.
    pub fn terms(&self) -> &Terms
        ensures { result.now ≡ self.now }
    {
        &self.terms
    }
}

/// What the rows of a segment have in one field, by the field's kind.
pub enum Column {
    /// The words of each row, as the rows of each word: a text field is searched, and never sorted by or counted.
    Text(Terms),
    /// The text of each row of a keyword field.
    Keyword(Keywords),
    /// The integer of each row of a number field (Lucene: `NumericDocValues`).
    Number(Numbers),
    /// The labels of each row of a facet field.
    Facet(Labels),
}

impl Drop for Column {
    fn drop(self) {
        match self {
            Column::Text(it) => drop(it),
            Column::Keyword(it) => drop(it),
            Column::Number(it) => drop(it),
            Column::Facet(it) => drop(it),
        }
    }
}
