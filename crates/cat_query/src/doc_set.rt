//! The rows of a segment that a query matches.
ghost use Rattle.std.specs.Prelude.{◌≡◌};

use cat_columns::RowSet;
use std::marker::Model;

/// The rows of one segment that a query matches, deleted rows too: Lucene's `DocIdSet`, as `LRUQueryCache` keeps it for
/// a segment.
///
/// Contracts see it as one truth value for each row.
pub struct DocSet {
    rows: RowSet,
}

impl Model for DocSet {
    ghost use Rattle.std.specs.Prelude.{List, Bool};

    ghost Value = { List Bool };

    ghost view = { λ s. s.rows };
}

impl Drop for DocSet {
    fn drop(self) {
        let DocSet { rows } = self;
        drop(rows);
    }
}

impl DocSet {
    /// The set of these rows.
    pub(crate) fn of(rows: RowSet) -> Self
        ensures { result ≡ rows }
    {
        DocSet { rows }
    }

    /// The rows that match, as a set of rows to join with others.
    pub fn rows(&self) -> &RowSet
        ensures { result.now ≡ self.now }
    {
        &self.rows
    }

    /// The rows that match, as a set of rows that is taken over.
    pub fn into_rows(self) -> RowSet
        ensures { result ≡ self }
    {
        let DocSet { rows } = self;
        rows
    }
}
