//! Live sets: which rows of a segment are live.
ghost use Rattle.std.specs.Prelude.{◌≡◌, ◌<◌, ◌^◌, true, false, length, count_by, replicate, slice_set, IfOk};
ghost use Rattle.cat_model.specs.RowSets.{has_row};

use cat_columns::RowSet;
use std::alloc::{AllocError, Global};
use std::marker::Model;

/// Which rows of a segment are live, where the others are deleted (Lucene: the `liveDocs` of a segment). It is kept
/// beside the segment, which never changes; readers of one view share it, and a row that is killed later is killed in
/// a copy.
pub struct Live {
    rows: RowSet,
}

impl Model for Live {
    ghost use Rattle.std.specs.Prelude.{List, Bool};

    ghost Value = { List Bool };

    ghost view = { λ l. l.rows };
}

impl Drop for Live {
    fn drop(self) {
        let Live { rows } = self;
        drop(rows);
    }
}

impl Live {
    /// The live set of a new segment of this many rows, which all are live.
    pub fn all(alloc: Global, rows: usize) -> Result<Self, AllocError>
        requires { rows < 2 ^ 32 }
        ensures ok { IfOk result (λ l. l ≡ replicate rows true) }
    {
        Ok(Live {
            rows: RowSet::all(alloc, rows)?,
        })
    }

    /// The live set of the rows that are in the set.
    pub(crate) fn of(rows: RowSet) -> Self
        ensures { result ≡ rows }
    {
        Live { rows }
    }

    /// How many rows there are, live or not (Lucene: `maxDoc`).
    pub fn len(&self) -> usize
        ensures value { result ≡ length self.now }
        ensures few { length self.now < 2 ^ 32 }
    {
        self.rows.len()
    }

    /// Whether the row is live (Lucene: `Bits.get` of the live documents).
    pub fn is_live(&self, row: usize) -> bool
        requires { row < length self.now }
        ensures { result ≡ has_row self.now row }
    {
        self.rows.contains(row)
    }

    /// Makes the row dead; one that is dead stays so (Lucene: `PendingDeletes.delete`).
    pub fn kill(&mut self, row: usize)
        requires { row < length self.old }
        ensures { self.new ≡ slice_set self.old row false }
    {
        self.rows.remove(row);
    }

    /// How many rows are live (Lucene: `numDocs`).
    pub fn count(&self) -> usize
        ensures { result ≡ count_by (λ b. b) self.now }
    {
        self.rows.count()
    }

    /// The live rows, as a set to be joined with others.
    pub fn rows(&self) -> &RowSet
        ensures { result.now ≡ self.now }
    {
        &self.rows
    }

    /// An equal live set in memory of its own.
    pub fn copy(&self) -> Result<Self, AllocError>
        ensures ok { IfOk result (λ l. l ≡ self.now) }
    {
        Ok(Live {
            rows: self.rows.copy()?,
        })
    }
}

/// Live sets are equal where they are of as many rows, of which the same are live.
impl PartialEq for Live {
    ghost use Rattle.std.specs.Prelude.{◌≡◌, ◌↔◌, IsTrue};
    ghost use Rattle.std.specs.Cmp.{partial_equiv_from_equiv};
    ghost use Rattle.cat_columns.specs.Bits.{same_rows, same_rows_equiv};

    ghost eq = { same_rows };

    ghost laws = { partial_equiv_from_equiv same_rows_equiv };

    fn eq(&self, other: &Live) -> bool
        ensures eq { result ≡ same_rows self.now other.now }
        ensures value { IsTrue result ↔ (self.now ≡ other.now) }
    {
        self.rows == other.rows
    }
}
