//! The ids of the rows of a segment, and the index by which the row of an id is found.
ghost use Rattle.std.specs.Prelude.{◌≡◌, ◌≢◌, ◌↔◌, ◌⊎◌, ◌<◌, ◌^◌, length, All, IfOk, IfErr, IfSome, IsTrue, MatchOption, false};
ghost use Rattle.std.specs.List.{AllPairs, HoldsAt, range_with_len};
ghost use Rattle.cat_base.specs.declared.refusal.Refusal.TheVariants.{Damaged, Memory};
ghost use Rattle.std.specs.List.Sorted.{IsSortedByKey};
ghost use Rattle.cat_model.specs.Ordinals.{text_at};
ghost use Rattle.cat_model.specs.Text.{text_cmp};
ghost use Rattle.cat_segment.specs.Filter.{id_hash, IsFilter};
ghost use Rattle.cat_segment.specs.Index.{AreAllRows, IsIndex};

use crate::filter::{filter_of, may_have};
use cat_base::{Refusal, Text};
use cat_columns::RowSet;
use std::alloc::{AllocError, Global};
use std::marker::Model;

/// The id of each row of a segment, found by binary search (Lucene: the terms of a primary key's field, each with its one
/// document).
///
/// Contracts see it as the list of the rows' ids.
pub(crate) struct Ids {
    ids: Vec<Text>,
    // The rows in byte order of their ids.
    by_id: Vec<u32>,
    // Which hashes the ids have, by a few bits.
    filter: RowSet,
}

impl Model for Ids {
    ghost use Rattle.std.specs.Prelude.{List};
    ghost use Rattle.cat_model.specs.Text.{Text};
    ghost use Rattle.cat_segment.specs.Filter.{IsFilter};
    ghost use Rattle.cat_segment.specs.Index.{IsIndex};

    ghost Value = { List Text };

    ghost view = { λ i. i.ids.items };

    ghost invariant = { λ i. IsIndex i.ids.items i.by_id.items × IsFilter i.ids.items i.filter };
}

impl Drop for Ids {
    fn drop(self) {
        let Ids { ids, by_id, filter } = self;
        drop(ids);
        drop(by_id);
        drop(filter);
    }
}

/// The id of the row, and the empty text where there is no such row.
fn id_at(ids: &[Text], row: u32) -> &str
    ensures { result.now ≡ text_at ids.now row }
{
    match ids.get(row as usize) {
        Some(id) => id.as_str(),
        None => "",
    }
}

/// The rows from 0 on.
pub(crate) fn all_rows(alloc: Global, len: u32) -> Result<Vec<u32>, AllocError>
    ensures ok { IfOk result (λ v. v.items ≡ range_with_len 0 len) }
{
    let mut rows = Vec::with_capacity(alloc, len as usize)?;
    for row in 0..len {
        rows.push(row)?;
    }
    Ok(rows)
}

/// All rows in byte order of their ids.
fn sorted_rows(alloc: Global, ids: &[Text]) -> Result<Vec<u32>, AllocError>
    requires { length ids.now < 2 ^ 32 }
    ensures ok { IfOk result (λ v. IsIndex ids.now v.items) }
{
    let mut rows = all_rows(alloc, ids.len() as u32)?;
    rows.sort_unstable_by(|a, b| id_at(ids, *a).cmp(id_at(ids, *b)));
    Ok(rows)
}

/// These rows, which are all, in byte order of their ids. The sort merges the runs that stand so already.
fn merged_rows(ids: &[Text], mut rows: Vec<u32>) -> Result<Vec<u32>, AllocError>
    requires { AreAllRows (length ids.now) rows.items }
    ensures ok { IfOk result (λ v. IsIndex ids.now v.items) }
{
    rows.sort_by(|a, b| id_at(ids, *a).cmp(id_at(ids, *b)))?;
    Ok(rows)
}

/// The rows in byte order of their ids, out of all rows in runs that stand so, where these are given.
fn rows_by_id(alloc: Global, ids: &[Text], runs: Option<Vec<u32>>) -> Result<Vec<u32>, AllocError>
    requires few { length ids.now < 2 ^ 32 }
    requires runs { IfSome runs (λ rows. AreAllRows (length ids.now) rows.items) }
    ensures ok { IfOk result (λ v. IsIndex ids.now v.items) }
{
    match runs {
        Some(rows) => merged_rows(ids, rows),
        None => sorted_rows(alloc, ids),
    }
}

/// The rows in byte order of their ids, as [`rows_by_id`] gives them, and the filter of the ids.
fn indexed(
    alloc: Global,
    ids: &[Text],
    runs: Option<Vec<u32>>,
) -> Result<(Vec<u32>, RowSet), AllocError>
    requires few { length ids.now < 2 ^ 32 }
    requires runs { IfSome runs (λ rows. AreAllRows (length ids.now) rows.items) }
    ensures index { IfOk result (λ v. IsIndex ids.now v.0.items) }
    ensures filter { IfOk result (λ v. IsFilter ids.now v.1) }
{
    let by_id = rows_by_id(alloc, ids, runs)?;
    Ok((by_id, filter_of(alloc, ids)?))
}

/// What is told where no memory is left for the index of the ids: damage where two rows have one, else want of memory. It
/// takes no memory.
fn without_index(mut ids: Vec<Text>) -> Refusal
    ensures damaged { result ≡ Damaged → AllPairs (λ a b. a ≢ b) ids.items → ⊥ }
    ensures due { result ≡ Memory → AllPairs (λ a b. a ≢ b) ids.items }
    ensures refusal { (result ≡ Damaged) ⊎ (result ≡ Memory) }
{
    ids.sort_unstable();
    if ids.is_sorted_by(|id, next| id.as_str() < next.as_str()) {
        Refusal::Memory
    } else {
        Refusal::Damaged
    }
}

impl Ids {
    /// The ids of the rows, in the rows' order.
    pub(crate) fn of(alloc: Global, ids: Vec<Text>) -> Result<Ids, AllocError>
        requires { length ids.items < 2 ^ 32 }
        ensures ok { IfOk result (λ i. i ≡ ids.items) }
    {
        let (by_id, filter) = indexed(alloc, &ids, None)?;
        Ok(Ids { ids, by_id, filter })
    }

    /// The ids of the rows, in the rows' order, where no two rows have one id; [`Refusal::Damaged`] where two have, also
    /// where memory is wanting, and else [`Refusal::Memory`]. Where all rows are given in runs with rising ids, the index is
    /// merged of these.
    pub(crate) fn distinct_of(
        alloc: Global,
        ids: Vec<Text>,
        runs: Option<Vec<u32>>,
    ) -> Result<Ids, Refusal>
        requires few { length ids.items < 2 ^ 32 }
        requires runs { IfSome runs (λ rows. AreAllRows (length ids.items) rows.items) }
        ensures ok { IfOk result (λ i. (i ≡ ids.items) × AllPairs (λ a b. a ≢ b) i) }
        ensures damaged { IfErr result (λ e. e ≡ Damaged → AllPairs (λ a b. a ≢ b) ids.items → ⊥) }
        ensures due { IfErr result (λ e. e ≡ Memory → AllPairs (λ a b. a ≢ b) ids.items) }
        ensures refusal { IfErr result (λ e. (e ≡ Damaged) ⊎ (e ≡ Memory)) }
    {
        match indexed(alloc, &ids, runs) {
            Ok((by_id, filter)) => Ids { ids, by_id, filter }.distinct(),
            Err(_) => Err(without_index(ids)),
        }
    }

    /// The id of the row, as it is kept.
    pub(crate) fn text(&self, row: usize) -> &Text
        requires { row < length self.now }
        ensures { result.now ≡ text_at self.now row }
    {
        &self.ids[row]
    }

    /// The id of the row.
    pub(crate) fn id(&self, row: usize) -> &str
        requires { row < length self.now }
        ensures { result.now ≡ text_at self.now row }
    {
        self.ids[row].as_str()
    }

    /// All rows in byte order of their ids.
    pub(crate) fn rows(&self) -> &[u32]
        ensures rows { AreAllRows (length self.now) result.now }
        ensures rising { IsSortedByKey (text_at self.now) text_cmp result.now }
    {
        &self.by_id
    }

    /// The row of the id, if there is one (Lucene: `TermsEnum.seekExact`).
    pub(crate) fn row_of(&self, id: &str) -> Option<usize>
        ensures lookup { MatchOption result (All (λ i. i ≢ id.now) self.now) (λ row. HoldsAt (λ i. i ≡ id.now) self.now row) }
        ensures bound { IfSome result (λ row. row < length self.now) }
    {
        match self
            .by_id
            .binary_search_by(|row| id_at(&self.ids, *row).cmp(id))
        {
            Ok(rank) => Some(self.by_id[rank] as usize),
            Err(_) => None,
        }
    }

    /// Whether a row may have an id of this hash; where none may, none has.
    pub(crate) fn may_have(&self, hash: u64) -> bool
        ensures { result ≡ false → All (λ i. id_hash i ≢ hash) self.now }
    {
        may_have(&self.filter, hash)
    }

    /// Whether no two rows have one id: neighbours in the ids' order would.
    pub(crate) fn differ(&self) -> bool
        ensures { IsTrue result ↔ AllPairs (λ a b. a ≢ b) self.now }
    {
        self.by_id
            .is_sorted_by(|a, b| id_at(&self.ids, *a) < id_at(&self.ids, *b))
    }

    /// These ids, where no two rows have one id, else [`Refusal::Damaged`]. It takes no memory.
    pub(crate) fn distinct(self) -> Result<Ids, Refusal>
        ensures ok { IfOk result (λ i. (i ≡ self) × AllPairs (λ a b. a ≢ b) i) }
        ensures err { IfErr result (λ e. (e ≡ Damaged) × (AllPairs (λ a b. a ≢ b) self → ⊥)) }
    {
        if !self.differ() {
            return Err(Refusal::Damaged);
        }
        Ok(self)
    }
}
