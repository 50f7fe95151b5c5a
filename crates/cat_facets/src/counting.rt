//! Rows that are counted, each at the global ordinals of its labels.
ghost use Rattle.std.specs.Prelude.{◌≡◌, ℕ, ◌+◌, ◌<◌, length, slice_index, IfOk, OnOk, All};
ghost use Rattle.cat_model.specs.Ordinals.{dictionary_of, text_at};
ghost use Rattle.cat_model.specs.View.{selected};
ghost use Rattle.cat_model.specs.GlobalOrdinals.{IsOrdinalMap};
ghost use Rattle.cat_facets.specs.Tallies.{globals_of, label_count, labelled_count, occurrences};

use cat_columns::inverted::Terms;
use cat_columns::{Dictionary, RowSet, SetColumn};
use std::alloc::AllocError;

/// Counts a row at the global ordinals of its ordinals. What a `usize` can't count doesn't fit in memory either.
fn add_row(totals: &mut [usize], globals: &[u32], ordinals: &[u32]) -> Result<(), AllocError>
    requires within { All (λ o. o < length globals.now) ordinals.now }
    requires globals { All (λ g. g < length totals.old) globals.now }
    ensures ok { OnOk result ((g : ℕ) → g < length totals.old
        → slice_index totals.new g ≡ slice_index totals.old g + occurrences g (globals_of globals.now ordinals.now)) }
{
    for ordinal in ordinals {
        let global = globals[*ordinal as usize] as usize;
        match totals[global].checked_add(1) {
            Some(total) => totals[global] = total,
            None => return Err(AllocError),
        }
    }
    Ok(())
}

/// Counts the rows of the set, and answers how many of them have a label (Lucene:
/// `SortedSetDocValuesFacetCounts.countOneSegment`, as it maps each ordinal to its global one).
pub(crate) fn add_rows(
    totals: &mut [usize],
    labels: &Dictionary,
    globals: &[u32],
    column: &SetColumn,
    rows: &RowSet,
) -> Result<usize, AllocError>
    requires rows { length rows.now ≡ length column.now }
    requires long { length totals.old ≡ length labels.now }
    requires map { IsOrdinalMap labels.now (dictionary_of column.now) globals.now }
    ensures labelled { IfOk result (λ n. n ≡ labelled_count (selected rows.now column.now)) }
    ensures counts { OnOk result ((g : ℕ) → g < length labels.now → slice_index totals.new g
        ≡ slice_index totals.old g + label_count (text_at labels.now g) (selected rows.now column.now)) }
{
    prove!(column.len() == rows.len());
    prove!(labels.as_slice().len() == totals.len());
    let mut labelled = 0;
    for row in rows.iter() {
        let ordinals = column.ordinals(row);
        labelled += usize::from(!ordinals.is_empty());
        add_row(totals, globals, ordinals)?;
    }
    Ok(labelled)
}

/// Counts all rows of a segment, by how many rows each label has, and looks at no row.
pub(crate) fn add_all(
    totals: &mut [usize],
    labels: &Dictionary,
    globals: &[u32],
    terms: &Terms,
) -> Result<(), AllocError>
    requires long { length totals.old ≡ length labels.now }
    requires map { IsOrdinalMap labels.now (dictionary_of terms.now) globals.now }
    ensures counts { OnOk result ((g : ℕ) → g < length labels.now
        → slice_index totals.new g ≡ slice_index totals.old g + label_count (text_at labels.now g) terms.now) }
{
    prove!(labels.as_slice().len() == totals.len());
    for (ordinal, global) in globals.iter().enumerate() {
        let global = *global as usize;
        match totals[global].checked_add(terms.postings_at(ordinal).len()) {
            Some(total) => totals[global] = total,
            None => return Err(AllocError),
        }
    }
    Ok(())
}
