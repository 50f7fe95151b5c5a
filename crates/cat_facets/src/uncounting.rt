//! Rows that are taken out of counts again.
ghost use Rattle.std.specs.Prelude.{◌≡◌, ℕ, ◌+◌, ◌<◌, ◌≤◌, length, slice_index, All};
ghost use Rattle.cat_model.specs.Ordinals.{dictionary_of, text_at};
ghost use Rattle.cat_model.specs.View.{selected};
ghost use Rattle.cat_model.specs.GlobalOrdinals.{IsOrdinalMap};
ghost use Rattle.cat_facets.specs.Tallies.{globals_of, label_count, labelled_count, occurrences};

use cat_columns::{Dictionary, RowSet, SetColumn};

/// Takes a row out of the counts at the global ordinals of its ordinals.
fn take_row(totals: &mut [usize], globals: &[u32], ordinals: &[u32])
    requires within { All (λ o. o < length globals.now) ordinals.now }
    requires globals { All (λ g. g < length totals.old) globals.now }
    requires counted { (g : ℕ) → g < length totals.old → occurrences g (globals_of globals.now ordinals.now) ≤ slice_index totals.old g }
    ensures { (g : ℕ) → g < length totals.old
        → slice_index totals.old g ≡ slice_index totals.new g + occurrences g (globals_of globals.now ordinals.now) }
{
    for ordinal in ordinals {
        let global = globals[*ordinal as usize] as usize;
        totals[global] -= 1;
    }
}

/// Takes the rows of the set, which were counted, out of the counts, and answers how many of them have a label.
pub(crate) fn take_rows(
    totals: &mut [usize],
    labels: &Dictionary,
    globals: &[u32],
    column: &SetColumn,
    rows: &RowSet,
) -> usize
    requires rows { length rows.now ≡ length column.now }
    requires long { length totals.old ≡ length labels.now }
    requires map { IsOrdinalMap labels.now (dictionary_of column.now) globals.now }
    requires counted { (g : ℕ) → g < length labels.now
        → label_count (text_at labels.now g) (selected rows.now column.now) ≤ slice_index totals.old g }
    ensures labelled { result ≡ labelled_count (selected rows.now column.now) }
    ensures counts { (g : ℕ) → g < length labels.now → slice_index totals.old g
        ≡ slice_index totals.new g + label_count (text_at labels.now g) (selected rows.now column.now) }
{
    prove!(column.len() == rows.len());
    prove!(labels.as_slice().len() == totals.len());
    let mut labelled = 0;
    for row in rows.iter() {
        let ordinals = column.ordinals(row);
        labelled += usize::from(!ordinals.is_empty());
        take_row(totals, globals, ordinals);
    }
    labelled
}
