//! A segment, of its parts.
ghost use Rattle.std.specs.Prelude.{◌≡◌, ◌≢◌, ◌↔◌, ◌⊎◌, ◌≤◌, ◌<◌, length, All, IfOk, IfErr, IfSome, IsTrue};
ghost use Rattle.std.specs.List.{AllPairs};
ghost use Rattle.cat_base.specs.declared.refusal.Refusal.TheVariants.{Damaged, Memory};
ghost use Rattle.cat_items.specs.file_parts.Parts.{layout_in, IsParts};
ghost use Rattle.cat_model.specs.Layout.{layout_of, IsLayout};
ghost use Rattle.cat_model.specs.Limits.{row_limit, source_limit};
ghost use Rattle.cat_model.specs.View.{IsSegment};
ghost use Rattle.cat_segment.specs.Index.{AreAllRows};
ghost use Rattle.cat_segment.specs.Parts.{IsFit, HasNoSegment};

use crate::column::Column;
use crate::column_parts::{columns_from, have_few_labels};
use crate::ids::Ids;
use crate::segment::Segment;
use crate::sources::Sources;
use cat_base::{Refusal, WriteNo};
use cat_items::file_parts::SegmentParts;
use std::alloc::{AllocError, Global};

/// Whether each number lies below the next.
fn rise(numbers: &[WriteNo]) -> bool
    ensures { IsTrue result ↔ AllPairs (λ a b. a < b) numbers.now }
{
    numbers.is_sorted_by(|number, next| number < next)
}

/// What is judged before any memory is taken: whether the numbers of the rows rise, and no row has more labels than it may.
fn are_fit(parts: &SegmentParts) -> bool
    requires { IsParts parts.now }
    ensures { IsTrue result ↔ IsFit parts.now }
{
    rise(&parts.numbers) && have_few_labels(&parts.columns)
}

/// The texts of these lengths, one behind another.
fn sources_from(alloc: Global, lengths: &[u32]) -> Result<Sources, AllocError>
    requires few { length lengths.now ≤ row_limit }
    requires short { All (λ n. n ≤ source_limit) lengths.now }
    ensures ok { IfOk result (λ s. s ≡ lengths.now) }
{
    let mut sources = Sources::with_capacity(alloc, lengths.len())?;
    for len in lengths {
        sources.push(*len)?;
    }
    Ok(sources)
}

/// The one of two refusals that is told: damage before want of memory.
fn told(refusal: Refusal, other: Refusal) -> Refusal
    ensures some { (result ≡ refusal) ⊎ (result ≡ other) }
    ensures due { result ≢ Damaged → (refusal ≢ Damaged) × (other ≢ Damaged) }
{
    match other {
        Refusal::Damaged => Refusal::Damaged,
        _ => refusal,
    }
}

/// Both, where there are both; else the refusal of some, and that of damage first.
fn both(
    ids: Result<Ids, Refusal>,
    columns: Result<Vec<Column>, Refusal>,
) -> Result<(Ids, Vec<Column>), Refusal>
    ensures ok { IfOk result (λ p. (ids ≡ Ok p.0) × (columns ≡ Ok p.1)) }
    ensures refusal { IfErr result (λ e. (ids ≡ Err e) ⊎ (columns ≡ Err e)) }
    ensures due { IfErr result (λ e. e ≢ Damaged → (ids ≢ Err Damaged) × (columns ≢ Err Damaged)) }
{
    match ids {
        Ok(ids) => Ok((ids, columns?)),
        Err(refusal) => match columns {
            Ok(_) => Err(refusal),
            Err(other) => Err(told(refusal, other)),
        },
    }
}

/// The segment that is laid out as the parts, as a file is read or a merge makes it, without a look at items (Lucene: what
/// `SegmentMerger` writes, read by a `SegmentReader`). Each text is kept once.
///
/// [`Refusal::Damaged`] exactly where no segment is laid out so: the numbers of the rows don't rise, two rows have one id, a
/// row has more labels than it may, or a column isn't one. [`Refusal::Memory`] where memory is refused, and never where the
/// parts are damaged.
pub fn assemble(alloc: Global, parts: SegmentParts) -> Result<Segment, Refusal>
    requires parts { IsParts parts }
    requires layout { IsLayout (layout_in parts) }
    ensures ok { IfOk result (λ s. IsSegment s × (layout_of s ≡ layout_in parts)) }
    ensures damaged { IfErr result (λ e. e ≡ Damaged → HasNoSegment parts) }
    ensures due { IfErr result (λ e. e ≡ Memory → HasNoSegment parts → ⊥) }
    ensures refusal { IfErr result (λ e. (e ≡ Damaged) ⊎ (e ≡ Memory)) }
{
    assembled(alloc, parts, None, Vec::new(alloc))
}

/// What [`assemble`] answers, where all rows are given in an order in which long runs of them have rising ids, as those of
/// merged segments have behind one another ([`Segment::rows_by_id`]): the index of the ids is merged of these runs, and not
/// sorted anew. So are the orders of the number fields, for which in turn all rows are given in an order in which long runs of
/// them have rising numbers ([`Numbers::rising`](crate::Numbers::rising)); where there are fewer orders, the rest is sorted.
pub fn assemble_runs(
    alloc: Global,
    parts: SegmentParts,
    runs: Vec<u32>,
    orders: Vec<Vec<u32>>,
) -> Result<Segment, Refusal>
    requires parts { IsParts parts }
    requires layout { IsLayout (layout_in parts) }
    requires runs { AreAllRows (length parts.ids.items) runs.items }
    requires orders { All (λ order. AreAllRows (length parts.ids.items) order.items) orders.items }
    ensures ok { IfOk result (λ s. IsSegment s × (layout_of s ≡ layout_in parts)) }
    ensures damaged { IfErr result (λ e. e ≡ Damaged → HasNoSegment parts) }
    ensures due { IfErr result (λ e. e ≡ Memory → HasNoSegment parts → ⊥) }
    ensures refusal { IfErr result (λ e. (e ≡ Damaged) ⊎ (e ≡ Memory)) }
{
    assembled(alloc, parts, Some(runs), orders)
}

fn assembled(
    alloc: Global,
    parts: SegmentParts,
    runs: Option<Vec<u32>>,
    orders: Vec<Vec<u32>>,
) -> Result<Segment, Refusal>
    requires parts { IsParts parts }
    requires layout { IsLayout (layout_in parts) }
    requires runs { IfSome runs (λ rows. AreAllRows (length parts.ids.items) rows.items) }
    requires orders { All (λ order. AreAllRows (length parts.ids.items) order.items) orders.items }
    ensures ok { IfOk result (λ s. IsSegment s × (layout_of s ≡ layout_in parts)) }
    ensures damaged { IfErr result (λ e. e ≡ Damaged → HasNoSegment parts) }
    ensures due { IfErr result (λ e. e ≡ Memory → HasNoSegment parts → ⊥) }
    ensures refusal { IfErr result (λ e. (e ≡ Damaged) ⊎ (e ≡ Memory)) }
{
    if !are_fit(&parts) {
        return Err(Refusal::Damaged);
    }
    let SegmentParts {
        number,
        schema,
        numbers,
        ids,
        lengths,
        columns,
    } = parts;
    // Both are judged also where memory is wanting for one.
    let columns = columns_from(alloc, numbers.len(), columns, orders);
    let (ids, columns) = both(Ids::distinct_of(alloc, ids, runs), columns)?;
    let sources = sources_from(alloc, &lengths)?;
    Ok(Segment::joined(number, schema, numbers, ids, sources, columns))
}
