//! A segment's file, read whole.
ghost use Rattle.std.specs.Prelude.{◌≡◌, ◌≢◌, ◌⊎◌, ℕ, List, Some, None, IfOk, IfErr, OnOk, OnErr};
ghost use Rattle.cat_base.specs.declared.refusal.Refusal.TheVariants.{Memory, Damaged};
ghost use Rattle.cat_model.specs.Layout.{Layout, IsLayout, spelled_layout};
ghost use Rattle.cat_items.specs.file_parts.Reading.{Finds, Gives, where_at};
ghost use Rattle.cat_items.specs.file_parts.Layouts.{segment_start_at, fields_at, layout_at};
ghost use Rattle.cat_items.specs.file_parts.Parts.{layout_in, IsParts};

use crate::file_parts::columns::read_columns;
use crate::file_parts::cursor::{Unreadable, take_u8, take_u32, take_u64};
use crate::file_parts::fields::{FieldHead, take_fields, take_heads};
use crate::file_parts::heads::read_heads;
use crate::file_parts::parts::SegmentParts;
use crate::file_parts::passing::{pass_columns, pass_heads};
use cat_base::{Cursor, LAST_NUMBER, MAX_ROWS, Refusal, SegNo};
use std::alloc::Global;

/// The first four bytes of a segment's file, `CSEG`.
pub(crate) const MAGIC: u32 = 0x4353_4547;

/// The version of the layout, the fifth byte.
pub(crate) const VERSION: u8 = 1;

#[tactic(auto, unfolding(crate::specs::file_parts::Layouts::segment_start_at, crate::specs::file_parts::Reading::both_at, crate::specs::file_parts::Reading::where_at))]
fn read_start(cursor: &mut Cursor<'_>) -> Result<(SegNo, u32), Unreadable>
    ensures { Finds (λ s. ((s.0, s.1), cursor.new)) result (segment_start_at cursor.old) }
{
    let magic = take_u32(cursor)?;
    let version = take_u8(cursor)?;
    if magic != MAGIC || version != VERSION {
        return Err(Unreadable);
    }
    let number = take_u64(cursor)?;
    if number == 0 || number > LAST_NUMBER {
        return Err(Unreadable);
    }
    let rows = take_u32(cursor)?;
    if rows == 0 || rows as usize > MAX_ROWS {
        return Err(Unreadable);
    }
    Ok((number, rows))
}

// Judges all bytes of a segment's file, and takes no memory.
fn check(cursor: &mut Cursor<'_>) -> Result<(), Unreadable>
    ensures ok { OnOk result ((l : Layout) × (layout_at cursor.old ≡ Some l)) }
    ensures err { OnErr result (layout_at cursor.old ≡ None) }
{
    let start = read_start(cursor)?;
    let fields = take_heads(cursor)?;
    check_rows(&fields, start.1, cursor)
}

// Judges what stands behind the fields, to the end.
fn check_rows(
    fields: &[FieldHead<'_>],
    rows: u32,
    cursor: &mut Cursor<'_>,
) -> Result<(), Unreadable>
    ensures ok { OnOk result ((bytes mid : List ℕ) (number : ℕ) → segment_start_at bytes ≡ Some ((number, rows), mid)
        → fields_at mid ≡ Some (fields.now, cursor.old) → (l : Layout) × (layout_at bytes ≡ Some l)) }
    ensures err { OnErr result ((bytes mid : List ℕ) (number : ℕ) → segment_start_at bytes ≡ Some ((number, rows), mid)
        → fields_at mid ≡ Some (fields.now, cursor.old) → layout_at bytes ≡ None) }
{
    pass_heads(rows, cursor)?;
    pass_columns(fields, rows, cursor)?;
    match cursor.ended() {
        Ok(()) => Ok(()),
        Err(_) => Err(Unreadable),
    }
}

#[tactic(auto, unfolding(crate::specs::file_parts::Layouts::layout_at))]
fn whole(alloc: Global, bytes: &[u8]) -> Result<SegmentParts, Refusal>
    ensures gives { Gives layout_in result (layout_at bytes.now) }
    ensures formed { IfOk result IsParts }
{
    let mut cursor = Cursor::new(bytes);
    let (number, rows) = read_start(&mut cursor)?;
    let schema = take_fields(alloc, &mut cursor)?;
    let heads = read_heads(alloc, rows, &mut cursor)?;
    let columns = read_columns(alloc, schema.fields(), rows, &mut cursor)?;
    cursor.ended()?;
    Ok(SegmentParts {
        number,
        schema,
        numbers: heads.numbers,
        ids: heads.ids,
        lengths: heads.lengths,
        columns,
    })
}

/// All bytes of a segment's file: its start, the fields, the rows and the columns, each text and number in its form and
/// its range. Whether rows and texts rise, are told once and are all used is judged where the parts are taken over.
/// Lucene's `Codec` reads the files of a segment so, by one format a part.
///
/// [`Refusal::Damaged`] where the bytes lay out no segment. Where they do, [`Refusal::Memory`] may come: all bytes are judged
/// before memory is taken. It also stands for 4,294,967,296 rows or more of a column's words, and as many ordinals of a
/// column's rows.
pub fn read_segment(alloc: Global, bytes: &[u8]) -> Result<SegmentParts, Refusal>
    ensures ok { IfOk result (λ p. IsParts p × IsLayout (layout_in p) × (bytes.now ≡ spelled_layout (layout_in p))) }
    ensures damaged { IfErr result (λ e. e ≡ Damaged → (l : Layout) → IsLayout l → bytes.now ≢ spelled_layout l) }
    ensures due { IfErr result (λ e. e ≡ Memory → (l : Layout) × IsLayout l × (bytes.now ≡ spelled_layout l)) }
    ensures refusal { IfErr result (λ e. (e ≡ Damaged) ⊎ (e ≡ Memory)) }
{
    check(&mut Cursor::new(bytes))?;
    let parts = whole(alloc, bytes)?;
    Ok(parts)
}

/// The law that makes a layout's bytes exact: what is laid out alike is one.
pub fn layouts_are_told_by_their_bytes()
    ensures { (a b : Layout) → IsLayout a → IsLayout b → spelled_layout a ≡ spelled_layout b → a ≡ b }
{}
