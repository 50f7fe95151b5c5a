//! The columns of a segment, read.
ghost use Rattle.std.specs.Prelude.{◌≡◌, ◌^◌, ◌<◌, length, map, IfOk, All};
ghost use Rattle.cat_model.specs.Layout.{AreEnds, pieces, paired_postings};
ghost use Rattle.cat_items.specs.Kinds.{field_kind_of};
ghost use Rattle.cat_items.specs.file_parts.Reading.{Finds, Gives, many_at};
ghost use Rattle.cat_items.specs.file_parts.Layouts.{list_at, posted_at, cell_at, column_at, columns_at};
ghost use Rattle.cat_items.specs.file_parts.Parts.{column_in, IsColumnParts};

use crate::file_parts::cursor::{Unreadable, take_u8, take_u32, take_u64};
use crate::file_parts::lists::{Form, read_list, read_numbers, read_text, read_texts};
use crate::file_parts::parts::ColumnParts;
use crate::{Field, Kind};
use cat_base::{Cursor, Refusal, Text};
use std::alloc::{AllocError, Global};

// The words of a column, where the rows of each end, and the rows.
#[derive(Drop)]
struct Postings {
    words: Vec<Text>,
    ends: Vec<u32>,
    rows: Vec<u32>,
}

// The ordinals of rows, and where those of each row end.
#[derive(Drop)]
struct RowOrdinals {
    ends: Vec<u32>,
    ordinals: Vec<u32>,
}

/// The next cell of a column of numbers.
#[tactic(auto, unfolding(crate::specs::file_parts::Layouts::cell_at))]
pub(crate) fn take_cell(cursor: &mut Cursor<'_>) -> Result<Option<i64>, Unreadable>
    ensures { Finds (λ z. (z, cursor.new)) result (cell_at cursor.old) }
{
    match take_u8(cursor)? {
        0 => Ok(None),
        1 => {
            let bits = take_u64(cursor)?;
            Ok(Some(bits.cast_signed()))
        }
        _ => Err(Unreadable),
    }
}

fn read_cells(
    alloc: Global,
    count: u32,
    cursor: &mut Cursor<'_>,
) -> Result<Vec<Option<i64>>, Refusal>
    ensures { Gives (λ v. (v.items, cursor.new)) result (many_at cell_at count cursor.old) }
{
    let mut out = Vec::new(alloc);
    for _ in 0..count {
        let one = take_cell(cursor)?;
        out.push(one)?;
    }
    Ok(out)
}

// Where the list ends, in 32 bits; a longer list is refused as if memory were.
fn end_of(list: &[u32]) -> Result<u32, AllocError>
    ensures { IfOk result (λ n. n ≡ length list.now) }
{
    match u32::try_from(list.len()) {
        Ok(end) => Ok(end),
        Err(_) => Err(AllocError),
    }
}

fn read_postings(alloc: Global, count: u32, cursor: &mut Cursor<'_>) -> Result<Postings, Refusal>
    ensures gives { Gives (λ p. (paired_postings p.words.items (pieces 0 p.ends.items p.rows.items), cursor.new))
        result (many_at posted_at count cursor.old) }
    ensures even { IfOk result (λ p. length p.ends.items ≡ length p.words.items) }
    ensures ends { IfOk result (λ p. AreEnds 0 p.ends.items (length p.rows.items)) }
    ensures few { IfOk result (λ p. length p.rows.items < 2 ^ 32) }
{
    let mut words = Vec::new(alloc);
    let mut ends = Vec::new(alloc);
    let mut rows = Vec::new(alloc);
    for _ in 0..count {
        let word = read_text(alloc, Form::Word, cursor)?;
        read_list(cursor, &mut rows)?;
        let end = end_of(&rows)?;
        words.push(word)?;
        ends.push(end)?;
    }
    Ok(Postings { words, ends, rows })
}

fn read_ordinals(alloc: Global, count: u32, cursor: &mut Cursor<'_>) -> Result<RowOrdinals, Refusal>
    ensures gives { Gives (λ o. (pieces 0 o.ends.items o.ordinals.items, cursor.new)) result (many_at list_at count cursor.old) }
    ensures ends { IfOk result (λ o. AreEnds 0 o.ends.items (length o.ordinals.items)) }
    ensures few { IfOk result (λ o. length o.ordinals.items < 2 ^ 32) }
{
    let mut ends = Vec::new(alloc);
    let mut ordinals = Vec::new(alloc);
    for _ in 0..count {
        read_list(cursor, &mut ordinals)?;
        let end = end_of(&ordinals)?;
        ends.push(end)?;
    }
    Ok(RowOrdinals { ends, ordinals })
}

#[tactic(auto, unfolding(crate::specs::file_parts::Layouts::column_at, crate::specs::file_parts::Reading::both_at))]
fn read_column(
    alloc: Global,
    kind: Kind,
    rows: u32,
    cursor: &mut Cursor<'_>,
) -> Result<ColumnParts, Refusal>
    ensures gives { Gives (λ c. (column_in c, cursor.new)) result (column_at (field_kind_of kind) rows cursor.old) }
    ensures formed { IfOk result IsColumnParts }
{
    match kind {
        Kind::Text => {
            let count = take_u32(cursor)?;
            let postings = read_postings(alloc, count, cursor)?;
            Ok(ColumnParts::Text(postings.words, postings.ends, postings.rows))
        }
        Kind::Keyword => {
            let count = take_u32(cursor)?;
            let dictionary = read_texts(alloc, Form::Keyword, count, cursor)?;
            let codes = read_numbers(alloc, rows, cursor)?;
            Ok(ColumnParts::Keyword(dictionary, codes))
        }
        Kind::Number => {
            let numbers = read_cells(alloc, rows, cursor)?;
            Ok(ColumnParts::Number(numbers))
        }
        Kind::Facet => {
            let count = take_u32(cursor)?;
            let dictionary = read_texts(alloc, Form::Label, count, cursor)?;
            let ordinals = read_ordinals(alloc, rows, cursor)?;
            Ok(ColumnParts::Facet(dictionary, ordinals.ends, ordinals.ordinals))
        }
    }
}

pub(crate) fn read_columns(
    alloc: Global,
    fields: &[Field],
    rows: u32,
    cursor: &mut Cursor<'_>,
) -> Result<Vec<ColumnParts>, Refusal>
    ensures gives { Gives (λ v. (map column_in v.items, cursor.new)) result (columns_at rows fields.now cursor.old) }
    ensures formed { IfOk result (λ v. All IsColumnParts v.items) }
{
    let mut out = Vec::new(alloc);
    for field in fields {
        let one = read_column(alloc, field.kind(), rows, cursor)?;
        out.push(one)?;
    }
    Ok(out)
}
