//! What a segment's file says of the rows beside their columns, read.
ghost use Rattle.std.specs.Prelude.{◌≡◌, length, IfOk};
ghost use Rattle.cat_items.specs.file_parts.Reading.{Finds, Gives, many_at};
ghost use Rattle.cat_items.specs.file_parts.Layouts.{head_at};
ghost use Rattle.cat_items.specs.file_parts.Parts.{heads_in};

use crate::file_parts::cursor::{Unreadable, take_u32, take_u64};
use crate::file_parts::lists::{Form, take_text};
use cat_base::{Cursor, MAX_ITEM_BYTES, Refusal, Text, WriteNo};
use std::alloc::Global;

/// What a file says of a row, its id borrowed from the file's bytes.
#[derive(Drop)]
pub(crate) struct RowHead<'a> {
    number: WriteNo,
    id: &'a str,
    length: u32,
}

/// The heads of the rows, part by part.
#[derive(Drop)]
pub(crate) struct Heads {
    pub(crate) numbers: Vec<WriteNo>,
    pub(crate) ids: Vec<Text>,
    pub(crate) lengths: Vec<u32>,
}

/// The next row's head.
#[tactic(auto, unfolding(crate::specs::file_parts::Layouts::head_at, crate::specs::file_parts::Reading::where_at))]
pub(crate) fn take_head<'a>(cursor: &mut Cursor<'a>) -> Result<RowHead<'a>, Unreadable>
    ensures { Finds (λ h. (record { number = h.number; id = h.id.now; length = h.length }, cursor.new)) result (head_at cursor.old) }
{
    let number = take_u64(cursor)?;
    if number == 0 {
        return Err(Unreadable);
    }
    let id = take_text(Form::Id, cursor)?;
    let length = take_u32(cursor)?;
    if length == 0 || length as usize > MAX_ITEM_BYTES {
        return Err(Unreadable);
    }
    Ok(RowHead { number, id, length })
}

pub(crate) fn read_heads(
    alloc: Global,
    count: u32,
    cursor: &mut Cursor<'_>,
) -> Result<Heads, Refusal>
    ensures gives { Gives (λ h. (heads_in h.numbers.items h.ids.items h.lengths.items, cursor.new)) result (many_at head_at count cursor.old) }
    ensures ids { IfOk result (λ h. length h.ids.items ≡ length h.numbers.items) }
    ensures lengths { IfOk result (λ h. length h.lengths.items ≡ length h.numbers.items) }
{
    let mut numbers = Vec::new(alloc);
    let mut ids = Vec::new(alloc);
    let mut lengths = Vec::new(alloc);
    for _ in 0..count {
        let one = take_head(cursor)?;
        let id = Text::from_str(alloc, one.id)?;
        numbers.push(one.number)?;
        ids.push(id)?;
        lengths.push(one.length)?;
    }
    Ok(Heads {
        numbers,
        ids,
        lengths,
    })
}
