//! The rows and columns of a segment's file, passed over: each part is judged as when it is read, and no memory is taken.
ghost use Rattle.std.specs.Prelude.{ℕ};
ghost use Rattle.cat_model.specs.Item as model;
ghost use Rattle.cat_items.specs.Kinds.{field_kind_of};
ghost use Rattle.cat_items.specs.file_parts.Reading.{Passes, u32_at, many_at, tested_text_at};
ghost use Rattle.cat_items.specs.file_parts.Layouts.{fits, list_at, posted_at, cell_at, column_at, columns_at, head_at};

use crate::Kind;
use crate::file_parts::columns::take_cell;
use crate::file_parts::cursor::{Unreadable, take_u32};
use crate::file_parts::fields::FieldHead;
use crate::file_parts::heads::take_head;
use crate::file_parts::lists::{Form, take_text};
use cat_base::Cursor;

fn pass_texts(form: Form, count: u32, cursor: &mut Cursor<'_>) -> Result<(), Unreadable>
    ensures { Passes cursor.new result (many_at (tested_text_at (fits form)) count cursor.old) }
{
    for _ in 0..count {
        take_text(form, cursor)?;
    }
    Ok(())
}

fn pass_numbers(count: u32, cursor: &mut Cursor<'_>) -> Result<(), Unreadable>
    ensures { Passes cursor.new result (many_at u32_at count cursor.old) }
{
    for _ in 0..count {
        take_u32(cursor)?;
    }
    Ok(())
}

fn pass_list(cursor: &mut Cursor<'_>) -> Result<(), Unreadable>
    ensures { Passes cursor.new result (list_at cursor.old) }
{
    let count = take_u32(cursor)?;
    pass_numbers(count, cursor)
}

fn pass_lists(count: u32, cursor: &mut Cursor<'_>) -> Result<(), Unreadable>
    ensures { Passes cursor.new result (many_at list_at count cursor.old) }
{
    for _ in 0..count {
        pass_list(cursor)?;
    }
    Ok(())
}

fn pass_posted(cursor: &mut Cursor<'_>) -> Result<(), Unreadable>
    ensures { Passes cursor.new result (posted_at cursor.old) }
{
    take_text(Form::Word, cursor)?;
    pass_list(cursor)
}

fn pass_postings(count: u32, cursor: &mut Cursor<'_>) -> Result<(), Unreadable>
    ensures { Passes cursor.new result (many_at posted_at count cursor.old) }
{
    for _ in 0..count {
        pass_posted(cursor)?;
    }
    Ok(())
}

fn pass_cells(count: u32, cursor: &mut Cursor<'_>) -> Result<(), Unreadable>
    ensures { Passes cursor.new result (many_at cell_at count cursor.old) }
{
    for _ in 0..count {
        take_cell(cursor)?;
    }
    Ok(())
}

fn pass_words(cursor: &mut Cursor<'_>) -> Result<(), Unreadable>
    ensures { (rows : ℕ) → Passes cursor.new result (column_at model.Kind.text rows cursor.old) }
{
    let count = take_u32(cursor)?;
    pass_postings(count, cursor)
}

fn pass_keywords(rows: u32, cursor: &mut Cursor<'_>) -> Result<(), Unreadable>
    ensures { Passes cursor.new result (column_at model.Kind.keyword rows cursor.old) }
{
    let count = take_u32(cursor)?;
    pass_texts(Form::Keyword, count, cursor)?;
    pass_numbers(rows, cursor)
}

fn pass_integers(rows: u32, cursor: &mut Cursor<'_>) -> Result<(), Unreadable>
    ensures { Passes cursor.new result (column_at model.Kind.number rows cursor.old) }
{
    pass_cells(rows, cursor)
}

fn pass_labels(rows: u32, cursor: &mut Cursor<'_>) -> Result<(), Unreadable>
    ensures { Passes cursor.new result (column_at model.Kind.facet rows cursor.old) }
{
    let count = take_u32(cursor)?;
    pass_texts(Form::Label, count, cursor)?;
    pass_lists(rows, cursor)
}

fn pass_column(kind: Kind, rows: u32, cursor: &mut Cursor<'_>) -> Result<(), Unreadable>
    ensures { Passes cursor.new result (column_at (field_kind_of kind) rows cursor.old) }
{
    match kind {
        Kind::Text => pass_words(cursor),
        Kind::Keyword => pass_keywords(rows, cursor),
        Kind::Number => pass_integers(rows, cursor),
        Kind::Facet => pass_labels(rows, cursor),
    }
}

/// Passes over a column of each of the fields.
pub(crate) fn pass_columns(
    fields: &[FieldHead<'_>],
    rows: u32,
    cursor: &mut Cursor<'_>,
) -> Result<(), Unreadable>
    ensures { Passes cursor.new result (columns_at rows fields.now cursor.old) }
{
    for field in fields {
        pass_column(field.kind(), rows, cursor)?;
    }
    Ok(())
}

/// Passes over the heads of so many rows.
pub(crate) fn pass_heads(count: u32, cursor: &mut Cursor<'_>) -> Result<(), Unreadable>
    ensures { Passes cursor.new result (many_at head_at count cursor.old) }
{
    for _ in 0..count {
        take_head(cursor)?;
    }
    Ok(())
}
