//! Texts of the forms, and lists of texts and of numbers, read.
ghost use Rattle.std.specs.Prelude.{◌≡◌};
ghost use Rattle.cat_items.specs.file_parts.Reading.{Finds, Gives, u32_at, many_at, tested_text_at, with_front};
ghost use Rattle.cat_items.specs.file_parts.Layouts.{fits, list_at};

use crate::file_parts::cursor::{Unreadable, take_str, take_u32};
use crate::{id_ok, keyword_ok, label_ok, word_ok};
use cat_base::{Cursor, Refusal, Text};
use std::alloc::Global;

/// What a text in a file has to be.
#[derive(Clone, Copy)]
pub(crate) enum Form {
    Id,
    Word,
    Keyword,
    Label,
}

impl Form {
    /// Whether the text has the form.
    fn fits(self, text: &str) -> bool
        ensures { result ≡ fits self text.now }
    {
        match self {
            Form::Id => id_ok(text),
            Form::Word => word_ok(text),
            Form::Keyword => keyword_ok(text),
            Form::Label => label_ok(text),
        }
    }
}

/// The next byte string, where it is a text of the form.
#[tactic(auto, unfolding(crate::specs::file_parts::Reading::where_at))]
pub(crate) fn take_text<'a>(form: Form, cursor: &mut Cursor<'a>) -> Result<&'a str, Unreadable>
    ensures { Finds (λ t. (t.now, cursor.new)) result (tested_text_at (fits form) cursor.old) }
{
    let text = take_str(cursor)?;
    if !form.fits(text) {
        return Err(Unreadable);
    }
    Ok(text)
}

pub(crate) fn read_text(alloc: Global, form: Form, cursor: &mut Cursor<'_>) -> Result<Text, Refusal>
    ensures { Gives (λ t. (t, cursor.new)) result (tested_text_at (fits form) cursor.old) }
{
    let text = take_text(form, cursor)?;
    Ok(Text::from_str(alloc, text)?)
}

pub(crate) fn read_texts(
    alloc: Global,
    form: Form,
    count: u32,
    cursor: &mut Cursor<'_>,
) -> Result<Vec<Text>, Refusal>
    ensures { Gives (λ v. (v.items, cursor.new)) result (many_at (tested_text_at (fits form)) count cursor.old) }
{
    let mut out = Vec::new(alloc);
    for _ in 0..count {
        let one = read_text(alloc, form, cursor)?;
        out.push(one)?;
    }
    Ok(out)
}

// So many numbers, behind those that stand in the list.
fn read_onto(count: u32, cursor: &mut Cursor<'_>, out: &mut Vec<u32>) -> Result<(), Refusal>
    ensures { Gives (λ done. (out.new.items, cursor.new)) result (with_front out.old.items (many_at u32_at count cursor.old)) }
{
    for _ in 0..count {
        let one = take_u32(cursor)?;
        out.push(one)?;
    }
    Ok(())
}

pub(crate) fn read_numbers(
    alloc: Global,
    count: u32,
    cursor: &mut Cursor<'_>,
) -> Result<Vec<u32>, Refusal>
    ensures { Gives (λ v. (v.items, cursor.new)) result (many_at u32_at count cursor.old) }
{
    let mut out = Vec::new(alloc);
    read_onto(count, cursor, &mut out)?;
    Ok(out)
}

// A list of numbers, behind those that stand in the other.
pub(crate) fn read_list(cursor: &mut Cursor<'_>, out: &mut Vec<u32>) -> Result<(), Refusal>
    ensures { Gives (λ done. (out.new.items, cursor.new)) result (with_front out.old.items (list_at cursor.old)) }
{
    let count = take_u32(cursor)?;
    read_onto(count, cursor, out)?;
    Ok(())
}
