//! The cursor's calls, each as what the reading of its bytes gives.
ghost use Rattle.std.specs.Prelude.{◌≡◌};
ghost use Rattle.std.specs.Str.{is_utf8};
ghost use Rattle.cat_items.specs.file_parts.Reading.{Finds, byte_at, u32_at, u64_at, string_at, where_at};

use cat_base::{Cursor, Refusal};
use std::str::from_utf8;

/// The bytes begin with nothing that is written so. What takes no memory can fail by it alone.
#[derive(Clone, Copy, Drop)]
pub(crate) struct Unreadable;

impl From<Unreadable> for Refusal {
    ghost use Rattle.cat_base.specs.declared.refusal.Refusal.TheVariants as refusal;

    ghost from_gives = { λ _ e. e ≡ refusal.Damaged };

    fn from(_unreadable: Unreadable) -> Refusal {
        Refusal::Damaged
    }
}

pub(crate) fn take_u8(cursor: &mut Cursor<'_>) -> Result<u8, Unreadable>
    ensures { Finds (λ n. (n, cursor.new)) result (byte_at cursor.old) }
{
    match cursor.take_u8() {
        Ok(found) => Ok(found),
        Err(_) => Err(Unreadable),
    }
}

pub(crate) fn take_u32(cursor: &mut Cursor<'_>) -> Result<u32, Unreadable>
    ensures { Finds (λ n. (n, cursor.new)) result (u32_at cursor.old) }
{
    match cursor.take_u32() {
        Ok(found) => Ok(found),
        Err(_) => Err(Unreadable),
    }
}

pub(crate) fn take_u64(cursor: &mut Cursor<'_>) -> Result<u64, Unreadable>
    ensures { Finds (λ n. (n, cursor.new)) result (u64_at cursor.old) }
{
    match cursor.take_u64() {
        Ok(found) => Ok(found),
        Err(_) => Err(Unreadable),
    }
}

fn take_bytes<'a>(cursor: &mut Cursor<'a>) -> Result<&'a [u8], Unreadable>
    ensures { Finds (λ b. (b.now, cursor.new)) result (string_at cursor.old) }
{
    match cursor.take_bytes() {
        Ok(found) => Ok(found),
        Err(_) => Err(Unreadable),
    }
}

/// The next byte string, where it is the UTF-8 of a text.
#[tactic(auto, unfolding(crate::specs::file_parts::Reading::where_at))]
pub(crate) fn take_str<'a>(cursor: &mut Cursor<'a>) -> Result<&'a str, Unreadable>
    ensures { Finds (λ t. (t.now, cursor.new)) result (where_at is_utf8 string_at cursor.old) }
{
    let bytes = take_bytes(cursor)?;
    match from_utf8(bytes) {
        Ok(text) => Ok(text),
        Err(_) => Err(Unreadable),
    }
}
