//! The cursor's calls, each as what the reading of its bytes gives: a value, or nothing where the bytes don't begin with one.
ghost use Rattle.std.specs.Prelude.{◌≡◌, option_map};
ghost use Rattle.std.specs.Str.{is_utf8};
ghost use Rattle.cat_items.specs.file_parts.Reading.{byte_at, u32_at, u64_at, string_at, where_at};

use cat_base::Cursor;
use std::str::from_utf8;

pub(crate) fn take_u8(cursor: &mut Cursor<'_>) -> Option<u8>
    ensures { option_map (λ n. (n, cursor.new)) result ≡ byte_at cursor.old }
{
    match cursor.take_u8() {
        Ok(found) => Some(found),
        Err(_) => None,
    }
}

pub(crate) fn take_u32(cursor: &mut Cursor<'_>) -> Option<u32>
    ensures { option_map (λ n. (n, cursor.new)) result ≡ u32_at cursor.old }
{
    match cursor.take_u32() {
        Ok(found) => Some(found),
        Err(_) => None,
    }
}

pub(crate) fn take_u64(cursor: &mut Cursor<'_>) -> Option<u64>
    ensures { option_map (λ n. (n, cursor.new)) result ≡ u64_at cursor.old }
{
    match cursor.take_u64() {
        Ok(found) => Some(found),
        Err(_) => None,
    }
}

fn take_bytes<'a>(cursor: &mut Cursor<'a>) -> Option<&'a [u8]>
    ensures { option_map (λ b. (b.now, cursor.new)) result ≡ string_at cursor.old }
{
    match cursor.take_bytes() {
        Ok(found) => Some(found),
        Err(_) => None,
    }
}

/// The next byte string, where it is the UTF-8 of a text.
#[tactic(auto, unfolding(cat_items::specs::file_parts::Reading::where_at))]
pub(crate) fn take_str<'a>(cursor: &mut Cursor<'a>) -> Option<&'a str>
    ensures { option_map (λ t. (t.now, cursor.new)) result ≡ where_at is_utf8 string_at cursor.old }
{
    let bytes = take_bytes(cursor)?;
    match from_utf8(bytes) {
        Ok(text) => Some(text),
        Err(_) => None,
    }
}
