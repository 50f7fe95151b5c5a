//! How the file of a commit begins: what stands there before the fields.
ghost use Rattle.std.specs.Prelude.{◌≡◌, option_map};
ghost use Rattle.cat_commits.specs.Versions.{version_of};
ghost use Rattle.cat_commits.specs.Layouts.{start_in, version_at, text_for, start_at};

use crate::commit::Version;
use crate::cursor::{take_str, take_u8, take_u32, take_u64};
use crate::text::commit_text_ok;
use cat_base::{Cursor, Generation, LAST_NUMBER, SegNo, Token, is_file_number};

/// The first four bytes of the file, `CSGM`.
pub(crate) const MAGIC: u32 = 0x4353_474d;

/// What stands before the fields, the text borrowed from the file's bytes.
#[derive(Drop)]
pub(crate) struct Start<'a> {
    pub(crate) version: Version,
    pub(crate) generation: Generation,
    pub(crate) token: Token,
    pub(crate) next: SegNo,
    pub(crate) text: &'a str,
}

/// The magic word, and the version.
#[tactic(auto, unfolding(crate::specs::Layouts::version_at))]
fn take_version(cursor: &mut Cursor<'_>) -> Option<Version>
    ensures { option_map (λ v. (version_of v, cursor.new)) result ≡ version_at cursor.old }
{
    let magic = take_u32(cursor)?;
    let version = take_u8(cursor)?;
    match version {
        1 if magic == MAGIC => Some(Version::First),
        2 if magic == MAGIC => Some(Version::Second),
        _ => None,
    }
}

/// The text, which the first version doesn't have.
#[tactic(auto, unfolding(crate::specs::Layouts::text_for, cat_items::specs::file_parts::Reading::where_at))]
fn take_text<'a>(version: Version, cursor: &mut Cursor<'a>) -> Option<&'a str>
    ensures { option_map (λ t. (t.now, cursor.new)) result ≡ text_for (version_of version) cursor.old }
{
    match version {
        Version::First => Some(""),
        Version::Second => take_str(cursor).filter(|text| commit_text_ok(text)),
    }
}

/// All that stands before the fields.
#[tactic(auto, unfolding(crate::specs::Layouts::start_at, cat_items::specs::file_parts::Reading::where_at))]
pub(crate) fn take_start<'a>(cursor: &mut Cursor<'a>) -> Option<Start<'a>>
    ensures { option_map (λ s. (start_in s, cursor.new)) result ≡ start_at cursor.old }
{
    let version = take_version(cursor)?;
    let generation = take_u64(cursor)?;
    if !is_file_number(generation) {
        return None;
    }
    let token = take_u64(cursor)?;
    if token > LAST_NUMBER {
        return None;
    }
    let next = take_u64(cursor)?;
    if next == 0 || next > LAST_NUMBER + 1 {
        return None;
    }
    let text = take_text(version, cursor)?;
    Some(Start {
        version,
        generation,
        token,
        next,
        text,
    })
}
