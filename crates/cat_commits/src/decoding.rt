//! A commit, of the bytes of its file.
ghost use Rattle.std.specs.Prelude.{◌≡◌, ◌⊎◌, Some, None, option_map, IfOk, IfErr, IfSome, IfNone};
ghost use Rattle.cat_base.specs.declared.refusal.Refusal.TheVariants.{Damaged, Memory};
ghost use Rattle.cat_model.specs.CommitFile as model;
ghost use Rattle.cat_items.specs.file_parts.Layouts.{fields_at};
ghost use Rattle.cat_items.specs.file_parts.Reading.{rest_of, u32_at, where_at};
ghost use Rattle.cat_commits.specs.Layouts.{commit_at, is_count};
ghost use Rattle.cat_commits.specs.Judged.{TellsCommit};

use crate::commit::Commit;
use crate::cursor::take_u32;
use crate::listing::{SEGMENT_BYTES, numbers_differ, pass_segments, segments};
use crate::start::{Start, take_start};
use cat_base::{Cursor, MAX_SEGMENTS, Refusal, Text};
use cat_items::Schema;
use cat_items::file_parts::read_fields;
use std::alloc::{AllocError, Global};

/// What a file says that is a commit's but for the numbers of its segments, which may not differ: its start; its fields, where
/// there was memory for them; and the bytes of its segments.
#[derive(Drop)]
pub(crate) struct Judged<'a> {
    pub(crate) start: Start<'a>,
    pub(crate) schema: Result<Schema, AllocError>,
    pub(crate) listing: &'a [u8],
}

/// Takes the fields. Where memory is refused they are passed over.
fn take_fields(alloc: Global, cursor: &mut Cursor<'_>) -> Option<Result<Schema, AllocError>>
    ensures rest { option_map (λ schema. cursor.new) result ≡ rest_of (fields_at cursor.old) }
    ensures fields { IfSome result (λ schema. IfOk schema (λ s. fields_at cursor.old ≡ Some (s, cursor.new))) }
{
    match read_fields(alloc, cursor) {
        Ok(schema) => Some(Ok(schema)),
        Err(refusal) => match refusal {
            Refusal::Memory => Some(Err(AllocError)),
            _ => None,
        },
    }
}

/// How many segments there are.
#[tactic(auto, unfolding(cat_items::specs::file_parts::Reading::where_at))]
fn take_count(cursor: &mut Cursor<'_>) -> Option<u32>
    ensures { option_map (λ n. (n, cursor.new)) result ≡ where_at is_count u32_at cursor.old }
{
    take_u32(cursor).filter(|count| *count as usize <= MAX_SEGMENTS)
}

/// Judges all but whether the numbers of the segments differ, and takes no memory but that of the fields.
fn judge<'a>(alloc: Global, bytes: &'a [u8]) -> Option<Judged<'a>>
    ensures some { IfSome result (λ j. (c : model.CommitFile) × (commit_at bytes.now ≡ Some c) × TellsCommit j c) }
    ensures none { IfNone result (commit_at bytes.now ≡ None) }
{
    let mut cursor = Cursor::new(bytes);
    let start = take_start(&mut cursor)?;
    let schema = take_fields(alloc, &mut cursor)?;
    let count = take_count(&mut cursor)?;
    pass_segments(count, start.generation, start.next, &mut cursor)?;
    cursor.ended().ok()?;
    let listing = &bytes[bytes.len() - SEGMENT_BYTES * count as usize..];
    Some(Judged {
        start,
        schema,
        listing,
    })
}

/// The commit that was judged.
fn assembled(alloc: Global, judged: Judged<'_>) -> Result<Commit, AllocError>
    ensures { IfOk result (λ c. (told : model.CommitFile) → model.IsCommitFile told → TellsCommit judged.entry told → c ≡ told) }
{
    let Judged {
        start,
        schema,
        listing,
    } = judged;
    Ok(Commit {
        version: start.version,
        generation: start.generation,
        token: start.token,
        next_segment: start.next,
        text: Text::from_str(alloc, start.text)?,
        schema: schema?,
        segments: segments(alloc, listing)?,
    })
}

impl Commit {
    ghost use Rattle.std.specs.Prelude.{◌≡◌, ◌⊎◌, IfOk, IfErr};
    ghost use Rattle.cat_base.specs.declared.refusal.Refusal.TheVariants.{Damaged, Memory};
    ghost use Rattle.cat_model.specs.CommitFile.{CommitFile, SpellsCommit};

    /// The commit whose file has these bytes (Lucene: `SegmentInfos.readCommit`).
    ///
    /// [`Refusal::Damaged`] exactly where no commit is written as these bytes: each is written in one way. All of them are
    /// judged before memory is taken for what they say, and a count among them never reserves more than they could hold.
    /// Else [`Refusal::Memory`], where memory is refused.
    pub fn decode(alloc: Global, bytes: &[u8]) -> Result<Self, Refusal>
        ensures ok { IfOk result (SpellsCommit bytes.now) }
        ensures damaged { IfErr result (λ e. e ≡ Damaged → (c : CommitFile) → SpellsCommit bytes.now c → ⊥) }
        ensures due { IfErr result (λ e. e ≡ Memory → (c : CommitFile) × SpellsCommit bytes.now c) }
        ensures refusal { IfErr result (λ e. (e ≡ Damaged) ⊎ (e ≡ Memory)) }
    {
        let Some(judged) = judge(alloc, bytes) else {
            return Err(Refusal::Damaged);
        };
        if !numbers_differ(alloc, judged.listing) {
            return Err(Refusal::Damaged);
        }
        Ok(assembled(alloc, judged)?)
    }
}
