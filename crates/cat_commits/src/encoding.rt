//! The bytes of a commit's file.
ghost use Rattle.std.specs.Prelude.{◌≡◌, ◌++◌, OnOk};
ghost use Rattle.std.specs.List.{flat_map};
ghost use Rattle.cat_model.specs.CommitFile.{spelled_listed};

use crate::commit::{Commit, ListedSegment};
use crate::start::MAGIC;
use cat_base::{put_bytes, put_u32, put_u64};
use cat_items::file_parts::put_fields;
use std::alloc::AllocError;

/// Appends a segment: its number, and the commit that wrote its live rows, or 0.
fn put_segment(out: &mut Vec<u8>, segment: &ListedSegment) -> Result<(), AllocError>
    ensures { OnOk result (out.new.items ≡ out.old.items ++ spelled_listed segment.now) }
{
    put_u64(out, segment.number())?;
    put_u64(out, segment.file())?;
    Ok(())
}

/// Appends each of the segments.
fn put_segments(out: &mut Vec<u8>, segments: &[ListedSegment]) -> Result<(), AllocError>
    ensures { OnOk result (out.new.items ≡ out.old.items ++ flat_map spelled_listed segments.now) }
{
    for segment in segments {
        put_segment(out, segment)?;
    }
    Ok(())
}

impl Commit {
    ghost use Rattle.std.specs.Prelude.{◌≡◌, IfOk};
    ghost use Rattle.cat_model.specs.CommitFile as model;

    /// The bytes of its file (Lucene: `SegmentInfos.write`). It asks for a commit of the second version, with what a file can
    /// say: numbers from 1, at most 65,536 segments whose numbers differ, and so on.
    pub fn encode(&self) -> Result<Vec<u8>, AllocError>
        requires form { model.IsCommitFile self.now }
        requires second { self.now.version ≡ model.Version.second }
        ensures { IfOk result (λ bytes. model.SpellsCommit bytes.items self.now) }
    {
        let mut out = Vec::new(*self.segments.allocator());
        put_u32(&mut out, MAGIC)?;
        out.push(2)?;
        put_u64(&mut out, self.generation)?;
        put_u64(&mut out, self.token)?;
        put_u64(&mut out, self.next_segment)?;
        put_bytes(&mut out, self.text.as_str().as_bytes())?;
        put_fields(&mut out, &self.schema)?;
        put_u32(&mut out, self.segments.len() as u32)?;
        put_segments(&mut out, &self.segments)?;
        Ok(out)
    }
}
