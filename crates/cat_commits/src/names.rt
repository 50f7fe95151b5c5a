//! The files that a commit needs.
ghost use Rattle.std.specs.Prelude.{◌≡◌, ◌++◌, map, OnOk};
ghost use Rattle.cat_model.specs.CommitFile as model;
ghost use Rattle.cat_directory.specs.Names.{name_of};

use crate::commit::{Commit, ListedSegment};
use cat_directory::FileName;
use std::alloc::AllocError;

/// Appends the names of a segment: its rows, their sources, and its live file, if it has one.
fn push_names(names: &mut Vec<FileName>, segment: &ListedSegment) -> Result<(), AllocError>
    ensures { OnOk result (map name_of names.new.items ≡ map name_of names.old.items ++ model.listed_names segment.now) }
{
    let number = segment.number();
    names.push(FileName::Segment(number))?;
    names.push(FileName::Source(number))?;
    if let Some(generation) = segment.live_file() {
        names.push(FileName::Live(number, generation))?;
    }
    Ok(())
}

impl Commit {
    ghost use Rattle.std.specs.Prelude.{◌≡◌, map, IfOk};
    ghost use Rattle.cat_model.specs.CommitFile as model;
    ghost use Rattle.cat_directory.specs.Names.{name_of};

    /// The names of the files that it needs: its own, and those of its segments (Lucene: `IndexCommit.getFileNames`).
    pub fn names(&self) -> Result<Vec<FileName>, AllocError>
        ensures { IfOk result (λ names. map name_of names.items ≡ model.commit_needs self.now) }
    {
        let mut names = Vec::new(*self.segments.allocator());
        names.push(FileName::Commit(self.generation))?;
        for segment in &self.segments {
            push_names(&mut names, segment)?;
        }
        Ok(names)
    }
}
