//! The commits of a directory, by the names of its files.
ghost use Rattle.std.specs.Prelude.{IfOk, MatchOption};
ghost use Rattle.cat_check.specs.Below.{AreBelow, IsNextBelow, HasNoneBelow};

use cat_base::Generation;
use cat_directory::FileName;
use std::alloc::{AllocError, Global};

/// The commit before the one of the generation, if there is one: the newest of those below it.
pub fn commit_below(names: &[FileName], bound: Generation) -> Option<Generation>
    ensures { MatchOption result (HasNoneBelow names.now bound) (IsNextBelow names.now bound) }
{
    let mut newest = None;
    for name in names {
        if let FileName::Commit(generation) = *name
            && generation < bound
        {
            newest = match newest {
                Some(other) if generation <= other => Some(other),
                _ => Some(generation),
            };
        }
    }
    newest
}

/// The commits that are below the one of the generation, the newest first.
pub(crate) fn commits_below(
    alloc: Global,
    names: &[FileName],
    bound: Generation,
) -> Result<Vec<Generation>, AllocError>
    ensures { IfOk result (λ v. AreBelow names.now bound v.items) }
{
    let mut generations = Vec::new(alloc);
    for name in names {
        if let FileName::Commit(generation) = *name
            && generation < bound
        {
            generations.push(generation)?;
        }
    }
    generations.sort_unstable();
    generations.reverse();
    Ok(generations)
}
