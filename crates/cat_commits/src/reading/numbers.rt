//! What the names of a directory's files say by themselves.
ghost use Rattle.std.specs.Prelude.{◌↔◌, ◌≤◌, ◌^◌, ℕ, Contains, MatchOption};
ghost use Rattle.cat_directory.specs.Names.{name_of};
ghost use Rattle.cat_ledger_laws.specs.model.Ledger.{IsPast};
ghost use Rattle.cat_model.specs.Files.{IsFileName};
ghost use Rattle.cat_commits.specs.reading.Numbers.{AreNext, IsNewest};

use cat_base::{Generation, SegNo};
use cat_directory::FileName;

/// The newest commit of a directory with these names, if there is one. (Lucene: `SegmentInfos.getLastCommitGeneration`.)
pub fn newest_commit(names: &[FileName]) -> Option<Generation>
    ensures { MatchOption result ((g : ℕ) → Contains names.now (FileName.Commit g) → ⊥) (IsNewest names.now) }
{
    let mut newest = None;
    for name in names {
        if let FileName::Commit(generation) = *name {
            newest = match newest {
                Some(earlier) if generation <= earlier => Some(earlier),
                _ => Some(generation),
            };
        }
    }
    newest
}

/// The least numbers of a segment and of a commit, from 1 on, that are above those of the name.
fn past(name: FileName) -> (SegNo, Generation)
    requires { IsFileName (name_of name) }
    ensures least { (m h : ℕ) → 1 ≤ m → 1 ≤ h → (IsPast m h (name_of name) ↔ ((result.0 ≤ m) × (result.1 ≤ h))) }
    ensures some { (1 ≤ result.0) × (1 ≤ result.1) }
    ensures fit { (result.0 ≤ 2 ^ 63) × (result.1 ≤ 2 ^ 63) }
{
    match name {
        FileName::Segment(number) | FileName::Source(number) => (number + 1, 1),
        FileName::Live(number, generation) => (number + 1, generation + 1),
        FileName::Commit(generation) => (1, generation + 1),
    }
}

/// The numbers of the next segment and of the next commit in a directory with these names, which files can have: the least
/// from 1 on that are above those of each name. (Lucene: `IndexFileDeleter.inflateGens`.)
pub fn next_numbers(names: &[FileName]) -> (SegNo, Generation)
    requires { (q : FileName) → Contains names.now q → IsFileName (name_of q) }
    ensures next { AreNext names.now result.0 result.1 }
    ensures fit { (result.0 ≤ 2 ^ 63) × (result.1 ≤ 2 ^ 63) }
{
    let mut segment = 1;
    let mut generation = 1;
    for name in names {
        let least = past(*name);
        segment = least.0.max(segment);
        generation = least.1.max(generation);
    }
    (segment, generation)
}
