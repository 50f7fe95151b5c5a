//! The laws of drafts.
ghost use Rattle.cat_commits.specs.writing.Laws.{DraftsWriteCommits, NeededAreSynced};

/// A draft of the commit of now that is written is what a commit writes.
pub fn drafts_write_commits()
    ensures { DraftsWriteCommits }
{}

/// Each file that a draft's commit needs is its own, synced before that, or needed by the commit before.
pub fn needed_are_synced()
    ensures { NeededAreSynced }
{}
