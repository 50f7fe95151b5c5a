//! What is asked of the kept commits, which changes nothing and takes no memory.
//!
//! Lucene's `DirectoryReader.listCommits`.
ghost use Rattle.std.specs.Prelude.{◌≡◌, ◌==◌, find, option_map};

use crate::kept::commit_under;
use crate::state::Core;
use cat_base::Generation;
use cat_commits::Commit;

impl Core {
    /// The commit of the generation, if it is kept: its text, and the names of the files that it needs (Lucene: an `IndexCommit`
    /// with its `getUserData` and `getFileNames`).
    pub fn commit_at(&self, generation: Generation) -> Option<&Commit>
        ensures { option_map (λ c. c.now) result ≡ find (λ c. c.generation == generation) self.now.commits }
    {
        commit_under(&self.commits, generation)
    }
}
