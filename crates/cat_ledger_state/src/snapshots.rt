//! Snapshots: rights to kept commits.
//!
//! Lucene's `SnapshotDeletionPolicy`. They are in memory alone, and end with the program.
ghost use Rattle.std.specs.Prelude.{◌≡◌, ◌⊎◌, ◌<◌, ℕ, Some, None, IfOk, IfErr, OnOk, OnErr};
ghost use Rattle.cat_base.specs.declared.refusal.Refusal.TheVariants.{Memory, NoCommit, NoSnapshot, Spent};
ghost use Rattle.cat_model.specs.Limits.{snapshot_limit};
ghost use Rattle.cat_model.specs.State.{snapshots_in};
ghost use Rattle.cat_ledger_laws.specs.shape.Steps.{IsSnapped, IsUnsnapped, newest_generation};

use crate::kept::{files_leaving, keep_staying, newest_of};
use crate::state::Core;
use cat_base::{Generation, Refusal};

impl Core {
    /// Takes a snapshot of the newest commit, and answers which that is (Lucene: `SnapshotDeletionPolicy.snapshot`).
    ///
    /// [`Refusal::NoCommit`] where no commit is kept, [`Refusal::Spent`] where the newest has as many snapshots as may be; else
    /// [`Refusal::Memory`]. An error changes nothing.
    pub fn snapshot(&mut self) -> Result<Generation, Refusal>
        ensures ok { IfOk result (λ g. IsSnapped g self.old self.new) }
        ensures room { IfOk result (λ g. snapshots_in self.old.taken g < snapshot_limit) }
        ensures none { IfErr result (λ e. e ≡ NoCommit → newest_generation self.old.commits ≡ None) }
        ensures spent { IfErr result (λ e. e ≡ Spent
            → (g : ℕ) × (newest_generation self.old.commits ≡ Some g) × (snapshots_in self.old.taken g ≡ snapshot_limit)) }
        ensures due { IfErr result (λ e. e ≡ Memory
            → (g : ℕ) × (newest_generation self.old.commits ≡ Some g) × (snapshots_in self.old.taken g < snapshot_limit)) }
        ensures refusal { IfErr result (λ e. (e ≡ NoCommit) ⊎ (e ≡ Spent) ⊎ (e ≡ Memory)) }
        ensures err { OnErr result (self.new ≡ self.old) }
    {
        let newest = newest_of(&self.commits);
        self.snapshots.snapshot(newest)
    }

    /// Gives a snapshot of the commit back, and answers how many it has left. Where that was the last one, and another commit is
    /// the newest, the commit goes, and its files are pending where nobody else needs them. (Lucene:
    /// `SnapshotDeletionPolicy.release`, with the `IndexWriter.deleteUnusedFiles` that is to follow it.)
    ///
    /// [`Refusal::NoSnapshot`] where it has none; else [`Refusal::Memory`]. An error changes nothing.
    pub fn unsnapshot(&mut self, generation: Generation) -> Result<u32, Refusal>
        ensures ok { OnOk result (IsUnsnapped generation self.old self.new) }
        ensures left { IfOk result (λ left. left ≡ snapshots_in self.new.taken generation) }
        ensures none { IfErr result (λ e. e ≡ NoSnapshot → snapshots_in self.old.taken generation ≡ 0) }
        ensures due { IfErr result (λ e. e ≡ Memory → 0 < snapshots_in self.old.taken generation) }
        ensures refusal { IfErr result (λ e. (e ≡ NoSnapshot) ⊎ (e ≡ Memory)) }
        ensures err { OnErr result (self.new ≡ self.old) }
    {
        if self.snapshots.count(generation) == 0 {
            return Err(Refusal::NoSnapshot);
        }
        let newest = newest_of(&self.commits);
        let released = Some(generation);
        let given = files_leaving(self.alloc, &self.commits, newest, &self.snapshots, released)?;
        let left = self.snapshots.release(generation)?;
        self.refs.give(&given);
        keep_staying(&mut self.commits, newest, &self.snapshots);
        Ok(left)
    }
}
