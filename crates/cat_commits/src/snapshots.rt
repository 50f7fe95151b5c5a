//! Snapshots: rights to commits.
ghost use Rattle.std.specs.Prelude.{◌≡◌, ◌⊎◌, ◌+◌, ◌-◌, ◌==◌, ◌<◌, ◌≤◌, ℕ, [], cond, Some, None, OnErr, IfOk, IfErr};
ghost use Rattle.cat_base.specs.declared.refusal.Refusal.TheVariants.{Memory, NoCommit, NoSnapshot, Spent};
ghost use Rattle.cat_model.specs.State.{snapshots_in};
ghost use Rattle.cat_model.specs.Limits.{snapshot_limit};

use cat_base::{Generation, MAX_SNAPSHOTS, Refusal};
use std::alloc::Global;
use std::collections::HashMap;
use std::marker::Model;

/// How many snapshots of each commit are not given back. They are in memory alone, and end with the program. (Lucene:
/// `SnapshotDeletionPolicy`.)
///
/// Contracts see it as the list of the commits that have some, each with how many.
pub struct Snapshots {
    counts: HashMap<Generation, u32>,
}

impl Model for Snapshots {
    ghost use Rattle.std.specs.Prelude.{List, map};
    ghost use Rattle.cat_model.specs.State.{Taken};
    ghost use Rattle.cat_commits.specs.Counts.{taken_in, FitLimit};

    ghost Value = { List Taken };

    ghost view = { λ s. map taken_in s.counts.entries };

    ghost invariant = { λ s. FitLimit s.counts };
}

impl Drop for Snapshots {
    fn drop(self) {
        let Snapshots { counts } = self;
        drop(counts);
    }
}

impl Snapshots {
    /// Where no commit has a snapshot. It takes no memory until it grows.
    pub fn new(alloc: Global) -> Self
        ensures { result ≡ [] }
    {
        Snapshots {
            counts: HashMap::new(alloc),
        }
    }

    /// How many snapshots of the commit are not given back.
    pub fn count(&self, generation: Generation) -> u32
        ensures count { result ≡ snapshots_in self.now generation }
        ensures few { result ≤ snapshot_limit }
    {
        self.counts.get(&generation).copied().unwrap_or(0)
    }

    /// Takes a snapshot of the newest commit, and answers which that is. (Lucene: `SnapshotDeletionPolicy.snapshot`.)
    ///
    /// [`Refusal::NoCommit`] where there is no commit, [`Refusal::Spent`] where it has 65,535 snapshots; else
    /// [`Refusal::Memory`] where memory is refused. A refusal changes nothing.
    pub fn snapshot(&mut self, newest: Option<Generation>) -> Result<Generation, Refusal>
        ensures ok { IfOk result (λ g. (newest ≡ Some g) × (snapshots_in self.old g < snapshot_limit)
            × ((h : ℕ) → snapshots_in self.new h ≡ snapshots_in self.old h + cond (h == g) 1 0)) }
        ensures none { IfErr result (λ e. e ≡ NoCommit → newest ≡ None) }
        ensures spent { IfErr result (λ e. e ≡ Spent → (g : ℕ) × (newest ≡ Some g) × (snapshots_in self.old g ≡ snapshot_limit)) }
        ensures due { IfErr result (λ e. e ≡ Memory → (g : ℕ) × (newest ≡ Some g) × (snapshots_in self.old g < snapshot_limit)) }
        ensures refusal { IfErr result (λ e. (e ≡ NoCommit) ⊎ (e ≡ Spent) ⊎ (e ≡ Memory)) }
        ensures err { OnErr result (self.new ≡ self.old) }
    {
        let generation = newest.ok_or(Refusal::NoCommit)?;
        let count = self.count(generation);
        if count >= MAX_SNAPSHOTS {
            return Err(Refusal::Spent);
        }
        self.counts.insert(generation, count + 1)?;
        Ok(generation)
    }

    /// Gives a snapshot of the commit back, and answers how many are left. (Lucene: `SnapshotDeletionPolicy.release`.)
    ///
    /// [`Refusal::NoSnapshot`] where it has none, which changes nothing.
    pub fn release(&mut self, generation: Generation) -> Result<u32, Refusal>
        ensures ok { IfOk result (λ left. (snapshots_in self.old generation ≡ left + 1)
            × ((h : ℕ) → snapshots_in self.new h ≡ snapshots_in self.old h - cond (h == generation) 1 0)) }
        ensures none { IfErr result (λ e. (e ≡ NoSnapshot) × (snapshots_in self.old generation ≡ 0)) }
        ensures err { OnErr result (self.new ≡ self.old) }
    {
        let Some(count) = self.counts.get_mut(&generation) else {
            return Err(Refusal::NoSnapshot);
        };
        *count -= 1;
        let left = *count;
        if left == 0 {
            self.counts.remove(&generation);
        }
        Ok(left)
    }
}
