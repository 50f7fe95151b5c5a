//! Which commits are kept.
ghost use Rattle.std.specs.Prelude.{◌≡◌};
ghost use Rattle.cat_model.specs.State.{stays_kept};

use crate::Snapshots;
use cat_base::Generation;

/// The policy that keeps the newest commit, and each that has a snapshot. (Lucene: `KeepOnlyLastCommitDeletionPolicy` within a
/// `SnapshotDeletionPolicy`.)
#[derive(Clone, Copy, Drop)]
pub struct KeepLast;

impl KeepLast {
    /// Whether the commit stays, where `newest` is the last one.
    pub fn stays(generation: Generation, newest: Option<Generation>, snapshots: &Snapshots) -> bool
        ensures { result ≡ stays_kept snapshots.now newest generation }
    {
        newest == Some(generation) || snapshots.count(generation) > 0
    }
}
