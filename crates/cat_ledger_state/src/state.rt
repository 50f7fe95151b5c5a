//! What memory has of a ledger, and what always holds of it.

use cat_base::{Generation, SegNo, WriteNo};
use cat_commits::writing::Listing;
use cat_commits::{Commit, Snapshots};
use cat_lifetimes::records::Records;
use cat_lifetimes::refs::FileRefs;
use cat_live_table::Schema;
use cat_live_table::buffer::Buffer;
use cat_live_table::current::Current;
use cat_merge::files::MergeInMaking;
use std::alloc::Global;
use std::marker::Model;

/// What memory has of a ledger: the state of the service, and which files are needed for it. (Lucene: what an `IndexWriter`
/// holds, with a `SearcherLifetimeManager`, a `SnapshotDeletionPolicy` and an `IndexFileDeleter`.)
///
/// Contracts see it as its shape: it is that of a ledger of the model, whose sources stand in files.
pub struct Core {
    pub(crate) alloc: Global,
    pub(crate) schema: Schema,
    /// The segments that stand, in the order of their writes.
    pub(crate) current: Current,
    /// The items that wait for a flush.
    pub(crate) buffer: Buffer,
    /// How many writes were accepted, which is the number of the last one.
    pub(crate) count: WriteNo,
    /// The recorded views, and who holds them.
    pub(crate) records: Records,
    /// The kept commits, the newest last.
    pub(crate) commits: Vec<Commit>,
    /// What the newest commit lists.
    pub(crate) listing: Listing,
    pub(crate) snapshots: Snapshots,
    pub(crate) merging: Option<MergeInMaking>,
    /// The users of the names of files: the segments that stand, recorded views, kept commits and the merge in the making.
    pub(crate) refs: FileRefs,
    /// The number that the next segment gets, a merged one too.
    pub(crate) next_segment: SegNo,
    /// The number that the next commit gets.
    pub(crate) next_generation: Generation,
}

impl Model for Core {
    ghost use Rattle.cat_ledger_laws.specs.shape.Shapes.{Shape};
    ghost use Rattle.cat_ledger_state.specs.Cores.{IsCore, shape_of_core};

    ghost Value = { Shape };

    ghost view = { shape_of_core };

    ghost invariant = { IsCore };
}

impl Drop for Core {
    fn drop(self) {
        let Core {
            alloc: _,
            schema,
            current,
            buffer,
            count: _,
            records,
            commits,
            listing,
            snapshots,
            merging,
            refs,
            next_segment: _,
            next_generation: _,
        } = self;
        drop(schema);
        drop(current);
        drop(buffer);
        drop(records);
        drop(commits);
        drop(listing);
        drop(snapshots);
        drop(merging);
        drop(refs);
    }
}
