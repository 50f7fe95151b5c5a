//! Recorded views and holds.
ghost use Rattle.cat_ledger_laws.specs.shape.ViewLaws.{RecordsMake, RecordsKeep, PrunesMake, PrunesKeep, HoldsMake, HoldsKeep, ShapesAreViews, ViewsAreCounted};

/// Where nothing waits, a view of now that is recorded in memory is one that the ledger records.
///
/// Lucene's `SearcherLifetimeManager.record`; at most 64 views stand, and that a held one stays is our own.
pub fn records_make()
    ensures { RecordsMake }
{}

/// After a view was recorded memory is that of some ledger still.
pub fn records_keep()
    ensures { RecordsKeep }
{}

/// Views that go from memory as a PRUNE asks go from the ledger so.
///
/// Lucene's `SearcherLifetimeManager.prune`, which drops views in use too; here it doesn't.
pub fn prunes_make()
    ensures { PrunesMake }
{}

/// After views were pruned memory is that of some ledger still.
pub fn prunes_keep()
    ensures { PrunesKeep }
{}

/// Holds that come or go in memory do so in the ledger, and need no file, where each held token has a view.
///
/// Lucene's `SearcherLifetimeManager.acquire` and `release`.
pub fn holds_make()
    ensures { HoldsMake }
{}

/// After holds came or went memory is that of some ledger still.
pub fn holds_keep()
    ensures { HoldsKeep }
{}

/// The current segments are a view, and so are those under each token, which the number of writes has reached.
///
/// Lucene's `StandardDirectoryReader`, opened over the `SegmentInfos` of the writer.
pub fn shapes_are_views()
    ensures { ShapesAreViews }
{}

/// A file has as many users at least as recorded views have its name.
///
/// Lucene's `IndexWriter.incRefDeleter`, by which each near-real-time reader counts as a user of its files.
pub fn views_are_counted()
    ensures { ViewsAreCounted }
{}
