//! The law of backups.
ghost use Rattle.cat_service.specs.Copies.{CopiesOpenAlike};

use cat_commands::cat_protocol::{
    live_rows_are_told_by_their_bytes, segments_are_told_by_their_bytes,
};
use cat_model::commits_are_told_by_their_bytes;

/// A copy of the files that a kept commit needs, which is what FILES tells of it, opens with the table, the number of writes
/// and the text of that commit, wherever the directory tells of its files and has no newer commit.
///
/// Lucene's `SnapshotDeletionPolicy` is there for such backups.
pub fn copies_open_alike()
    ensures { CopiesOpenAlike }
{
    commits_are_told_by_their_bytes();
    segments_are_told_by_their_bytes();
    live_rows_are_told_by_their_bytes();
}
