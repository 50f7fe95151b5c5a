//! The laws of openings.
ghost use Rattle.cat_commits.specs.reading.Laws.{LeavesAreOne};

use cat_views::cat_segment::{live_rows_are_told_by_their_bytes, segments_are_told_by_their_bytes};

/// The files of a commit's segments hold one list of leaves at most.
pub fn leaves_are_told_by_their_files()
    ensures { LeavesAreOne }
{
    segments_are_told_by_their_bytes();
    live_rows_are_told_by_their_bytes();
}
