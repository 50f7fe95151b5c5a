//! The ledger as memory has it, and the laws that lift what a call makes of it, and of the device beside it, to the calls of the
//! ledger's model. No code.

mod committing;
mod merging;
mod opening;
mod trying;
mod viewing;
mod writing;

pub use committing::{
    commits_are_counted, commits_keep, commits_make, commits_may_be_said, leaving_are_counted,
    listed_differ, live_may_be_written, names_are_begun, names_come_once, snaps_keep, snaps_make,
    unsnaps_keep, unsnaps_make, users_fit,
};
pub use merging::{
    begun_keep, begun_make, copies_keep, copies_make, ends_keep, ends_make, installs_keep,
    installs_make, merges_find_their_window, windows_may_be_merged,
};
pub use opening::{empty_keep, empty_make, opened_keep, opened_make};
pub use trying::{
    beginnings_are_no_commits, making_is_apart, trials_stay, tried_are_found, tried_begin,
    tried_stay,
};
pub use viewing::{
    holds_keep, holds_make, prunes_keep, prunes_make, records_keep, records_make, shapes_are_views,
    views_are_counted,
};
pub use writing::{
    flushed_may_stand, flushes_keep, flushes_make, ids_stand_once, numbers_may_be_taken,
    refusals_keep, refusals_make, sweeps_make, writes_are_newest, writes_keep, writes_make,
};
