//! The laws that tie what memory has of a ledger, and what its device tells, to the replies to lines and to runs of the service. No
//! code.

mod answering;
mod holding;
mod joining;
mod needing;
mod planning;
mod reading;
mod refusing;
mod running;
mod staying;
mod stopping;

pub use answering::{
    calls_answer, commits_answer, deletes_answer, memory_answers, prunes_answer, puts_answer,
    query_deletes_answer, refreshes_answer, snaps_answer, stopped_puts_answer,
    stopped_refreshes_answer, unsnaps_answer,
};
pub use holding::{
    closes_answer, gone_opens_answer, opens_answer, opens_newest_answer, unheld_closes_answer,
};
pub use joining::{
    flushed_commits_make, flushes_flush, flushes_rest, puts_make, refreshes_make, room_is_made,
    room_is_there, views_stand,
};
pub use needing::{
    flushed_are_promised, lines_spare_taken, needed_files_stand, needed_names_stand,
    promised_are_held, promised_files_stand, refused_are_found, stands_are_of_runs, tried_hold,
    tried_tables_are_found,
};
pub use planning::{
    forced_fit, forces_begin, forces_rest, forces_wait, merges_are_done, merges_begin, merges_copy,
    merges_rest, merges_tell, windows_fit,
};
pub use reading::{
    commit_files_answer, files_answer, gets_answer, reads_answer, sources_are_whole, texts_answer,
    unheld_files_answer, unheld_reads_answer, unkept_files_answer, unkept_texts_answer,
};
pub use refusing::{
    commitless_snaps_answer, faults_answer, foreign_chores_answer, full_refreshes_answer,
    snapless_unsnaps_answer, spent_commits_answer, spent_snaps_answer, spent_writes_answer,
};
pub use running::{answers_are_steps, empty_stand, opened_stand};
pub use staying::{held_views_stay, holds_stay, numbers_rise, schema_stays};
pub use stopping::{
    begun_are_left, chores_answer, ended_are_left, flushed_are_left, flushes_are_left,
    nothing_is_left, room_is_left, stats_tell, stopped_chores_answer, stopped_commits_answer,
    stopped_gets_answer, sweeps_tell, warms_tell,
};
