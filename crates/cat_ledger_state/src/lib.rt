//! What memory has of a ledger, and what each call makes of it and of the device; and the state that it starts with.
#![tactic(auto)]

mod asking;
mod commits;
mod flushes;
mod installs;
mod kept;
mod merges;
mod opening;
mod snapshots;
pub mod startup;
mod state;
mod sweeps;
mod telling;
mod users;
mod views;
mod writes;

pub use cat_commits::writing::needed_are_synced;
pub use cat_commits::{Hold, Leaf, View, judge_commit_text};
pub use cat_live_table::Query;
pub use cat_merge::window;
pub use opening::known_names;
pub use state::Core;
