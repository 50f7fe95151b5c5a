//! The ledger: opening, and each call of it over its own directory, with every refusal in its order; and when a merge is
//! due, and its steps.
#![tactic(auto)]

mod commits;
mod ledger;
mod merges;
mod opening;
mod room;
mod sweeps;
mod telling;
pub mod upkeep;
mod views;
mod writes;

pub use cat_ledger_state::{Hold, Query, judge_commit_text};
pub use ledger::Ledger;
pub use opening::NotOpened;
pub use telling::{SegmentStat, Stat};
pub use views::{Grant, Released};
