//! The commands that need no right to a view: what a ledger answers to them.

mod chores;
mod merging;
mod numbers;
mod stats;
mod telling;
mod warming;
mod writing;

pub use chores::{Chore, maintain};
pub use numbers::{left_told, number_told};
pub use telling::{files_of_commit, text_of_commit};
pub use warming::warm;
pub use writing::{delete, delete_where, put};
