//! What the files of a commit hold, each read once and judged by every rule.

mod file;
mod ids;
mod laws;
mod leaf;
mod leaves;
mod numbers;
mod order;
mod restored;

pub use file::read_file;
pub use laws::leaves_are_told_by_their_files;
pub use numbers::{newest_commit, next_numbers};
pub use restored::{Restored, read_commit};
