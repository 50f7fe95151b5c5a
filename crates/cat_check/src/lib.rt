//! Judges a directory without changing it: each commit as opening would, which file breaks which rule, and the way back after a
//! crash in the middle of a commit.
#![tactic(auto)]

mod checked;
mod commits;
mod counts;
mod dropping;
mod fault;
mod look;
mod look_together;
mod report;
mod said;
mod telling;
mod unnamed;
mod verdict;

pub use checked::{Checked, check};
pub use commits::commit_below;
pub use counts::Counts;
pub use dropping::{Standing, drop_torn, find_standing};
pub use fault::{Fault, Rule};
pub use report::{Report, report_of};
pub use telling::{tell, tell_standing};
pub use verdict::{Verdict, open_said};
