//! How long files and views live: the users of each file, the recorded views with the sessions that hold them, and the
//! sessions' rights to views.
#![tactic(auto)]

mod held;
pub mod records;
pub mod refs;
pub mod rights;
