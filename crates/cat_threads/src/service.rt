//! One ledger under a lock, for callers in their own threads: each call is one locked section, and tells the caller how the one
//! list of accepted writes went on.

mod begun;
mod chores;
mod desk;
mod lending;
mod naming;
mod pass;
mod service;
mod writes;

pub use begun::Begun;
pub(crate) use chores::Progress;
pub use chores::{Chore, Outcome};
pub use desk::Noted;
pub use naming::Naming;
pub use pass::Pass;
pub use service::Service;
pub use writes::Write;
