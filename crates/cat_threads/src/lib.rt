//! One ledger for callers in their own threads: each call is one locked section, and all callers share one growing list of
//! accepted writes.
#![tactic(auto)]

pub mod history;
pub mod running;
pub mod service;
pub mod sharing;

pub use cat_commands::{Ask, cat_cached_sets, cat_ledger, cat_protocol, searches};
pub use service::{Begun, Chore, Naming, Noted, Outcome, Pass, Service, Write};
