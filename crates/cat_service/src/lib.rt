//! The service: sessions over a ledger, in which each line is one step; and serving over a directory.
#![tactic(auto)]

mod answering;
mod committing;
mod copying;
mod holding;
mod keeping;
mod lasting;
mod machine;
mod opening;
mod reading;
pub mod replicas;
mod running;
mod serving;
pub mod theorem;
mod world;
mod writing;

pub use cat_commands::cat_protocol;
pub use copying::copies_open_alike;
pub use serving::{Left, serve};
pub use world::World;
