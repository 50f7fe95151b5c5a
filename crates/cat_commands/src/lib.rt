//! What is answered to each command: to those of the ledger, which need no right to a view, to those that give, need or end
//! such a right, and to the searches over it.
#![tactic(auto)]

pub mod ledger;
pub mod searches;
pub mod sets;
pub mod views;

pub use cat_cached_sets;
pub use cat_ledger;
pub use cat_protocol;
pub use cat_protocol::{Ask, Sort};
