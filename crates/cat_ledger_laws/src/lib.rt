//! The ledger as a model, the ledger as memory has it, and its replies to lines: the laws by which what a call makes of
//! memory and files is a step of the service. No code but the empty functions that carry the laws.
#![tactic(auto)]

pub mod lines;
pub mod model;
pub mod shape;
