//! A machine that its first line opens, served over a reader and a writer.

mod input;
mod machine;
mod serving;

pub use input::{MAX_GATHERED, gather, if_short, split_line, text_of, without_return};
pub use machine::{Machine, Stage, Unopened};
pub use serving::{ServeFault, Served, serve_machine};
