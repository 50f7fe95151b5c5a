//! The merge in the making: reads the sources of its inputs, and writes the files of the segment that it makes.

mod inputs;
pub(crate) mod judging;
mod making;
mod sealing;
mod sources;

pub use making::MergeInMaking;
pub use sealing::write_segment;
