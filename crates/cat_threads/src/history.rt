//! One growing list of accepted writes that many callers share: two words, and what each caller's pass has seen of them.

mod cell;
mod rule;
mod sight;
mod steps;

pub use cell::{Cell, Noting, Seat, new_cell};
pub use sight::Sight;
pub(crate) use steps::part_into;
pub use steps::{join, look, meet, note, part, record, seat};
