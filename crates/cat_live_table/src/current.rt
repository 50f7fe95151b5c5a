//! The segments that stand, each with its live rows, and where the live row of each id is.

mod current;
mod indices;
mod places;
mod removals;

pub use current::Current;
