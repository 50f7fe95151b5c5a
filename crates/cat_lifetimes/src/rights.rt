//! The sessions' rights to views, by session and token.

mod rights;

pub use rights::Rights;
