//! What is answered to a line, and its text.

mod answer;
mod lists;
mod news;
mod reply;
mod sending;
mod telling;
mod words;

pub use answer::Answer;
pub use news::{News, SegmentStat, Stat};
pub use reply::Reply;
pub use sending::send_reply;
