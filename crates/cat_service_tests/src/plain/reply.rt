//! What is answered to a line.
use crate::plain::counts::Counts;
use crate::plain::pages::Page;
use cat_base::{Refusal, SessionNo};

/// What stands behind `OK`.
#[derive(Drop)]
pub enum Answer {
    /// The number of a write or a token.
    Number(u64),
    /// A page of hits.
    Found(Page),
    /// Counts of labels.
    Counts(Counts),
    /// The text that an item was read from, if there is one of the id.
    Source(Option<Vec<u8>>),
}

/// The reply to a line of a session.
#[derive(Drop)]
pub struct Reply {
    /// The session that the line shows.
    pub session: SessionNo,
    /// The answer, or why the line was refused.
    pub answer: Result<Answer, Refusal>,
}
