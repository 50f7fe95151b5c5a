//! The reply to a line, and its text.
use crate::replies::answer::Answer;
use crate::replies::sending::send_reply;
use crate::sending::WriteFault;
use cat_base::{Refusal, SessionNo};
use std::alloc::{AllocError, Global};

/// The reply to a line of a session.
#[derive(Drop)]
pub struct Reply {
    /// The session that the line shows.
    pub session: SessionNo,
    /// The answer, or why the line was refused.
    pub answer: Result<Answer, Refusal>,
}

impl Reply {
    ghost use Rattle.std.specs.Prelude.{◌≡◌, IfOk};
    ghost use Rattle.cat_model.specs.Lines.{reply_text};
    ghost use Rattle.cat_protocol.specs.replies.Reply.{reply_of};

    /// The lines of the reply, each with its line feed: the first, and one for each entry, count, name or segment.
    pub fn text(&self, alloc: Global) -> Result<Vec<u8>, AllocError>
        ensures ok { IfOk result (λ t. t.items ≡ reply_text self.now.session (reply_of self.now.answer)) }
    {
        let mut text = Vec::new(alloc);
        match send_reply(self, &mut text) {
            Ok(()) => Ok(text),
            // A vector refuses bytes only where it can't grow.
            Err(WriteFault) => Err(AllocError),
        }
    }
}
