//! The line that reads a stored item under a token.
ghost use Rattle.cat_model.specs.Answer.{Read};
ghost use Rattle.cat_model.specs.Heard.{id_of};
ghost use Rattle.cat_model.specs.Run.{Command};
ghost use Rattle.cat_service_tests.specs.plain.Plain.{DoesPlainly};
ghost use Rattle.cat_service_tests.specs.plain.Reply.{plain_reply};

use crate::plain::catalogue::Plain;
use crate::plain::reply::Answer;
use crate::plain::tables::source_of;
use cat_base::{Refusal, SessionNo, Token};
use cat_items::id_ok;
use std::alloc::AllocError;

impl Plain {
    /// Answers a GET: the stored item of the id, where the session holds the token (StoredFields.document).
    ///
    /// A wrong id is refused first, then a token that the session doesn't hold. Want of memory comes last.
    pub(super) fn answer_get(
        &self,
        session: SessionNo,
        token: Token,
        id: &str,
    ) -> Result<Answer, Refusal>
        ensures { DoesPlainly self.now.schema self.now.state session (Command.read token (Read.get (id_of id.now))) (plain_reply result)
            self.now.state }
    {
        if !id_ok(id) {
            return Err(Refusal::Id);
        }
        if !self.is_holding(session, token) {
            return Err(Refusal::NotHeld);
        }
        match source_of(self.alloc, self.table_at(token), id) {
            Ok(source) => Ok(Answer::Source(source)),
            Err(AllocError) => Err(Refusal::Memory),
        }
    }
}
