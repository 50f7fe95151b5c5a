//! Lines that serve all sessions.
ghost use Rattle.std.specs.Prelude.{◌≡◌, ◌≢◌, ◌⊎◌, Err, IfErr, Ok};
ghost use Rattle.cat_base.specs.declared.refusal.Refusal.TheVariants.{Line as NoForm, Memory};
ghost use Rattle.cat_model.specs.Heard.{commit_text_of};
ghost use Rattle.cat_model.specs.Lines.{Said};
ghost use Rattle.cat_threads.specs.cat_commands.cat_protocol.replies.Reply.{reply_of};
ghost use Rattle.cat_threads.specs.service.Chores.{said_by};
ghost use Rattle.cat_callers.specs.Told.{ToldCommit, serves};

use crate::front::Front;
use cat_base::{Refusal, Text};
use cat_directory::{Directory, Shelf};
use cat_threads::cat_ledger::judge_commit_text;
use cat_threads::cat_protocol::replies::Answer;
use cat_threads::{Chore, Naming, Pass};
use std::sync::Wait;

impl<'a, D: Directory + Shelf, J: Naming, R: Wait> Front<'a, D, J, R> {
    /// What the chore is answered.
    pub(crate) fn told(&self, chore: Chore) -> Result<Answer, Refusal>
        ensures { serves D.bytes J.from (said_by chore) (reply_of result) }
    {
        self.service.maintain(self.rt, chore).into_answer()
    }

    /// Answers a COMMIT. Its text is judged before memory is taken for it.
    pub(crate) fn commit(&self, text: &str) -> Result<Answer, Refusal>
        ensures { ToldCommit (serves D.bytes J.from) text.now (reply_of result) }
    {
        if let Err(refusal) = judge_commit_text(text) {
            return Err(refusal);
        }
        let Ok(text) = Text::from_str(self.alloc, text) else {
            return Err(Refusal::Memory);
        };
        self.told(Chore::Commit(text))
    }

    /// Answers a MERGE, FORCE, WARM, SWEEP or STAT, which session 0 alone may ask for.
    pub(crate) fn maintain(&self, me: &Pass<J>, chore: Chore) -> Result<Answer, Refusal>
        ensures others { me.now.session ≢ 0 → reply_of result ≡ Err NoForm }
        ensures mine { me.now.session ≡ 0 → serves D.bytes J.from (said_by chore) (reply_of result) }
    {
        let session = me.session();
        if session != 0 {
            return Err(Refusal::Line);
        }
        self.told(chore)
    }
}
