//! Lines that give a session a right to a view, end it, or tell by it what the view needs.
ghost use Rattle.std.specs.Prelude.{Some};
ghost use Rattle.cat_model.specs.Lines.{Said};
ghost use Rattle.cat_commands.specs.cat_protocol.replies.Reply.{reply_of};
ghost use Rattle.cat_commands.specs.views.Holding.{said_open};
ghost use Rattle.cat_commands.specs.cat_ledger.Histories.{GoesBy};
ghost use Rattle.cat_service.specs.Lines.{Does};

use crate::world::World;
use cat_base::{Refusal, SessionNo, Token};
use cat_commands::cat_protocol::replies::Answer;
use cat_directory::{Directory, Shelf};

impl<D: Directory + Shelf> World<D> {
    /// Answers an OPEN.
    pub(crate) fn answer_open(
        &mut self,
        session: SessionNo,
        token: Option<Token>,
    ) -> Result<Answer, Refusal>
        ensures does { Does D.bytes D.can_fail D.fault_count session (Some (said_open token)) self.old (reply_of result) self.new }
        ensures history { GoesBy D.bytes D.may_leave (Some (said_open token)) (reply_of result) self.old.ledger self.new.ledger }
    {
        cat_commands::views::open(&mut self.ledger, session, token)
    }

    /// Answers a CLOSE.
    pub(crate) fn answer_close(
        &mut self,
        session: SessionNo,
        token: Token,
    ) -> Result<Answer, Refusal>
        ensures does { Does D.bytes D.can_fail D.fault_count session (Some (Said.close token)) self.old (reply_of result) self.new }
        ensures history { GoesBy D.bytes D.may_leave (Some (Said.close token)) (reply_of result) self.old.ledger self.new.ledger }
    {
        cat_commands::views::close(&mut self.ledger, session, token)
    }

    /// Answers a FILES of a token.
    pub(crate) fn answer_view_files(
        &self,
        session: SessionNo,
        token: Token,
    ) -> Result<Answer, Refusal>
        ensures does { Does D.bytes D.can_fail D.fault_count session (Some (Said.files_of_token token)) self.now (reply_of result) self.now }
    {
        cat_commands::views::files_of_token(self.alloc, &self.ledger, session, token)
    }

    /// Answers a GET.
    pub(crate) fn answer_get(
        &mut self,
        session: SessionNo,
        token: Token,
        id: &str,
    ) -> Result<Answer, Refusal>
        ensures does { Does D.bytes D.can_fail D.fault_count session (Some (Said.get token id.now)) self.old (reply_of result) self.new }
        ensures history { GoesBy D.bytes D.may_leave (Some (Said.get token id.now)) (reply_of result) self.old.ledger self.new.ledger }
    {
        cat_commands::views::get(&mut self.ledger, session, token, id)
    }
}
