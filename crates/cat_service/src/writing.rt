//! Lines that write, and those that flush or keep what was written.
ghost use Rattle.std.specs.Prelude.{ℕ, Some};
ghost use Rattle.cat_model.specs.Lines.{Said};
ghost use Rattle.cat_commands.specs.cat_protocol.replies.Reply.{reply_of};
ghost use Rattle.cat_commands.specs.cat_ledger.Histories.{GoesBy};
ghost use Rattle.cat_service.specs.Lines.{Does};

use crate::world::World;
use cat_base::Refusal;
use cat_commands::cat_protocol::replies::Answer;
use cat_commands::ledger::number_told;
use cat_directory::{Directory, Shelf};

impl<D: Directory + Shelf> World<D> {
    /// Answers a PUT.
    pub(crate) fn answer_put(&mut self, text: &str) -> Result<Answer, Refusal>
        ensures does { (session : ℕ) → Does D.bytes D.can_fail D.fault_count session (Some (Said.put text.now)) self.old (reply_of result) self.new }
        ensures history { GoesBy D.bytes D.may_leave (Some (Said.put text.now)) (reply_of result) self.old.ledger self.new.ledger }
    {
        cat_commands::ledger::put(self.alloc, &mut self.ledger, text)
    }

    /// Answers a DEL.
    pub(crate) fn answer_delete(&mut self, id: &str) -> Result<Answer, Refusal>
        ensures does { (session : ℕ) → Does D.bytes D.can_fail D.fault_count session (Some (Said.delete id.now)) self.old (reply_of result) self.new }
        ensures history { GoesBy D.bytes D.may_leave (Some (Said.delete id.now)) (reply_of result) self.old.ledger self.new.ledger }
    {
        cat_commands::ledger::delete(&mut self.ledger, id)
    }

    /// Answers a DELW.
    pub(crate) fn answer_delete_where(&mut self, text: &str) -> Result<Answer, Refusal>
        ensures does { (session : ℕ) → Does D.bytes D.can_fail D.fault_count session (Some (Said.delete_where text.now)) self.old (reply_of result) self.new }
        ensures history { GoesBy D.bytes D.may_leave (Some (Said.delete_where text.now)) (reply_of result) self.old.ledger self.new.ledger }
    {
        cat_commands::ledger::delete_where(self.alloc, &mut self.ledger, text)
    }

    /// Answers a REFRESH.
    pub(crate) fn answer_refresh(&mut self) -> Result<Answer, Refusal>
        ensures does { (session : ℕ) → Does D.bytes D.can_fail D.fault_count session (Some Said.refresh) self.old (reply_of result) self.new }
        ensures history { GoesBy D.bytes D.may_leave (Some Said.refresh) (reply_of result) self.old.ledger self.new.ledger }
    {
        number_told(self.ledger.refresh())
    }

    /// Answers a COMMIT.
    pub(crate) fn answer_commit(&mut self, text: &str) -> Result<Answer, Refusal>
        ensures does { (session : ℕ) → Does D.bytes D.can_fail D.fault_count session (Some (Said.commit text.now)) self.old (reply_of result) self.new }
        ensures history { GoesBy D.bytes D.may_leave (Some (Said.commit text.now)) (reply_of result) self.old.ledger self.new.ledger }
    {
        number_told(self.ledger.commit(text))
    }
}
