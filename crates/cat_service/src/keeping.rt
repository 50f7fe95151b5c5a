//! Lines of maintenance.
ghost use Rattle.std.specs.Prelude.{Some};
ghost use Rattle.cat_model.specs.Lines.{Said};
ghost use Rattle.cat_model.specs.Run as run;
ghost use Rattle.cat_commands.specs.ledger.Chores.{chore_of};
ghost use Rattle.cat_commands.specs.cat_protocol.replies.Reply.{reply_of};
ghost use Rattle.cat_commands.specs.cat_ledger.Histories.{GoesBy};
ghost use Rattle.cat_service.specs.Lines.{Does};

use crate::world::World;
use cat_base::{Refusal, SessionNo};
use cat_commands::cat_protocol::replies::Answer;
use cat_commands::ledger::Chore;
use cat_commands::sets::segments_are_one;
use cat_directory::{Directory, Shelf};

impl<D: Directory + Shelf> World<D> {
    /// Answers a MERGE, FORCE, SWEEP or STAT.
    pub(crate) fn answer_chore(
        &mut self,
        session: SessionNo,
        chore: Chore,
    ) -> Result<Answer, Refusal>
        ensures does { Does D.bytes D.can_fail D.fault_count session (Some (Said.chore (chore_of chore))) self.old (reply_of result) self.new }
        ensures history { GoesBy D.bytes D.may_leave (Some (Said.chore (chore_of chore))) (reply_of result) self.old.ledger self.new.ledger }
    {
        cat_commands::ledger::maintain(
            self.alloc,
            &mut self.ledger,
            &mut self.filters,
            session,
            chore,
        )
    }

    /// Answers a WARM.
    pub(crate) fn answer_warm(&mut self, session: SessionNo) -> Result<Answer, Refusal>
        ensures does { Does D.bytes D.can_fail D.fault_count session (Some (Said.chore run.Chore.warm)) self.old (reply_of result) self.new }
        ensures history { GoesBy D.bytes D.may_leave (Some (Said.chore run.Chore.warm)) (reply_of result) self.old.ledger self.new.ledger }
    {
        // The segments of now agree with those of the recorded views, whose sets are kept too.
        segments_are_one();
        cat_commands::ledger::warm(&self.ledger, &mut self.filters, session)
    }
}
