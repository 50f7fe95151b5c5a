//! Lines that tell of kept commits.
ghost use Rattle.std.specs.Prelude.{ℕ, Some};
ghost use Rattle.cat_model.specs.Lines.{Said};
ghost use Rattle.cat_commands.specs.cat_protocol.replies.Reply.{reply_of};
ghost use Rattle.cat_service.specs.Lines.{Does};

use crate::world::World;
use cat_base::{Generation, Refusal};
use cat_commands::cat_protocol::replies::Answer;
use cat_directory::{Directory, Shelf};

impl<D: Directory + Shelf> World<D> {
    /// Answers a NOTE.
    pub(crate) fn answer_note(&self, generation: Generation) -> Result<Answer, Refusal>
        ensures does { (session : ℕ) → Does D.bytes D.can_fail D.fault_count session (Some (Said.text_of_commit generation)) self.now (reply_of result) self.now }
    {
        cat_commands::ledger::text_of_commit(self.alloc, &self.ledger, generation)
    }

    /// Answers a FILES of a commit.
    pub(crate) fn answer_commit_files(&self, generation: Generation) -> Result<Answer, Refusal>
        ensures does { (session : ℕ) → Does D.bytes D.can_fail D.fault_count session (Some (Said.files_of_commit generation)) self.now (reply_of result) self.now }
    {
        cat_commands::ledger::files_of_commit(&self.ledger, generation)
    }
}
