//! Lines, answered one after another.
ghost use Rattle.std.specs.Prelude.{◌≡◌};
ghost use Rattle.cat_model.specs.Served.{NamesFiles};
ghost use Rattle.cat_commands.specs.cat_ledger.Histories.{GoesBy};
ghost use Rattle.cat_commands.specs.cat_protocol.lines.Line.{said_of};
ghost use Rattle.cat_commands.specs.cat_protocol.replies.Reply.{reply_of};
ghost use Rattle.cat_service.specs.Cached.{MakesOfSets};
ghost use Rattle.cat_service.specs.Causes.{HasCause, TakesNumbers};
ghost use Rattle.cat_service.specs.Lines.{Does, StepsLine};
ghost use Rattle.cat_service.specs.Named.{TellsNeeded};
ghost use Rattle.cat_service.specs.Outlasting.{OutlastsCrash};
ghost use Rattle.cat_service.specs.Promises.{KeepsPromises};
ghost use Rattle.cat_service.specs.Worlds.{device_of, policy_of, shape_of_service};

use crate::world::World;
use cat_base::Refusal;
use cat_commands::cat_protocol::lines::{Command, Line};
use cat_commands::cat_protocol::replies::{Answer, Reply};
use cat_commands::ledger::{Chore, left_told, number_told};
use cat_directory::{Directory, Shelf};

impl<D: Directory + Shelf> World<D> {
    /// Answers a line, whose session stands in the reply.
    fn answer(&mut self, line: &Line) -> Result<Answer, Refusal>
        ensures does { Does D.bytes D.can_fail D.fault_count line.now.session (said_of line.now.command) self.old (reply_of result) self.new }
        ensures history { GoesBy D.bytes D.may_leave (said_of line.now.command) (reply_of result) self.old.ledger self.new.ledger }
    {
        let session = line.session;
        match line.command {
            Command::NoForm => Err(Refusal::Line),
            Command::Put(text) => self.answer_put(text),
            Command::Delete(id) => self.answer_delete(id),
            Command::DeleteWhere(text) => self.answer_delete_where(text),
            Command::Refresh => self.answer_refresh(),
            Command::Open(token) => self.answer_open(session, token),
            Command::Close(token) => self.answer_close(session, token),
            Command::Find(find) => self.answer_find(session, find),
            Command::Facets(facets) => self.answer_facets(session, facets),
            Command::Get { token, id } => self.answer_get(session, token, id),
            Command::FilesOfToken(token) => self.answer_view_files(session, token),
            Command::FilesOfCommit(generation) => self.answer_commit_files(generation),
            Command::Commit(text) => self.answer_commit(text),
            Command::Note(generation) => self.answer_note(generation),
            Command::Snapshot => number_told(self.ledger.snapshot()),
            Command::Unsnapshot(generation) => left_told(self.ledger.unsnapshot(generation)),
            Command::Prune(count) => number_told(self.ledger.prune(count)),
            Command::Merge => self.answer_chore(session, Chore::Merge),
            Command::Force => self.answer_chore(session, Chore::Force),
            Command::Warm => self.answer_warm(session),
            Command::Sweep => self.answer_chore(session, Chore::Sweep),
            Command::Stat => self.answer_chore(session, Chore::Stat),
        }
    }

    /// Answers a line. Whatever run led here, the reply fits it, and what is left stands for the longer run; where the
    /// directory doesn't tell of its files, the text of a stored item alone may be another of that length. The files stand
    /// of each token that is recorded or held and of each commit that is kept, and a crash leaves those of the newest
    /// commit. [`Refusal::Memory`] is told only where an OK fits and the directory counted no failure, so that it hides no
    /// other refusal, nor a failure of the directory; to a GET and to a MERGE only where no file with a text that they are
    /// to read is told to be gone or too short; and never of a CLOSE or of a line without a form, nor of an OPEN of a token
    /// that the session holds. That an OK fits is known of a PUT as far as its length and its UTF-8, and of a DELW as far
    /// as its query. A refusal that stands in place of an OK has its cause: [`Refusal::Spent`] that a number or a limit is
    /// spent, [`Refusal::Device`] that the directory can fail and counted one failure more, [`Refusal::Damaged`] that a
    /// file is damaged: to a MERGE only where it copies rows and the file with the sources of a segment that it takes lacks
    /// bytes, where the directory tells of it. No line has the directory forget a failure, and a COMMIT that is refused for
    /// its text changes nothing. Behind a PUT, REFRESH, COMMIT or FORCE that is refused a merge in the making goes on,
    /// behind a MERGE or FORCE the same segments stand and what waited still waits, and behind none of these a file is
    /// forgotten that a SWEEP is to delete. COMMIT tells the generation that comes next, and maintenance what is so: WARM
    /// the step that it took, STAT how many sets are cached, SWEEP how many files waited, none of which waits behind its
    /// OK: each is gone, where the directory tells of it. A FIND and a FACETS use the cached sets of their query and, where
    /// they are answered, note it; beside these, WARM and MERGE alone change the sets. A line takes one number of a segment
    /// and one generation at most. What the line makes of commits is known by its reply, from which
    /// [`histories_last`](World::histories_last) tells what a crash leaves.
    pub fn step(&mut self, line: &Line) -> Reply
        ensures session { result.session ≡ line.now.session }
        ensures run { StepsLine D.bytes line.now.session (said_of line.now.command) self.old (reply_of result.answer) self.new }
        ensures promised { KeepsPromises D.bytes self.new }
        ensures outlasts { OutlastsCrash D.bytes D.may_leave self.new }
        ensures history { GoesBy D.bytes D.may_leave (said_of line.now.command) (reply_of result.answer) self.old.ledger self.new.ledger }
        ensures told { TellsNeeded (shape_of_service self.old) (said_of line.now.command) (reply_of result.answer) }
        ensures names { NamesFiles (reply_of result.answer) }
        ensures cause { HasCause D.bytes D.can_fail D.fault_count self.old (said_of line.now.command) (reply_of result.answer) self.new }
        ensures sets { MakesOfSets line.now.session (said_of line.now.command) self.old (reply_of result.answer) self.new }
        ensures numbers { TakesNumbers (shape_of_service self.old) (shape_of_service self.new) }
        ensures schema { (shape_of_service self.new).schema ≡ (shape_of_service self.old).schema }
        ensures policy { policy_of self.new ≡ policy_of self.old }
        ensures can { D.can_fail (device_of self.new) → D.can_fail (device_of self.old) }
    {
        let answer = self.answer(line);
        self.newest_lasts();
        Reply {
            session: line.session,
            answer,
        }
    }
}
