//! What lines in a row leave of commits.
ghost use Rattle.cat_commands.specs.cat_ledger.Histories.{FoundIsTaken, FoundIsTried, NewestIsAnswered, NewestIsFound, NoneIsLost};
ghost use Rattle.cat_service.specs.Histories.{LinesAreCalls};

use crate::world::World;
use cat_directory::{Directory, Shelf};

impl<D: Directory + Shelf> World<D> {
    /// What lines in a row leave of commits, for a caller's proof; it does nothing. Whatever lines led here, each of which says
    /// by its reply what it made of commits (the clause `history` of [`step`](World::step) and [`run`](World::run)), are calls
    /// of the ledger: a COMMIT that was answered OK is an answered commit of the generation that it was told, one that was
    /// refused, but not for its text, is a refused commit of that text or nothing, and no other line has to do with commits.
    /// Of these calls:
    ///
    /// - The newest commit is that of the last COMMIT that was answered OK, or where none was, the one that the first world
    ///   had.
    /// - Where such directories always tell of their files, and a crash left no commit ahead of the first world's newest one,
    ///   as once it was [opened](World::open): in whatever a crash leaves at this moment, the newest commit that is found is
    ///   that one, or one that a COMMIT began which was refused after it; and one is found, where the world has one. Of a refused
    ///   one its own file is left as far as it goes, and beside it each file that it lists, or none. (Whether opening accepts it,
    ///   or finds it damaged, is for its bytes to say.) Its generation is below the one that comes next.
    /// - Once the files of such refused commits are taken away, that newest commit is the one that is found, and each file that
    ///   it needs is byte for byte as the directory told of it.
    ///
    /// Lucene's `IndexWriter.commit`: after a crash `DirectoryReader.open` finds the last commit that returned, or one that was
    /// on its way.
    pub fn histories_last(&self)
        ensures lines { LinesAreCalls D.bytes D.may_leave self.now }
        ensures answered { NewestIsAnswered D.bytes D.may_leave self.now.ledger }
        ensures tried { FoundIsTried D.bytes D.may_leave self.now.ledger }
        ensures taken { FoundIsTaken D.bytes D.may_leave self.now.ledger }
        ensures lost { NoneIsLost D.bytes D.may_leave self.now.ledger }
        ensures found { NewestIsFound D.bytes D.may_leave self.now.ledger }
    {
        self.ledger.histories_last();
    }
}
