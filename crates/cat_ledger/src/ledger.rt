//! The ledger, which is its directory and what memory has of it.
ghost use Rattle.cat_ledger.specs.Histories.{FoundIsTaken, FoundIsTried, NewestIsAnswered, NewestIsFound, NoneIsLost};
ghost use Rattle.cat_ledger.specs.Lasting.{AlwaysTells, IsCarried, NewestLasts};
ghost use Rattle.cat_ledger.specs.Ledgers.{device_in, shape_in};
ghost use Rattle.std.specs.Prelude.{◌≡◌, ◌+◌, ◌*◌, ◌≤◌, ◌==◌, count_by};

use crate::upkeep::MergePolicy;
use cat_base::WriteNo;
use cat_directory::{Directory, Shelf};
use cat_items::Schema;
use cat_ledger_state::{Core, Leaf};
use std::alloc::Global;
use std::marker::Model;

/// A catalogue in a directory: what waits, the segments that stand, recorded views and who holds them, commits and snapshots,
/// a merge in the making, and which files are needed. (Lucene: an `IndexWriter` with a `SearcherLifetimeManager`, a
/// `SnapshotDeletionPolicy` and a `LogDocMergePolicy`.)
///
/// Contracts see it as its device, its shape in memory, and its policy. Each call says what it makes of every ledger of the
/// model that these stand for; after a refusal that is what the model lets a refusal leave.
///
/// Whatever was called, and whatever it answered: these stand for some ledger of the model, and a crash leaves every file of
/// the newest commit as it is ([`newest_lasts`](Ledger::newest_lasts)).
pub struct Ledger<D: Directory + Shelf> {
    pub(crate) alloc: Global,
    pub(crate) device: D,
    pub(crate) core: Core,
    pub(crate) policy: MergePolicy,
}

impl<D: Directory + Shelf> Model for Ledger<D> {
    ghost use Rattle.cat_ledger.specs.Lasting.{IsLasting};
    ghost use Rattle.cat_ledger.specs.Ledgers.{LedgerOnDevice};

    ghost Value = { LedgerOnDevice D };

    ghost view = { λ l. record { device = l.device; core = l.core; policy = l.policy } };

    ghost invariant = { λ l. IsLasting D.bytes D.may_leave l.device l.core };
}

// By hand: what is derived is proved anew in each crate that lets a ledger go, down to the last field of a segment.
impl<D: Directory + Shelf + Drop> Drop for Ledger<D> {
    fn drop(self) {
        let Ledger {
            alloc: _,
            device,
            core,
            policy: _,
        } = self;
        drop(device);
        drop(core);
    }
}

impl<D: Directory + Shelf> Ledger<D> {
    /// The fields of the items.
    pub fn schema(&self) -> &Schema
        ensures { result.now ≡ (shape_in self.now).schema }
    {
        self.core.schema()
    }

    /// How many writes were accepted, which is the token of a view of now.
    pub fn count(&self) -> WriteNo
        ensures { result ≡ (shape_in self.now).count }
    {
        self.core.count()
    }

    /// The segments of now, in order, and which of their rows are live. (Lucene: the leaves of `DirectoryReader.open` over an
    /// `IndexWriter`.)
    pub fn leaves(&self) -> &[Leaf]
        ensures { result.now ≡ (shape_in self.now).leaves }
    {
        self.core.leaves()
    }

    /// What always holds of it, for a caller's proof; it does nothing. Its device and its memory stand for a ledger of the
    /// model. And a crash at this moment leaves each file that the newest commit needs byte for byte as the directory tells of
    /// it, where such directories always tell of their files: the newest commit is the last one that was answered, or else
    /// the one that was opened. Few files are pending: no more than there are names below the next numbers.
    ///
    /// Lucene's `IndexWriter.commit`, whose javadoc promises that its changes survive a crash.
    pub fn newest_lasts(&self)
        ensures carried { IsCarried (D.bytes (device_in self.now)) (shape_in self.now) }
        ensures lasts { AlwaysTells D.bytes
            → NewestLasts (D.bytes (device_in self.now)) (D.may_leave (device_in self.now)) (shape_in self.now) }
        ensures few { count_by (λ u. u.users == 0) (shape_in self.now).users + 2
            ≤ (shape_in self.now).next_segment * ((shape_in self.now).next_generation + 1) }
    {
        // A look at a field tells what holds of all of them.
        self.core.few_are_pending();
    }

    /// What calls in a row leave of commits, for a caller's proof; it does nothing. Whatever calls led here, each of which says what it
    /// left of commits ([`commit`](Ledger::commit) in its clause `history`, each other call that changes a ledger in `goes`):
    ///
    /// - The newest commit is the last one that was answered, or where none was, the one that the first ledger had.
    /// - Where such directories always tell of their files, and a crash left no commit ahead of the first ledger's newest one, as
    ///   once it was [opened](Ledger::open): in whatever a crash leaves at this moment, the newest commit that is found is that one,
    ///   or one that was refused after it; and one is found, where the ledger has one. Of a refused one a crash leaves its own file,
    ///   torn or whole, and the files that it lists as they were, or not at all. Its generation isn't given out again.
    /// - Once the files of such refused commits are taken away, that newest commit is the one that is found, and each file that it
    ///   needs is byte for byte as the directory told of it.
    ///
    /// Lucene's `IndexWriter.commit`: after a crash `DirectoryReader.open` finds the last commit that returned, or one that was on
    /// its way.
    pub fn histories_last(&self)
        ensures answered { NewestIsAnswered D.bytes D.may_leave self.now }
        ensures tried { FoundIsTried D.bytes D.may_leave self.now }
        ensures taken { FoundIsTaken D.bytes D.may_leave self.now }
        ensures lost { NoneIsLost D.bytes D.may_leave self.now }
        ensures found { NewestIsFound D.bytes D.may_leave self.now }
    {
        // A look at a field tells what holds of all of them.
        let _core = &self.core;
    }

    /// The directory, with its files as they stand. What waits, and what no commit has, isn't in them. It takes no memory.
    /// (Lucene: `IndexWriter.rollback`, which closes without a commit.)
    pub fn into_directory(self) -> D
        ensures { result ≡ device_in self }
    {
        let Ledger {
            alloc: _,
            device,
            core: _,
            policy: _,
        } = self;
        device
    }
}
