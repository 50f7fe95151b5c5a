//! The world: a ledger, and what is kept beside it so that it needn't be made anew.
ghost use Rattle.std.specs.Prelude.{◌≡◌};
ghost use Rattle.cat_service.specs.Causes.{HasFewPending};
ghost use Rattle.cat_service.specs.Promises.{WorldLasts};
ghost use Rattle.cat_service.specs.Worlds.{device_of, shape_of_service};

use cat_base::WriteNo;
use cat_commands::cat_cached_sets::filters::Filters;
use cat_commands::cat_ledger::Ledger;
use cat_commands::cat_protocol::ReaderStates;
use cat_directory::{Directory, Shelf};
use std::alloc::Global;
use std::marker::Model;

/// A catalogue in a directory with the sessions that speak to it. Each session has its own rights to views, which last until
/// it gives them back itself; the ledger keeps them. (Lucene: an `IndexWriter` with a `SearcherLifetimeManager`.)
///
/// It isn't dropped by leaving a scope: [`end`](World::end) gives its directory back.
///
/// Contracts see it as its ledger, and the sets of rows that are cached, with the noted queries and
/// the set in the making. Beside these it keeps states of facets. Sets and states make answers cheaper; of replies, only those
/// to WARM and STAT tell of the sets, and none of the states. (Lucene: the `LRUQueryCache` of an `IndexSearcher`, and the
/// `SortedSetDocValuesReaderState`s of a program.)
///
/// ```text
/// let mut world = World::open(alloc, directory, r#"SCHEMA 10 1000 {"price":"number"}"#)?;
/// let line = Line::read(r#"1 PUT {"id":"a","price":7}"#)?;
/// let text = world.step(&line).text(alloc)?; // 1 OK 1
/// let directory = world.end();
/// ```
pub struct World<D: Directory + Shelf> {
    pub(crate) alloc: Global,
    pub(crate) ledger: Ledger<D>,
    // The sets that queries find at hand, and the queries that are noted for more.
    pub(crate) filters: Filters,
    // The states that counts find at hand.
    pub(crate) states: ReaderStates,
}

impl<D: Directory + Shelf> Model for World<D> {
    ghost use Rattle.std.specs.Coded.{codes};
    ghost use Rattle.cat_commands.specs.cat_cached_sets.cache.Coding.{query_code};
    ghost use Rattle.cat_service.specs.Worlds.{IsWorld, Service};

    ghost Value = { Service D };

    ghost coded = { Prim.hlevel (codes, query_code) };

    ghost view = { λ w. record { ledger = w.ledger; sets = w.filters } };

    ghost invariant = { λ w. IsWorld D.bytes w.ledger w.filters w.states };
}

impl<D: Directory + Shelf> World<D> {
    /// How many writes were accepted, which is the token of a view of now.
    pub fn count(&self) -> WriteNo
        ensures { result ≡ (shape_of_service self.now).count }
    {
        self.ledger.count()
    }

    /// What always holds of it, for a caller's proof; it does nothing. A crash at this moment leaves each file of the newest
    /// commit byte for byte as the directory tells of it, where such directories always tell of their files. And no more files
    /// wait to be deleted than the numbers name that were given out.
    ///
    /// Lucene's `IndexWriter.commit`, whose changes survive a crash of the system.
    pub fn newest_lasts(&self)
        ensures lasts { WorldLasts D.bytes D.may_leave self.now }
        ensures few { HasFewPending (shape_of_service self.now) }
    {
        self.ledger.newest_lasts();
    }

    /// Ends it: each right ends, and the directory is given out with its files as they stand. What waits,
    /// and what no commit has, isn't in them. It takes no memory. (Lucene: `SearcherLifetimeManager.close`, and then
    /// `IndexWriter.rollback`.)
    pub fn end(self) -> D
        ensures { result ≡ device_of self }
    {
        let World {
            alloc: _,
            ledger,
            filters: _,
            states: _,
        } = self;
        ledger.into_directory()
    }
}
