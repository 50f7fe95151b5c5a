//! A session of a service that threads share.
ghost use Rattle.std.specs.Prelude.{◌≡◌, []};
ghost use Rattle.cat_callers.specs.Sessions.{AreRightsTo, kept};

use crate::holdings::Holdings;
use cat_base::SessionNo;
use cat_threads::{Naming, Pass};
use std::alloc::Global;

/// A session: its pass, and its rights to views. (Lucene: a client of an `IndexWriter` and a `SearcherLifetimeManager`, with what
/// it has acquired.)
///
/// It isn't dropped by leaving a scope: [`Front::end`](crate::Front::end) gives its rights back.
pub struct Session<J: Naming> {
    pub(crate) pass: Pass<J>,
    pub(crate) holdings: Holdings,
    ghost own: { holdings.session ≡ pass.session },
    ghost rights: { AreRightsTo J.from pass holdings.rights },
}

impl<J: Naming> Session<J> {
    /// The session of the pass, which has no rights yet. It takes no memory.
    pub fn new(alloc: Global, pass: Pass<J>) -> Session<J>
        ensures { (result.pass ≡ pass) × (result.holdings ≡ kept pass.session []) }
    {
        let holdings = Holdings::new(alloc, pass.session());
        Session { pass, holdings }
    }

    /// The session's number.
    pub fn number(&self) -> SessionNo
        ensures { result ≡ self.now.pass.session }
    {
        self.holdings.number
    }
}
