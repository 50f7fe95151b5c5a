//! Replies to OPEN and CLOSE.
ghost use Rattle.cat_ledger_laws.specs.lines.HoldLaws.{OpensNewestAnswer, OpensAnswer, GoneOpensAnswer, ClosesAnswer, UnheldClosesAnswer};

/// A hold of the newest view answers an OPEN with its token.
///
/// Lucene's `SearcherManager.acquire`, which never fails to give a searcher.
pub fn opens_newest_answer()
    ensures { OpensNewestAnswer }
{}

/// A hold of the view of a token answers an OPEN of it.
///
/// Lucene's `SearcherLifetimeManager.acquire`.
pub fn opens_answer()
    ensures { OpensAnswer }
{}

/// An OPEN of a token without a view is refused.
///
/// Lucene's `SearcherLifetimeManager.acquire`, which gives `null`.
pub fn gone_opens_answer()
    ensures { GoneOpensAnswer }
{}

/// A hold that ends answers a CLOSE with its token.
///
/// Lucene's `SearcherLifetimeManager.release`.
pub fn closes_answer()
    ensures { ClosesAnswer }
{}

/// A CLOSE of a token that the session doesn't hold is refused.
///
/// Lucene's `IndexReader.decRef` throws an `AlreadyClosedException`.
pub fn unheld_closes_answer()
    ensures { UnheldClosesAnswer }
{}
