//! The one list that callers share, beside the ledger that carries it: the laws of how they agree. No code.

ghost use Rattle.cat_threads.specs.sharing.ShareLaws.{FreshShare, ViewsShare};
ghost use Rattle.cat_threads.specs.sharing.Laws.{CountsAgree, FreshAgree, NewestAgree, NotedAgree, PrunedAgree, RefreshAgrees, StillAgree, ViewsAgree};

/// A ledger as it is opened agrees with the empty list.
pub fn fresh_agree()
    ensures { FreshAgree }
{}

/// The number of writes is that of the start and of the list.
pub fn counts_agree()
    ensures { CountsAgree }
{}

/// The newest view has the scribe's token.
pub fn newest_agree()
    ensures { NewestAgree }
{}

/// Each recorded view shows the table of the list at its token.
pub fn views_agree()
    ensures { ViewsAgree }
{}

/// A write that is answered is one more of the list.
pub fn noted_agree()
    ensures { NotedAgree }
{}

/// A refresh that is answered makes the scribe's token that of now.
pub fn recorded_agree()
    ensures { RefreshAgrees }
{}

/// Pruning leaves the newest view.
pub fn pruned_agree()
    ensures { PrunedAgree }
{}

/// What else is answered changes neither.
pub fn still_agree()
    ensures { StillAgree }
{}

/// A ledger as it is opened shares the empty list, over its own rows.
pub fn fresh_share()
    ensures { FreshShare }
{}

/// Each recorded view shows the table of the list at its token, whatever start has the rows.
pub fn views_share()
    ensures { ViewsShare }
{}
