//! Queries that are made ready for a view, with the sets of rows that are cached for it.
ghost use Rattle.std.specs.Prelude.{◌≡◌, ◌⊎◌, All, IfOk, IfErr, OnOk, true};
ghost use Rattle.cat_base.specs.declared.refusal.Refusal.TheVariants.{Memory, NotHeld};
ghost use Rattle.cat_model.specs.State.{has_hold};
ghost use Rattle.cat_model.specs.View.{segments_of};
ghost use Rattle.cat_ledger_laws.specs.lines.ReadLaws.{IsRecordedAs};
ghost use Rattle.cat_commands.specs.cat_cached_sets.filters.Known.{Knows, Remembers, RemembersBelow};
ghost use Rattle.cat_commands.specs.cat_ledger.Ledgers.{shape_in};
ghost use Rattle.cat_commands.specs.sets.Sets.{HasSets};

use cat_base::{Refusal, SessionNo, Token};
use cat_commands::cat_cached_sets::cache::Key;
use cat_commands::cat_cached_sets::filters::Filters;
use cat_commands::cat_cached_sets::{Query, View};
use cat_commands::cat_ledger::Ledger;
use cat_commands::cat_protocol::Prepared;
use cat_directory::{Directory, Shelf};

/// The query, made ready for the view that the session has a right to under the token, with the sets that are cached: what
/// is asked of it needs no lock. (Lucene: what `IndexSearcher` asks its `LRUQueryCache` for.)
///
/// It goes by the token, and not by a right: one of another ledger may have the same number. [`Refusal::NotHeld`] where the
/// session doesn't hold the token; else [`Refusal::Memory`].
pub(crate) fn prepare<D: Directory + Shelf>(
    ledger: &Ledger<D>,
    filters: &mut Filters,
    session: SessionNo,
    token: Token,
    query: Query,
) -> Result<Prepared, Refusal>
    requires { HasSets filters.old (shape_in ledger.now) }
    ensures query { IfOk result (λ p. p.query ≡ query) }
    ensures view { IfOk result (λ p. IsRecordedAs (shape_in ledger.now).views token p.view) }
    ensures held { OnOk result (has_hold (shape_in ledger.now).holds session token ≡ true) }
    ensures sets { HasSets filters.new (shape_in ledger.now) }
    ensures refusal { IfErr result (λ e. (e ≡ NotHeld) ⊎ (e ≡ Memory)) }
{
    match ledger.held_view(session, token) {
        Some(view) => lend(filters, view, query),
        None => Err(Refusal::NotHeld),
    }
}

/// The query, to be put to the view, with the sets that are cached for the view's segments.
fn lend(filters: &mut Filters, view: &View, query: Query) -> Result<Prepared, Refusal>
    requires { All (Knows filters.old) (segments_of view.now.leaves) }
    ensures ok { IfOk result (λ p. p ≡ record { view = view.now; query = query }) }
    ensures refusal { IfErr result (λ e. e ≡ Memory) }
    ensures known { Remembers filters.old filters.new }
    ensures below { RemembersBelow filters.old filters.new }
{
    // Which segment the key names first doesn't matter.
    let mut key = Key { segment: 0, query };
    let sets = filters.sets_for(&mut key, view.leaves())?;
    Ok(Prepared::with(view, key.query, sets)?)
}
