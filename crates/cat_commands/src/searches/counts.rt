//! FACETS: counts of the labels of the items that a query matches.
ghost use Rattle.std.specs.Prelude.{◌≡◌, ◌≢◌, ℕ, All, Err, IfErr, IfOk, IfSome, MatchOption, None, Ok, OnErr, OnOk, Result, option_map};
ghost use Rattle.cat_base.specs.declared.refusal.Refusal.{Refusal};
ghost use Rattle.cat_base.specs.declared.refusal.Refusal.TheVariants.{Memory, NotHeld, Query as NoQuery};
ghost use Rattle.cat_model.specs.Answer.{Found, Read};
ghost use Rattle.cat_model.specs.Faults.{Fault};
ghost use Rattle.cat_model.specs.Grammar.{Spells};
ghost use Rattle.cat_model.specs.Heard.{IsQueryOf};
ghost use Rattle.cat_model.specs.Query as model;
ghost use Rattle.cat_cached_sets.specs.cat_query.View.{query_of};
ghost use Rattle.cat_model.specs.View.{segments_of};
ghost use Rattle.cat_cached_sets.specs.filters.Known.{Knows, Remembers, RemembersBelow};
ghost use Rattle.cat_protocol.specs.cat_facets.Kept.{KnowsIn, RemembersOf, RemembersOfBelow};
ghost use Rattle.cat_ledger_laws.specs.lines.ReadLaws.{ReadFinds};
ghost use Rattle.cat_protocol.specs.replies.Reply.{reply_of};
ghost use Rattle.cat_commands.specs.searches.Reads.{GivesDue, MayTell};
ghost use Rattle.cat_commands.specs.searches.Uses.{NotesSpelled, Uses, UsesAndNotes, UsesSpelled};

use crate::searches::asking::read_query;
use crate::searches::preparing::prepare;
use cat_base::Refusal;
use cat_cached_sets::filters::Filters;
use cat_cached_sets::{Query, View};
use cat_items::Schema;
use cat_protocol::replies::Answer;
use cat_protocol::{Facets, ReaderStates, WantedCounts};
use std::alloc::Global;

/// The counts over the live rows of the view that the query matches. The sets that are at hand for the query are used, also
/// where the counts are refused; the query is noted where they are told.
fn counts_of(
    alloc: Global,
    view: &View,
    filters: &mut Filters,
    states: &mut ReaderStates,
    dimension: &str,
    count: u64,
    query: Query,
) -> Result<Facets, Refusal>
    requires cached { All (Knows filters.old) (segments_of view.now.leaves) }
    requires kept { All (KnowsIn states.old) (segments_of view.now.leaves) }
    ensures ok { IfOk result (λ f. ReadFinds view.now (Read.facets dimension.now count (Ok (query_of query))) (Ok (Found.facets f))) }
    ensures err { IfErr result (λ e. e ≢ Memory → ReadFinds view.now (Read.facets dimension.now count (Ok (query_of query))) (Err e)) }
    ensures due { (q : model.Query) → GivesDue view.now (Read.facets dimension.now count (Ok q)) result }
    ensures noted { OnOk result (UsesAndNotes (query_of query) view.now filters.old filters.new) }
    ensures used { OnErr result (Uses (query_of query) view.now filters.old filters.new) }
    ensures known { Remembers filters.old filters.new }
    ensures below { RemembersBelow filters.old filters.new }
    ensures kept { RemembersOf (segments_of view.now.leaves) states.old states.new }
    ensures kept_below { RemembersOfBelow (segments_of view.now.leaves) states.old states.new }
{
    let prepared = prepare(filters, view, query);
    // What is due without the query is told before the want of memory.
    let wanted = WantedCounts::of(view, dimension, count)?;
    let prepared = prepared?;
    let facets = states.counts(alloc, &prepared, &wanted)?;
    filters.note(prepared.into_query());
    Ok(facets)
}

/// Answers a FACETS: how many of the live items that the query matches have each label of the dimension, of a view that the
/// session holds. (Lucene: `SortedSetDocValuesFacetCounts.getTopChildren` over the searcher of
/// `SearcherLifetimeManager.acquire`.)
///
/// The first of these that is so is the refusal: [`Refusal::Query`] where the text has a fault, [`Refusal::NotHeld`] where
/// none is held, [`Refusal::NotFacet`] where the dimension is no facet field of the view's schema,
/// [`Refusal::Count`] where more counts are asked for than [`MAX_PAGE`](cat_base::MAX_PAGE). Where none of these is so,
/// [`Refusal::Memory`] may come instead of the counts, also where the view has 2^32 labels or more: it hides no other refusal.
///
/// The sets that are at hand are lent to the query; so is the kept state of the view's segments, or it is made and kept. The
/// sets count as used from where the text spells a query and the view is held, also where the counts are refused after that;
/// but for want of memory, which may leave all as it was. The query is noted where counts are told.
pub fn count_facets(
    alloc: Global,
    schema: &Schema,
    held: Option<&View>,
    filters: &mut Filters,
    states: &mut ReaderStates,
    dimension: &str,
    count: u64,
    text: &str,
) -> Result<Answer, Refusal>
    requires cached { IfSome held (λ v. All (Knows filters.old) (segments_of v.now.leaves)) }
    requires kept { IfSome held (λ v. All (KnowsIn states.old) (segments_of v.now.leaves)) }
    ensures told { (q : Result model.Query Refusal) × IsQueryOf schema.now text.now q
        × MayTell (option_map (λ v. v.now) held.entry) (Read.facets dimension.now count q) (reply_of result) }
    ensures fault { (place : ℕ) → Fault schema.now text.now place → result ≡ Err (NoQuery place) }
    ensures unheld { held.entry ≡ None → ((place : ℕ) → Fault schema.now text.now place → ⊥) → result ≡ Err NotHeld }
    ensures due { IfSome held.entry (λ v. (q : model.Query) → Spells schema.now text.now q
        → GivesDue v.now (Read.facets dimension.now count (Ok q)) result) }
    ensures noted { OnOk result (IfSome held.entry (λ v. NotesSpelled schema.now text.now v.now filters.old filters.new)) }
    ensures used { OnErr result (MatchOption held.entry (filters.new ≡ filters.old)
        (λ v. UsesSpelled schema.now text.now v.now filters.old filters.new)) }
    ensures known { Remembers filters.old filters.new }
    ensures below { RemembersBelow filters.old filters.new }
    ensures kept { MatchOption held.entry (states.new ≡ states.old)
        (λ v. RemembersOf (segments_of v.now.leaves) states.old states.new) }
    ensures kept_below { MatchOption held.entry (states.new ≡ states.old)
        (λ v. RemembersOfBelow (segments_of v.now.leaves) states.old states.new) }
{
    let query = read_query(alloc, schema, text)?;
    let Some(view) = held else {
        return Err(Refusal::NotHeld);
    };
    let Some(query) = query else {
        WantedCounts::of(view, dimension, count)?;
        return Err(Refusal::Memory);
    };
    let facets = counts_of(alloc, view, filters, states, dimension, count, query)?;
    Ok(Answer::Counts(facets))
}
