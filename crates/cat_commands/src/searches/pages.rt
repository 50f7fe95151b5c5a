//! FIND: pages of the items that a query matches.
ghost use Rattle.std.specs.Prelude.{◌≡◌, ◌≢◌, ℕ, All, Err, IfErr, IfOk, IfSome, MatchOption, None, Ok, OnErr, OnOk, Result, option_map};
ghost use Rattle.cat_base.specs.declared.refusal.Refusal.{Refusal};
ghost use Rattle.cat_base.specs.declared.refusal.Refusal.TheVariants.{Memory, NotHeld, Query as NoQuery};
ghost use Rattle.cat_model.specs.Answer.{Found, Read};
ghost use Rattle.cat_model.specs.Faults.{Fault};
ghost use Rattle.cat_model.specs.Grammar.{Spells};
ghost use Rattle.cat_model.specs.Heard.{IsQueryOf};
ghost use Rattle.cat_model.specs.Query as model;
ghost use Rattle.cat_cached_sets.specs.cat_query.View.{query_of};
ghost use Rattle.cat_protocol.specs.cat_search.Asks.{read_of};
ghost use Rattle.cat_protocol.specs.cat_search.Sorts.{sort_of};
ghost use Rattle.cat_model.specs.View.{segments_of};
ghost use Rattle.cat_cached_sets.specs.filters.Known.{Knows, Remembers, RemembersBelow};
ghost use Rattle.cat_ledger_laws.specs.lines.ReadLaws.{ReadFinds};
ghost use Rattle.cat_protocol.specs.replies.Reply.{reply_of};
ghost use Rattle.cat_commands.specs.searches.Reads.{GivesDue, MayTell};
ghost use Rattle.cat_commands.specs.searches.Uses.{NotesSpelled, Uses, UsesAndNotes, UsesSpelled};

use crate::searches::asking::read_query;
use crate::searches::preparing::prepare;
use cat_base::Refusal;
use cat_cached_sets::filters::Filters;
use cat_cached_sets::{Query, View};
use cat_items::Schema;
use cat_protocol::replies::Answer;
use cat_protocol::{Ask, Page, Wanted};
use std::alloc::Global;

/// The page of the live rows of the view that the query matches. The sets that are at hand for the query are used, also where
/// the page is refused; the query is noted where the page is told.
fn page_of(
    alloc: Global,
    view: &View,
    filters: &mut Filters,
    ask: Ask<'_>,
    query: Query,
) -> Result<Page, Refusal>
    requires { All (Knows filters.old) (segments_of view.now.leaves) }
    ensures ok { IfOk result (λ p. ReadFinds view.now (read_of ask.entry (query_of query)) (Ok (Found.page p))) }
    ensures err { IfErr result (λ e. e ≢ Memory → ReadFinds view.now (read_of ask.entry (query_of query)) (Err e)) }
    ensures due { (q : model.Query) → GivesDue view.now (read_of ask.entry q) result }
    ensures noted { OnOk result (UsesAndNotes (query_of query) view.now filters.old filters.new) }
    ensures used { OnErr result (Uses (query_of query) view.now filters.old filters.new) }
    ensures known { Remembers filters.old filters.new }
    ensures below { RemembersBelow filters.old filters.new }
{
    let prepared = prepare(filters, view, query);
    // What is due without the query is told before the want of memory.
    let wanted = Wanted::of(view, ask)?;
    let prepared = prepared?;
    let page = prepared.page_for(alloc, &wanted)?;
    filters.note(prepared.into_query());
    Ok(page)
}

/// Answers a FIND: a page of the live items that the query matches, of a view that the session holds. (Lucene:
/// `IndexSearcher.searchAfter` over the searcher of `SearcherLifetimeManager.acquire`.)
///
/// The first of these that is so is the refusal: [`Refusal::Query`] where the text has a fault, [`Refusal::NotHeld`] where
/// none is held, [`Refusal::Count`] where more hits are asked for than [`MAX_PAGE`](cat_base::MAX_PAGE),
/// [`Refusal::SortField`] where one can't sort by the field, [`Refusal::Mark`] where the mark is the number of no live row of
/// the view. Where none of these is so, [`Refusal::Memory`] may come instead of the page: it hides no other refusal.
///
/// The sets that are at hand are lent to the query. They count as used from where the text spells a query and the view is
/// held, also where the page is refused after that; but for want of memory, which may leave all as it was. The query is noted
/// where the page is told.
pub fn find(
    alloc: Global,
    schema: &Schema,
    held: Option<&View>,
    filters: &mut Filters,
    ask: Ask<'_>,
    text: &str,
) -> Result<Answer, Refusal>
    requires { IfSome held (λ v. All (Knows filters.old) (segments_of v.now.leaves)) }
    ensures told { (q : Result model.Query Refusal) × IsQueryOf schema.now text.now q
        × MayTell (option_map (λ v. v.now) held.entry) (Read.find ask.entry.count (sort_of ask.entry.sort) ask.entry.after q) (reply_of result) }
    ensures fault { (place : ℕ) → Fault schema.now text.now place → result ≡ Err (NoQuery place) }
    ensures unheld { held.entry ≡ None → ((place : ℕ) → Fault schema.now text.now place → ⊥) → result ≡ Err NotHeld }
    ensures due { IfSome held.entry (λ v. (q : model.Query) → Spells schema.now text.now q → GivesDue v.now (read_of ask.entry q) result) }
    ensures noted { OnOk result (IfSome held.entry (λ v. NotesSpelled schema.now text.now v.now filters.old filters.new)) }
    ensures used { OnErr result (MatchOption held.entry (filters.new ≡ filters.old)
        (λ v. UsesSpelled schema.now text.now v.now filters.old filters.new)) }
    ensures known { Remembers filters.old filters.new }
    ensures below { RemembersBelow filters.old filters.new }
{
    let query = read_query(alloc, schema, text)?;
    let Some(view) = held else {
        return Err(Refusal::NotHeld);
    };
    let Some(query) = query else {
        Wanted::of(view, ask)?;
        return Err(Refusal::Memory);
    };
    let page = page_of(alloc, view, filters, ask, query)?;
    Ok(Answer::Found(page))
}
