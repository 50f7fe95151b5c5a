//! Queries that are put to views.
ghost use Rattle.std.specs.Prelude.{◌≡◌, ◌≢◌, ◌<◌, List, Ok, Err, length, IfOk, IfErr, IfSome};
ghost use Rattle.std.specs.List.{HoldsAt};
ghost use Rattle.cat_base.specs.declared.refusal.Refusal.TheVariants.{Memory};
ghost use Rattle.cat_model.specs.Answer.{Found};
ghost use Rattle.cat_model.specs.Item.{Record};
ghost use Rattle.cat_model.specs.Query as model;
ghost use Rattle.cat_model.specs.View.{Leaf, Shows, selected};
ghost use Rattle.cat_query.specs.View.{query_of};
ghost use Rattle.cat_search.specs.Rows.{leaf_hits};
ghost use Rattle.cat_views.specs.Sets.{AreSets};
ghost use Rattle.cat_search.specs.declared.ask.Ask.{Ask};
ghost use Rattle.cat_search.specs.Views.{IsAnswerTo, IsWantedOf, ViewsShowRecords, answer_over};

use crate::ask::{Ask, Wanted};
use crate::entries::Page;
use crate::gathering::{first_entries, hits_of, set_at};
use cat_base::Refusal;
use cat_columns::RowSet;
use cat_query::{DocSet, Query};
use cat_views::View;
use std::alloc::{AllocError, Global};
use std::marker::Model;
use std::sync::Arc;

/// A query made ready for a view (Lucene: an `IndexSearcher` over a reader, with a `Query` that it rewrote, as a
/// `Weight`). It owns its parts, so a cache may hand it out and forget it.
///
///     let prepared = Prepared::of(&view, Query::parse(view.schema(), alloc, "color:red")?)?;
///     let ask = Ask { sort: Sort::Rising("price"), after: None, count: 10 };
///     let page = prepared.page(alloc, ask)?;
pub struct Prepared {
    view: View,
    query: Query,
    // For the segments in order what rows the query matches, live or dead, as far as a cache had it.
    sets: Option<Vec<Option<Arc<DocSet>>>>,
}

impl Model for Prepared {
    ghost use Rattle.std.specs.Prelude.{IfSome};
    ghost use Rattle.std.specs.Coded.{codes};
    ghost use Rattle.cat_query.specs.View.{query_of};
    ghost use Rattle.cat_query.specs.contracts.query.Primary as primary;
    ghost use Rattle.cat_views.specs.Sets.{AreSets};
    ghost use Rattle.cat_search.specs.Views as views;

    ghost Value = { views.Prepared };

    ghost coded = { Prim.hlevel (codes, primary.the_row.coded) };

    ghost view = { λ p. record { view = p.view; query = p.query } };

    ghost invariant = { λ p. IfSome p.sets (λ v. AreSets (query_of p.query) p.view.leaves v.items) };
}

impl Drop for Prepared {
    fn drop(self) {
        let Prepared { view, query, sets } = self;
        drop(view);
        drop(query);
        drop(sets);
    }
}

impl Prepared {
    /// The query, to be put to the view, all of which is shared.
    pub fn of(view: &View, query: Query) -> Result<Prepared, AllocError>
        ensures ok { IfOk result (λ p. p ≡ record { view = view.now; query = query }) }
    {
        Ok(Prepared {
            view: view.copy()?,
            query,
            sets: None,
        })
    }

    /// The query, to be put to the view, with the sets that are at hand for the segments of the view, in order: each has the
    /// rows that the query matches, deleted rows too (Lucene: `LRUQueryCache.CachingWrapperWeight`). It answers what a query
    /// without sets does, and looks at no postings of a segment that has its set.
    pub fn with(
        view: &View,
        query: Query,
        sets: Vec<Option<Arc<DocSet>>>,
    ) -> Result<Prepared, AllocError>
        requires { AreSets (query_of query) view.now.leaves sets.items }
        ensures ok { IfOk result (λ p. p ≡ record { view = view.now; query = query }) }
    {
        Ok(Prepared {
            view: view.copy()?,
            query,
            sets: Some(sets),
        })
    }

    /// The view (Lucene: `IndexSearcher.getIndexReader`).
    pub fn view(&self) -> &View
        ensures { result.now ≡ self.now.view }
    {
        &self.view
    }

    /// The query (Lucene: `Weight.getQuery`).
    pub fn query(&self) -> &Query
        ensures { result.now ≡ self.now.query }
    {
        &self.query
    }

    /// The query once more its owner's, where nothing is asked of it any longer. It takes no memory.
    pub fn into_query(self) -> Query
        ensures { query_of result ≡ query_of self.query }
    {
        let Prepared {
            view: _,
            query,
            sets: _,
        } = self;
        query
    }

    /// The live rows of the leaf of this index in the view that the query matches, as a set of the rows of its segment
    /// (Lucene: `Weight.bulkScorer` over a `LeafReaderContext`, with the leaf's `liveDocs`).
    pub fn hits(&self, alloc: Global, index: usize) -> Result<RowSet, AllocError>
        requires { index < length self.now.view.leaves }
        ensures ok { IfOk result (λ s. HoldsAt (λ leaf. selected s leaf.segment.rows ≡ leaf_hits leaf (query_of self.now.query))
            self.now.view.leaves index) }
        ensures long { IfOk result (λ s. HoldsAt (λ leaf. length s ≡ length leaf.segment.rows) self.now.view.leaves index) }
    {
        let leaf = &self.view.leaves()[index];
        let hits = hits_of(alloc, &self.query, set_at(sets_of(&self.sets), index), leaf)?;
        hits.into_rows(alloc)
    }

    /// The page that is asked for of the live rows of the view that the query matches: the first of them behind the mark,
    /// in the order of the sort, and how many it matches at all. The mark is the number of any live row, matched or not;
    /// without one the page is the first.
    ///
    /// Lucene: `IndexSearcher.searchAfter` with a `Sort`, where the mark is the `FieldDoc` of the last hit before. In
    /// order of addition it gathers no more hits than are asked for, and counts the others by blocks of 64 rows.
    ///
    /// The first of the refusals of [`Wanted::of`] that is due comes. Where none of them is due, [`Refusal::Memory`] may come
    /// instead of the page.
    pub fn page(&self, alloc: Global, ask: Ask<'_>) -> Result<Page, Refusal>
        ensures ok { IfOk result (λ page. IsAnswerTo self.now ask.entry (Ok (Found.page page))) }
        ensures err { IfErr result (λ e. e ≢ Memory → IsAnswerTo self.now ask.entry (Err e)) }
        ensures due { (rs : List Record) → Shows self.now.view rs → IfErr (answer_over self.now ask.entry rs) (λ e. result ≡ Err e) }
    {
        let wanted = Wanted::of(&self.view, ask)?;
        Ok(self.page_for(alloc, &wanted)?)
    }

    /// The same page, for an ask that was judged over the view.
    pub fn page_for(&self, alloc: Global, wanted: &Wanted<'_>) -> Result<Page, AllocError>
        ensures { IfOk result (λ page. (ask : Ask) → IsWantedOf self.now.view ask wanted.now → IsAnswerTo self.now ask (Ok (Found.page page))) }
    {
        let sets = sets_of(&self.sets);
        let (total, entries) = first_entries(alloc, self.view.leaves(), &self.query, sets, wanted)?;
        Ok(Page::new(total, entries))
    }
}

/// The sets that are at hand: none where no cache was asked.
fn sets_of(sets: &Option<Vec<Option<Arc<DocSet>>>>) -> &[Option<Arc<DocSet>>]
    ensures { (q : model.Query) (leaves : List Leaf) → IfSome sets.now (λ v. AreSets q leaves v.items) → AreSets q leaves result.now }
{
    match sets {
        Some(sets) => sets,
        None => &[],
    }
}

/// Each view shows some records, so that what is said of all records that a view shows is said of some.
pub fn views_show_records()
    ensures { ViewsShowRecords }
{}
