//! What is asked of a page, and what a page takes of its hits.
ghost use Rattle.std.specs.Prelude.{◌≡◌, ◌≤◌, Err, List, true, IfOk, IfErr};
ghost use Rattle.cat_model.specs.Answer.{answer, can_sort};
ghost use Rattle.cat_model.specs.Item.{Record};
ghost use Rattle.cat_model.specs.Limits.{page_limit};
ghost use Rattle.cat_model.specs.Query as model;
ghost use Rattle.cat_model.specs.View.{Shows};
ghost use Rattle.cat_search.specs.Asks.{read_of};
ghost use Rattle.cat_search.specs.Sorts.{IsOrderOf, sort_of};
ghost use Rattle.cat_search.specs.Views.{IsWantedOf};

use crate::mark_rows::mark_in_leaves;
use crate::sort::{Order, Sort};
use crate::standings::Candidate;
use cat_base::{MAX_PAGE, Refusal, WriteNo};
use cat_items::Schema;
use cat_views::View;

/// What is asked of a page, beside its query (Lucene: the other arguments of `IndexSearcher.searchAfter`).
#[derive(Clone, Copy)]
pub struct Ask<'a> {
    /// How the hits are sorted.
    pub sort: Sort<'a>,
    /// The mark: the page shows hits that come behind the record of this number. Without one it is the first page.
    pub after: Option<WriteNo>,
    /// How many hits the page may show, at most [`MAX_PAGE`].
    pub count: u64,
}

/// An ask that was judged: its field and its mark are found (Lucene: what a `TopFieldCollectorManager` is made of).
#[derive(Drop)]
pub struct Wanted<'a> {
    pub(crate) order: Order<'a>,
    pub(crate) mark: Option<Candidate<'a>>,
    pub(crate) count: usize,
}

impl<'a> Ask<'a> {
    /// The sort by its field in the schema, and the count. It is refused as the page is, whatever records there are:
    /// [`Refusal::Count`] if the count is above [`MAX_PAGE`], then [`Refusal::SortField`] if one can't sort by the field.
    pub(crate) fn resolve(self, schema: &Schema) -> Result<(Order<'a>, usize), Refusal>
        ensures count { IfOk result (λ r. (r.1 ≡ self.entry.count) × (self.entry.count ≤ page_limit)) }
        ensures order { IfOk result (λ r. IsOrderOf schema.now (sort_of self.entry.sort) r.0) }
        ensures sorts { IfOk result (λ r. can_sort schema.now (sort_of self.entry.sort) ≡ true) }
        ensures err { IfErr result (λ e. (q : model.Query) (rs : List Record) → answer schema.now rs (read_of self.entry q) ≡ Err e) }
    {
        if self.count > MAX_PAGE as u64 {
            return Err(Refusal::Count);
        }
        let order = self.sort.resolve(schema)?;
        Ok((order, self.count as usize))
    }
}

impl<'a> Wanted<'a> {
    /// The ask, judged over the view whatever its query is, without memory. The first of these refusals that is due comes:
    /// [`Refusal::Count`] if more hits are asked for than [`MAX_PAGE`], [`Refusal::SortField`] if the sort is not by a number
    /// or keyword field of the schema, [`Refusal::Mark`] if the mark is the number of no live row.
    pub fn of(view: &'a View, ask: Ask<'a>) -> Result<Wanted<'a>, Refusal>
        ensures ok { IfOk result (λ w. IsWantedOf view.now ask.entry w) }
        ensures err { IfErr result (λ e. (q : model.Query) (rs : List Record) → Shows view.now rs
            → answer view.now.schema rs (read_of ask.entry q) ≡ Err e) }
        ensures due { (q : model.Query) (rs : List Record) → Shows view.now rs
            → IfErr (answer view.now.schema rs (read_of ask.entry q)) (λ e. result ≡ Err e) }
    {
        let (order, count) = ask.resolve(view.schema())?;
        let mark = mark_in_leaves(view.leaves(), order, ask.after)?;
        Ok(Wanted { order, mark, count })
    }
}
