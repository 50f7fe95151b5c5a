//! Lines that read a view that a session holds. The page, the counts and the text are made without the service's lock, and no line
//! waits for it.
ghost use Rattle.std.specs.Prelude.{◌≡◌, ◌⊎◌, [], IfOk, IfSome, None, Some, option_map};
ghost use Rattle.cat_threads.specs.cat_commands.cat_cached_sets.filters.Known.{Knows};
ghost use Rattle.cat_model.specs.View.{IsView, Segment};
ghost use Rattle.cat_model.specs.Answer.{Read};
ghost use Rattle.cat_threads.specs.cat_commands.cat_protocol.cat_search.Sorts.{sort_of};
ghost use Rattle.cat_threads.specs.cat_commands.cat_protocol.replies.Reply.{reply_of};
ghost use Rattle.cat_threads.specs.service.Passes.{Follows, Idle, Seen};
ghost use Rattle.cat_callers.specs.Sessions.{AreRightsTo, IsRightTo, ShowsSeen};
ghost use Rattle.cat_callers.specs.Told.{ToldGet, ToldQuery};

use crate::front::Front;
use crate::holdings::Holdings;
use cat_base::{Refusal, Token};
use cat_directory::{Directory, Shelf};
use cat_items::id_ok;
use cat_threads::cat_cached_sets::filters::Filters;
use cat_threads::cat_cached_sets::{Hold, Query, View};
use cat_threads::cat_protocol::lines::{Facets, Find};
use cat_threads::cat_protocol::replies::Answer;
use cat_threads::cat_protocol::{Prepared, ReaderStates};
use cat_threads::{Ask, Naming, Pass, searches};
use std::alloc::{AllocError, Global};
use std::sync::Wait;

/// The sets that are kept, of which there are none, with the queries that are noted; they are taken out.
fn take_filters(alloc: Global, kept: &mut Option<Filters>) -> Result<Filters, AllocError>
    requires { IfSome kept.old (λ f. (s : Segment) → Knows f s) }
    ensures known { IfOk result (λ f. (s : Segment) → Knows f s) }
    ensures none { kept.new ≡ None }
{
    match kept.take() {
        Some(filters) => Ok(filters),
        None => Filters::new(alloc),
    }
}

/// The states of the view of the token, which are taken out. Those of another are given up.
fn take_states(
    alloc: Global,
    token: Token,
    kept: &mut Option<(Token, ReaderStates)>,
) -> Result<ReaderStates, AllocError>
    ensures known { IfOk result (λ s. (s ≡ []) ⊎ (kept.old ≡ Some (token, s))) }
    ensures none { kept.new ≡ None }
{
    match kept.take() {
        Some((of, states)) if of == token => Ok(states),
        _ => ReaderStates::new(alloc),
    }
}

/// The view that the right is to, whose segments have different numbers.
fn view_of(right: Option<&Hold>) -> Option<&View>
    ensures view { option_map (λ v. v.now) result ≡ option_map (λ h. h.now.view) right.entry }
    ensures differ { IfSome result (λ v. IsView v.now) }
{
    let hold = right?;
    let view = hold.view();
    let _leaves = view.leaves();
    Some(view)
}

/// What a FIND asks for beside its query.
fn ask_of<'a>(find: &Find<'a>) -> Ask<'a>
    ensures { (result.count ≡ find.now.count) × (result.after ≡ find.now.mark) × (sort_of result.sort ≡ sort_of find.now.sort) }
{
    Ask {
        sort: find.sort,
        after: find.mark,
        count: find.count,
    }
}

/// Whether sets of rows may make the query's pages cheaper: all live rows and those of a range are at hand without.
fn gains_by_sets(query: &Query) -> bool {
    !query.is_everything() && query.number_range().is_none()
}

impl<'a, D: Directory + Shelf, J: Naming, R: Wait> Front<'a, D, J, R> {
    /// The query, made ready for the view that the right is to. Where it is asked again, the sets of rows that are cached for it are
    /// lent by the service, if its lock is free.
    fn ready(
        &self,
        me: &mut Pass<J>,
        hold: &Hold,
        query: Query,
        again: bool,
    ) -> Result<Prepared, AllocError>
        requires { IsRightTo J.from me.old hold.now.view.token hold.now }
        ensures seen { Follows me.old me.new }
        ensures idle { Idle me.old me.new }
        ensures query { IfOk result (λ p. p.query ≡ query) }
        ensures shown { IfOk result (λ p. ShowsSeen J.from me.old hold.now.view.token p.view) }
    {
        if !again {
            return Prepared::of(hold.view(), query);
        }
        match self
            .service
            .prepare_if_free(self.rt, me, hold.token(), query)
        {
            Ok(Ok(prepared)) => Ok(prepared),
            Ok(Err(_)) => Err(AllocError),
            Err(query) => Prepared::of(hold.view(), query),
        }
    }

    /// Notes a query that was asked again and answered, if the lock is free: a set is made for it beside the lines.
    fn note(&self, query: Query, again: bool) {
        if again {
            let _noted = self.service.note_if_free(query);
        }
    }

    /// Answers a FIND.
    pub(crate) fn find(
        &self,
        me: &mut Pass<J>,
        holdings: &Holdings,
        find: Find<'_>,
    ) -> Result<Answer, Refusal>
        requires own { holdings.now.session ≡ me.old.session }
        requires rights { AreRightsTo J.from me.old holdings.now.rights }
        ensures seen { Follows me.old me.new }
        ensures idle { Idle me.old me.new }
        ensures told { ToldQuery J.from me.old holdings.now.rights find.entry.token find.entry.query.now
            (Read.find find.entry.count (sort_of find.entry.sort) find.entry.mark) (reply_of result) }
    {
        let ask = ask_of(&find);
        let query = match Query::parse(self.schema, self.alloc, find.query) {
            Ok(query) => query,
            Err(refusal) => return Err(refusal),
        };
        let Some(hold) = holdings.rights.get(holdings.number, find.token) else {
            return Err(Refusal::NotHeld);
        };
        let again = gains_by_sets(&query) && self.asked.again(find.query);
        let Ok(prepared) = self.ready(me, hold, query, again) else {
            return Err(Refusal::Memory);
        };
        match prepared.page(self.alloc, ask) {
            Ok(page) => {
                self.note(prepared.into_query(), again);
                Ok(Answer::Found(page))
            }
            Err(refusal) => Err(refusal),
        }
    }
}

impl<'a, D: Directory + Shelf, J: Naming, R> Front<'a, D, J, R> {
    /// Answers a FACETS. The states are kept of the view that was counted last.
    pub(crate) fn count_facets(
        &self,
        holdings: &mut Holdings,
        facets: Facets<'_>,
    ) -> Result<Answer, Refusal>
        ensures same { holdings.new ≡ holdings.old }
        ensures told { (v : Seen) → v.session ≡ holdings.old.session → AreRightsTo J.from v holdings.old.rights
            → ToldQuery J.from v holdings.old.rights facets.entry.token facets.entry.query.now
            (Read.facets facets.entry.dimension.now facets.entry.count) (reply_of result) }
    {
        let right = holdings.rights.get(holdings.number, facets.token);
        let held = view_of(right);
        let Ok(mut filters) = take_filters(self.alloc, &mut holdings.filters) else {
            return Err(Refusal::Memory);
        };
        let Ok(mut states) = take_states(self.alloc, facets.token, &mut holdings.states) else {
            return Err(Refusal::Memory);
        };
        let answer = searches::count_facets(
            self.alloc,
            self.schema,
            held,
            &mut filters,
            &mut states,
            facets.dimension,
            facets.count,
            facets.query,
        );
        holdings.filters = Some(filters);
        holdings.states = Some((facets.token, states));
        answer
    }

    /// Answers a GET, from the session's own shelf.
    pub(crate) fn get<S: Shelf>(
        &self,
        holdings: &Holdings,
        shelf: &mut S,
        token: Token,
        id: &str,
    ) -> Result<Answer, Refusal>
        ensures { ToldGet (S.bytes shelf.old) holdings.now.session holdings.now.rights token id.now (reply_of result) }
    {
        if !id_ok(id) {
            return Err(Refusal::Id);
        }
        let Some(hold) = holdings.rights.get(holdings.number, token) else {
            return Err(Refusal::NotHeld);
        };
        match hold.get(self.alloc, shelf, id) {
            Ok(found) => Ok(Answer::Source(found)),
            Err(refusal) => Err(refusal),
        }
    }
}
