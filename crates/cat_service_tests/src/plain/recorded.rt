//! Recorded tables, each under its token, and which of them goes where no more may stand.
ghost use Rattle.std.specs.Prelude.{◌≡◌, ◌≤◌, ◌==◌, ◌++◌, ◌-◌, ◌∷◌, ◌||◌, [], true, false, count_by, filter, find, length, ltb, max, not, option_map, vec_capacity, vec_len, IfOk, IfErr, OnOk, OnErr};
ghost use Rattle.cat_base.specs.declared.refusal.Refusal.TheVariants.{Full};
ghost use Rattle.cat_model.specs.Run.{greatest, is_full};
ghost use Rattle.cat_model.specs.State.{has_view, held_in, tokens, views_pruned};
ghost use Rattle.cat_service_tests.specs.plain.Tables.{IsLeastFree, NumbersRise, lesser_of, views_with_room, without_token};

use crate::plain::holds::{Hold, is_held};
use crate::plain::record::Record;
use cat_base::{MAX_RECORDS, Refusal, Token};
use std::alloc::{AllocError, Global};
use std::marker::Model;

/// The table as it stood at a token, as a searcher that SearcherLifetimeManager records.
#[derive(Drop)]
pub(crate) struct RecordedTable {
    token: Token,
    table: Vec<Record>,
}

impl Model for RecordedTable {
    ghost use Rattle.cat_model.specs.State as model;
    ghost use Rattle.cat_service_tests.specs.plain.Tables.{NumbersRise};

    ghost Value = { model.RecordedTable };

    ghost view = { λ v. record { token = v.token; table = v.table.items } };

    ghost invariant = { λ v. NumbersRise v.table.items };
}

impl RecordedTable {
    pub(crate) fn new(token: Token, table: Vec<Record>) -> RecordedTable
        requires { NumbersRise table.items }
        ensures { result ≡ record { token = token; table = table.items } }
    {
        RecordedTable { token, table }
    }

    pub(crate) fn token(&self) -> Token
        ensures { result ≡ self.now.token }
    {
        self.token
    }

    pub(crate) fn table(&self) -> &[Record]
        ensures value { result.now ≡ self.now.table }
        ensures rising { NumbersRise self.now.table }
    {
        self.table.as_slice()
    }
}

/// Whether a table is recorded under the token.
pub(crate) fn is_recorded(views: &[RecordedTable], token: Token) -> bool
    ensures { result ≡ has_view views.now token }
{
    for view in views {
        if view.token() == token {
            return true;
        }
    }
    false
}

/// The table that is recorded under the token.
pub(crate) fn recorded_under(views: &[RecordedTable], token: Token) -> Option<&RecordedTable>
    ensures { option_map (λ v. v.now) result ≡ find (λ v. v.token == token) views.now }
{
    for view in views {
        if view.token() == token {
            return Some(view);
        }
    }
    None
}

/// The greatest token, or 0 where there is no view.
pub(crate) fn newest(views: &[RecordedTable]) -> Token
    ensures { result ≡ greatest (tokens views.now) }
{
    let mut newest = 0;
    for view in views {
        newest = newest.max(view.token());
    }
    newest
}

/// The lesser of the two tokens, where there are two.
fn lesser(least: Option<Token>, token: Token) -> Option<Token>
    ensures { result ≡ lesser_of least token }
{
    match least {
        Some(other) => Some(other.min(token)),
        None => Some(token),
    }
}

/// The least token that no session holds.
fn least_free(views: &[RecordedTable], holds: &[Hold]) -> Option<Token>
    ensures { IsLeastFree (held_in holds.now) views.now result }
{
    let mut least = None;
    for view in views {
        let token = view.token();
        if !is_held(holds, token) {
            least = lesser(least, token);
        }
    }
    least
}

/// The token of the view that has to go before one more is recorded, if one has to.
pub(crate) fn leaving(views: &[RecordedTable], holds: &[Hold]) -> Result<Option<Token>, Refusal>
    ensures room { IfOk result (λ gone. is_full (held_in holds.now) (tokens views.now) ≡ false) }
    ensures least { IfOk result (λ gone. without_token gone views.now ≡ views_with_room (held_in holds.now) views.now) }
    ensures err { IfErr result (λ e. (e ≡ Full) × (is_full (held_in holds.now) (tokens views.now) ≡ true)) }
{
    if views.len() < MAX_RECORDS {
        return Ok(None);
    }
    match least_free(views, holds) {
        Some(token) => Ok(Some(token)),
        None => Err(Refusal::Full),
    }
}

/// The tokens of the views.
fn tokens_of(alloc: Global, views: &[RecordedTable]) -> Result<Vec<Token>, AllocError>
    ensures ok { IfOk result (λ ts. ts.items ≡ tokens views.now) }
{
    let mut tokens = Vec::with_capacity(alloc, views.len())?;
    for view in views {
        tokens.push(view.token())?;
    }
    Ok(tokens)
}

/// Whether the token is among the greatest so many of these, at least one.
fn is_among_greatest(tokens: &[Token], token: Token, count: u64) -> bool
    ensures { result ≡ ltb (count_by (λ u. ltb token u) tokens.now) (max count 1) }
{
    let mut greater = 0;
    for other in tokens {
        if token < *other {
            greater += 1;
        }
    }
    greater < count.max(1)
}

/// Whether the view of the token stays where views are pruned.
fn stays(token: Token, tokens: &[Token], holds: &[Hold], count: u64) -> bool
    ensures { result ≡ (held_in holds.now token || ltb (count_by (λ u. ltb token u) tokens.now) (max count 1)) }
{
    is_held(holds, token) || is_among_greatest(tokens, token, count)
}

/// Takes out each view that no session holds, but for those of the greatest so many tokens, at least one; answers how
/// many went.
pub(crate) fn prune_views(
    alloc: Global,
    views: &mut Vec<RecordedTable>,
    holds: &[Hold],
    count: u64,
) -> Result<u64, AllocError>
    ensures ok { OnOk result (views.new.items ≡ views_pruned (held_in holds.now) count views.old.items) }
    ensures went { IfOk result (λ n. n ≡ length views.old.items - length views.new.items) }
    ensures err { OnErr result (views.new.items ≡ views.old.items) }
{
    let tokens = tokens_of(alloc, views)?;
    let all = tokens.as_slice();
    let before = views.len();
    views.retain(|view| stays(view.token(), all, holds, count));
    Ok((before - views.len()) as u64)
}

/// Takes the table of the token out.
fn remove_view(views: &mut Vec<RecordedTable>, token: Token)
    ensures items { views.new.items ≡ filter (λ v. not (v.token == token)) views.old.items }
    ensures len { vec_len views.new ≤ vec_len views.old }
    ensures capacity { vec_capacity views.new ≡ vec_capacity views.old }
{
    views.retain(|view| view.token() != token);
}

/// Records the view, in place of the one that goes.
pub(crate) fn record_view(
    views: &mut Vec<RecordedTable>,
    gone: Option<Token>,
    view: RecordedTable,
) -> Result<(), AllocError>
    ensures ok { OnOk result (views.new.items ≡ without_token gone views.old.items ++ view ∷ []) }
    ensures err { OnErr result (views.new.items ≡ views.old.items) }
{
    views.reserve(1)?;
    if let Some(token) = gone {
        remove_view(views, token);
    }
    match views.push(view) {
        Ok(()) => Ok(()),
        Err(_) => unreachable!(),
    }
}
