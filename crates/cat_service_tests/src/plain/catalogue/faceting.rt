//! The line that counts labels under a token.
ghost use Rattle.std.specs.Prelude.{◌≡◌, List, Ok, Err, true, false, ltb, option_map, IfOk, IfErr};
ghost use Rattle.cat_model.specs.Answer.{Read, answer, is_facet_kind};
ghost use Rattle.cat_model.specs.Item.{Record, kind_of};
ghost use Rattle.cat_model.specs.Limits.{page_limit};
ghost use Rattle.cat_model.specs.Query as model;
ghost use Rattle.cat_service_tests.specs.plain.Exchange.{DoesFacets};
ghost use Rattle.cat_service_tests.specs.plain.Reply.{plain_reply};
ghost use Rattle.cat_search.specs.cat_items.Kinds.{field_kind_of};

use crate::plain::catalogue::Plain;
use crate::plain::counting::counts_in;
use crate::plain::reply::Answer;
use cat_base::{MAX_PAGE, Refusal, SessionNo, Token};
use cat_items::{Kind, Schema, kind_of};
use std::alloc::AllocError;

/// Whether one counts over fields of the kind.
fn is_facet(kind: Option<Kind>) -> bool
    ensures { result ≡ is_facet_kind (option_map field_kind_of kind) }
{
    matches!(kind, Some(Kind::Facet))
}

/// The count, if one counts over the field and so many labels may be told.
fn count_asked(schema: &Schema, dim: &str, count: u64) -> Result<usize, Refusal>
    ensures count { IfOk result (λ n. n ≡ count) }
    ensures facet { IfOk result (λ n. is_facet_kind (kind_of schema.now dim.now) ≡ true) }
    ensures few { IfOk result (λ n. ltb page_limit count ≡ false) }
    ensures err { IfErr result (λ e. (rs : List Record) (q : model.Query)
        → answer schema.now rs (Read.facets dim.now count (Ok q)) ≡ Err e) }
{
    if !is_facet(kind_of(schema.fields(), dim)) {
        return Err(Refusal::NotFacet);
    }
    if count > MAX_PAGE as u64 {
        return Err(Refusal::Count);
    }
    Ok(count as usize)
}

impl Plain {
    /// Answers a FACETS: the counts over the hits, where the session holds the token.
    ///
    /// A text that is no query is refused first, then a token that the session doesn't hold, a field that isn't a facet, and
    /// the count. Want of memory comes last.
    pub(super) fn answer_facets(
        &self,
        session: SessionNo,
        token: Token,
        dim: &str,
        count: u64,
        text: &str,
    ) -> Result<Answer, Refusal>
        ensures { DoesFacets self.now session token dim.now count text.now (plain_reply result) }
    {
        let query = self.query(text)?;
        if !self.is_holding(session, token) {
            return Err(Refusal::NotHeld);
        }
        let count = count_asked(&self.schema, dim, count)?;
        let Some(query) = query else {
            return Err(Refusal::Memory);
        };
        match counts_in(self.alloc, self.table_at(token), &query, dim, count) {
            Ok(counts) => Ok(Answer::Counts(counts)),
            Err(AllocError) => Err(Refusal::Memory),
        }
    }
}
