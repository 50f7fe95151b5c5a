//! The lines that read the table under a token.
ghost use Rattle.std.specs.Prelude.{◌≡◌, ℕ, IfOk, IfErr};
ghost use Rattle.cat_base.specs.declared.refusal.Refusal.TheVariants.{Query as NoQuery};
ghost use Rattle.cat_model.specs.Faults.{Fault};
ghost use Rattle.cat_model.specs.State.{table_under};
ghost use Rattle.cat_service_tests.specs.plain.Exchange.{DoesFind, IsReadQuery, page_reply};
ghost use Rattle.cat_service_tests.specs.plain.Reply.{plain_reply};
ghost use Rattle.cat_service_tests.specs.plain.Tables.{AreItems, NumbersRise};

use crate::plain::catalogue::Plain;
use crate::plain::finding::{find_in, refusal_in};
use crate::plain::pages::Page;
use crate::plain::record::Record;
use crate::plain::recorded::recorded_under;
use crate::plain::reply::Answer;
use cat_base::{Refusal, SessionNo, Token};
use cat_query::Query;
use cat_search::Ask;

impl Plain {
    /// The table as it stood at the token, or none.
    pub(super) fn table_at(&self, token: Token) -> &[Record]
        ensures value { result.now ≡ table_under self.now.state.views token }
        ensures rising { NumbersRise result.now }
        ensures items { AreItems self.now.schema result.now }
    {
        match recorded_under(&self.views, token) {
            Some(view) => view.table(),
            None => &[],
        }
    }

    /// The query that the text spells, or none where memory is wanting for it.
    pub(super) fn query(&self, text: &str) -> Result<Option<Query>, Refusal>
        ensures ok { IfOk result (IsReadQuery self.now.schema text.now) }
        ensures err { IfErr result (λ e. (place : ℕ) × (e ≡ NoQuery place) × Fault self.now.schema text.now place) }
    {
        match Query::parse(&self.schema, self.alloc, text) {
            Ok(query) => Ok(Some(query)),
            Err(refusal) => match refusal {
                Refusal::Memory => Ok(None),
                _ => Err(refusal),
            },
        }
    }

    /// The first hits behind the mark, where the session holds the token: IndexSearcher.searchAfter with a Sort.
    ///
    /// A text that is no query is refused first, then a token that the session doesn't hold, the count, the sort field
    /// and the mark. Want of memory comes last.
    fn find(&self, session: SessionNo, token: Token, ask: Ask, text: &str) -> Result<Page, Refusal>
        ensures { DoesFind self.now session token ask.entry text.now (page_reply result) }
    {
        let query = self.query(text)?;
        if !self.is_holding(session, token) {
            return Err(Refusal::NotHeld);
        }
        let records = self.table_at(token);
        match query {
            Some(query) => find_in(self.alloc, &self.schema, records, query, ask),
            None => Err(refusal_in(&self.schema, records, ask)),
        }
    }

    /// Answers a FIND.
    pub(super) fn answer_find(
        &self,
        session: SessionNo,
        token: Token,
        ask: Ask,
        text: &str,
    ) -> Result<Answer, Refusal>
        ensures { DoesFind self.now session token ask.entry text.now (plain_reply result) }
    {
        Ok(Answer::Found(self.find(session, token, ask, text)?))
    }
}
