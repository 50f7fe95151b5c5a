//! Queries from texts.
ghost use Rattle.std.specs.Prelude.{◌≡◌, ◌⊎◌, ◌+◌, ℕ, Result, Err, IfOk, IfErr};
ghost use Rattle.cat_base.specs.declared.refusal.Refusal.{Refusal};
ghost use Rattle.cat_base.specs.declared.refusal.Refusal.TheVariants.{Memory, Query as Unreadable};
ghost use Rattle.cat_model.specs.Limits.{clause_limit, depth_limit};
ghost use Rattle.cat_model.specs.Reader.{read_query, content_at};
ghost use Rattle.cat_query.specs.View.{query_of};
ghost use Rattle.cat_query.specs.Reading.{ReadsAll, IsReadAs, all_of};

use crate::meaning::Built;
use crate::query::{Clause, Query};
use crate::reading::content;
use cat_base::{MAX_CLAUSES, MAX_DEPTH, Refusal};
use cat_items::{Field, Schema};
use std::alloc::Global;

fn clauses(alloc: Global, fields: &[Field], text: &str) -> Result<Built<Vec<Clause>>, usize>
    ensures { ReadsAll result (all_of (content_at fields.now (depth_limit + 1) clause_limit text.now)) }
{
    // The text itself is a level as a group is.
    let (clauses, _left, rest) = content(alloc, fields, MAX_DEPTH + 1, MAX_CLAUSES, text)?;
    if rest.is_empty() {
        Ok(clauses)
    } else {
        Err(rest.len())
    }
}

impl Query {
    ghost use Rattle.cat_model.specs.Faults.{Fault};
    ghost use Rattle.cat_model.specs.Grammar.{Spells};
    ghost use Rattle.cat_model.specs.Heard.{IsQueryOf};
    ghost use Rattle.cat_model.specs.Item.{IsSchema};
    ghost use Rattle.cat_model.specs.Query as model;

    /// The query that a text spells, in a language of our own in the manner of Lucene's classic `QueryParser`.
    ///
    /// `Refusal::Query` has the place of the first fault, in bytes from the text's beginning. `Refusal::Memory` comes
    /// where the text has no fault and memory is refused. Whatever memory does, the text is a query or has a fault.
    pub fn parse(schema: &Schema, alloc: Global, text: &str) -> Result<Query, Refusal>
        ensures ok { IfOk result (λ q. Spells schema.now text.now (query_of q)) }
        ensures err { IfErr result (λ e. (e ≡ Memory)
            ⊎ ((place : ℕ) × (e ≡ Unreadable place) × Fault schema.now text.now place)) }
        ensures due { (place : ℕ) → Fault schema.now text.now place → result ≡ Err (Unreadable place) }
        ensures judged { (q : Result model.Query Refusal) × IsQueryOf schema.now text.now q }
    {
        Query::read(schema, alloc, text)
    }

    /// What the reader of the definitions gives.
    fn read(schema: &Schema, alloc: Global, text: &str) -> Result<Query, Refusal>
        ensures gives { IsReadAs result (read_query schema.now text.now) }
        ensures under { IsSchema schema.now }
    {
        match clauses(alloc, schema.fields(), text) {
            Ok(clauses) => Ok(Query { clauses: clauses? }),
            Err(left) => Err(Refusal::Query(text.len().saturating_sub(left))),
        }
    }
}
