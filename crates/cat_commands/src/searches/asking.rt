//! The query of a read, as far as memory lets it be read.
ghost use Rattle.std.specs.Prelude.{◌≡◌, ℕ, Err, IfErr, IfOk, IfSome, OnErr, OnOk};
ghost use Rattle.cat_base.specs.declared.refusal.Refusal.TheVariants.{Query as NoQuery};
ghost use Rattle.cat_model.specs.Faults.{Fault};
ghost use Rattle.cat_model.specs.Grammar.{Spells};
ghost use Rattle.cat_model.specs.Query as model;
ghost use Rattle.cat_cached_sets.specs.cat_query.View.{query_of};

use cat_base::{MAX_FIELDS, Refusal};
use cat_cached_sets::Query;
use cat_items::Schema;
use std::alloc::Global;

/// The query that the text spells, and none where memory is refused: the text is a query then all the same.
///
/// [`Refusal::Query`] where the text has a fault, and only then.
pub(crate) fn read_query(
    alloc: Global,
    schema: &Schema,
    text: &str,
) -> Result<Option<Query>, Refusal>
    ensures ok { IfOk result (λ found. IfSome found (λ q. Spells schema.now text.now (query_of q))) }
    ensures spelled { OnOk result ((q : model.Query) × Spells schema.now text.now q) }
    ensures err { IfErr result (λ e. (place : ℕ) × (e ≡ NoQuery place) × Fault schema.now text.now place) }
    ensures unspelled { OnErr result ((q : model.Query) → Spells schema.now text.now q → ⊥) }
    ensures due { (place : ℕ) → Fault schema.now text.now place → result ≡ Err (NoQuery place) }
{
    // Under the rules of a schema no text both spells a query and has a fault.
    prove!(schema.fields().len() <= MAX_FIELDS);
    match Query::parse(schema, alloc, text) {
        Ok(query) => Ok(Some(query)),
        Err(refusal) => match refusal {
            Refusal::Memory => Ok(None),
            _ => Err(refusal),
        },
    }
}
