//! The arguments of a FACETS.
ghost use Rattle.std.specs.Prelude.{ℕ, IfSome, IfNone};
ghost use Rattle.cat_model.specs.Text.{Text};
ghost use Rattle.cat_protocol.specs.lines.Words.{SpellsFacets};

use crate::lines::words::{split_name, split_number};
use cat_base::Token;

/// What a FACETS asks for, as it came (Lucene: the arguments of `Facets.getTopChildren`, and the query).
#[derive(Clone, Copy)]
pub struct Facets<'a> {
    pub token: Token,
    /// A name that has the form of a field's; whether the schema has the field isn't looked at.
    pub dimension: &'a str,
    /// The most labels that are to be told; more may be said than may be asked for.
    pub count: u64,
    /// The text of the query, in which nothing has been looked at.
    pub query: &'a str,
}

impl<'a> Facets<'a> {
    /// Reads `<token> <dimension> <count> <query>`; the query may be empty.
    pub(crate) fn read(text: &'a str) -> Option<Facets<'a>>
        ensures found { IfSome result (λ f. SpellsFacets text.now f.token f.dimension.now f.count f.query.now) }
        ensures none { IfNone result ((token : ℕ) (dimension : Text) (count : ℕ) (query : Text)
            → SpellsFacets text.now token dimension count query → ⊥) }
    {
        let (token, rest) = split_number(text)?;
        let (dimension, rest) = split_name(rest)?;
        let (count, query) = split_number(rest)?;
        Some(Facets {
            token,
            dimension,
            count,
            query,
        })
    }
}
