//! The arguments of a FIND.
ghost use Rattle.std.specs.Prelude.{ℕ, Option, IfSome, IfNone};
ghost use Rattle.cat_model.specs.Text.{Text};
ghost use Rattle.cat_model.specs.Page as model;
ghost use Rattle.cat_facets.specs.cat_search.Sorts.{sort_of};
ghost use Rattle.cat_protocol.specs.lines.Words.{SpellsFind};

use crate::lines::sort::split_sort;
use crate::lines::words::{split_mark, split_number};
use cat_base::{Token, WriteNo};
use cat_facets::Sort;

/// What a FIND asks for, as it came (Lucene: the arguments of `IndexSearcher.searchAfter`).
#[derive(Clone, Copy)]
pub struct Find<'a> {
    pub token: Token,
    /// The most hits that are to be shown; more may be said than may be asked for.
    pub count: u64,
    pub sort: Sort<'a>,
    /// The number of the record behind which the page begins.
    pub mark: Option<WriteNo>,
    /// The text of the query, in which nothing has been looked at.
    pub query: &'a str,
}

impl<'a> Find<'a> {
    /// Reads `<token> <count> <sort> <mark> <query>`; the query may be empty.
    pub(crate) fn read(text: &'a str) -> Option<Find<'a>>
        ensures found { IfSome result (λ f. SpellsFind text.now f.token f.count (sort_of f.sort) f.mark f.query.now) }
        ensures none { IfNone result ((token count : ℕ) (sort : model.Sort) (mark : Option ℕ) (query : Text)
            → SpellsFind text.now token count sort mark query → ⊥) }
    {
        let (token, rest) = split_number(text)?;
        let (count, rest) = split_number(rest)?;
        let (sort, rest) = split_sort(rest)?;
        let (mark, query) = split_mark(rest)?;
        Some(Find {
            token,
            count,
            sort,
            mark,
            query,
        })
    }
}
