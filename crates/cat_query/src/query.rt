//! The parsed query: signed clauses in their order.
ghost use Rattle.std.specs.Prelude.{◌≡◌, true, IsTrue};
ghost use Rattle.cat_model.specs.Query as model;
ghost use Rattle.cat_query.specs.View.{sign_of, primary_of, is_everything};

use cat_base::Text;

/// How a clause counts: `BooleanClause.Occur` in Lucene, without its `FILTER`.
#[derive(Clone, Copy, Drop)]
pub(crate) enum Sign {
    /// `+`: an item that is accepted matches the clause.
    Must,
    /// `-`: an item that is accepted doesn't match the clause.
    MustNot,
    /// No sign: where the list has no `+`, an item that is accepted matches some clause of this sign.
    Should,
}

/// What is asked of a field. The end of a range that is `None` is open; both ends are part of the range.
pub(crate) enum Test {
    /// The text has the word, as by Lucene's `TermQuery`.
    Word(Text),
    /// The text has a word that begins so, as by `PrefixQuery`.
    WordPrefix(Text),
    /// The keyword is this text.
    Keyword(Text),
    /// The keyword begins so.
    KeywordPrefix(Text),
    /// The keyword lies in the range, by bytes, as by `TermRangeQuery`.
    KeywordRange(Option<Text>, Option<Text>),
    /// The number is this one, as by `LongField.newExactQuery`.
    Number(i64),
    /// The number lies in the range, as by `LongField.newRangeQuery`.
    NumberRange(Option<i64>, Option<i64>),
    /// The facet has the label.
    Label(Text),
    /// The facet has a label that begins so.
    LabelPrefix(Text),
}

impl Drop for Test {
    fn drop(self) {
        match self {
            Test::Word(it) => drop(it),
            Test::WordPrefix(it) => drop(it),
            Test::Keyword(it) => drop(it),
            Test::KeywordPrefix(it) => drop(it),
            Test::KeywordRange(a, b) => {
                drop(a);
                drop(b);
            }
            Test::Number(_) => {}
            Test::NumberRange(_, _) => {}
            Test::Label(it) => drop(it),
            Test::LabelPrefix(it) => drop(it),
        }
    }
}

/// What a clause asks.
#[derive(Drop)]
#[cycle(query)]
pub(crate) enum Primary {
    /// Any item matches, as by `MatchAllDocsQuery`.
    Everything,
    /// An item matches that the clauses accept.
    Group(Vec<Clause>),
    /// An item matches whose field of the name passes the test.
    Field(Text, Test),
}

/// A signed primary: Lucene's `BooleanClause`.
#[derive(Drop)]
#[cycle(query)]
pub(crate) struct Clause {
    pub(crate) sign: Sign,
    pub(crate) primary: Primary,
}

/// A query: Lucene's `BooleanQuery`, without scores. Contracts see it as the tree of its clauses, `query_of`; equality
/// and hashes go by the tree.
pub struct Query {
    pub(crate) clauses: Vec<Clause>,
}

impl Drop for Query {
    fn drop(self) {
        let Query { clauses } = self;
        drop(clauses);
    }
}

impl Query {
    ghost use Rattle.cat_model.specs.Item as item;
    ghost use Rattle.cat_model.specs.Query.{matches};
    ghost use Rattle.cat_query.specs.View.{query_of, is_everything};

    /// Whether the query is `*:*` alone, with `+` or without a sign, as is asked of Lucene's `MatchAllDocsQuery` by
    /// `instanceof`. Every item matches it then. Other queries may match every item too.
    pub fn is_everything(&self) -> bool
        ensures value { result ≡ is_everything (query_of self.now) }
        ensures all { IsTrue result → (i : item.Item) → matches (query_of self.now) i ≡ true }
    {
        match self.clauses.as_slice() {
            [clause] => is_lone_everything(clause),
            _ => false,
        }
    }
}

fn is_lone_everything(clause: &Clause) -> bool
    ensures { result ≡ is_everything (model.Query.clause (sign_of clause.now.sign) (primary_of clause.now.primary) model.Query.no_clause) }
{
    match clause.primary {
        Primary::Everything => !matches!(clause.sign, Sign::MustNot),
        _ => false,
    }
}
