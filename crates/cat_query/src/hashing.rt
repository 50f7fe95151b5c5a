//! A query feeds a hasher all of its tree.
ghost use Rattle.std.specs.Prelude.{◌≡◌};
ghost use Rattle.std.specs.Hash as fed;
ghost use Rattle.std.specs.List.{fold};
ghost use Rattle.cat_query.specs.View.{sign_of, primary_of, clauses_of, query_of};
ghost use Rattle.cat_query.specs.Fed.{kind_number, fed_test, fed_sign, fed_primary, fed_query};

use crate::query::{Clause, Primary, Query, Sign, Test};
use cat_base::Text;
use std::hash::{Hash, Hasher};

impl Hash for Query {
    ghost use Rattle.std.specs.Hash.{on_Alike, same_Alike};
    ghost use Rattle.cat_query.specs.Same.{same_query-Decides};

    ghost hash_input = { λ q. fed_query (query_of q) };

    ghost respects_eq = { (on_Alike query_of (same_Alike fed_query same_query-Decides)).fed };

    fn hash<H: Hasher>(&self, state: &mut H) {
        feed_clauses(&self.clauses, state);
    }
}

#[cycle(feeding)]
fn feed_clauses<H: Hasher>(clauses: &[Clause], state: &mut H)
    ensures { state.new ≡ fold H.write state.old (fed_query (clauses_of clauses.now)) }
{
    for clause in clauses {
        feed_sign(clause.sign, state);
        feed_primary(&clause.primary, state);
    }
    state.write_u8(0);
}

fn feed_sign<H: Hasher>(sign: Sign, state: &mut H)
    ensures { state.new ≡ fold H.write state.old (fed_sign (sign_of sign)) }
{
    match sign {
        Sign::Must => state.write_u8(1),
        Sign::MustNot => state.write_u8(2),
        Sign::Should => state.write_u8(3),
    }
}

#[cycle(feeding)]
fn feed_primary<H: Hasher>(primary: &Primary, state: &mut H)
    ensures { state.new ≡ fold H.write state.old (fed_primary (primary_of primary.now)) }
{
    match primary {
        Primary::Everything => state.write_u8(0),
        Primary::Group(clauses) => {
            state.write_u8(10);
            feed_clauses(clauses, state);
        }
        Primary::Field(name, test) => {
            state.write_u8(kind_number(test));
            name.as_str().hash(state);
            feed_test(test, state);
        }
    }
}

fn kind_number(test: &Test) -> u8
    ensures { result ≡ kind_number test.now }
{
    match test {
        Test::Word(_) => 1,
        Test::WordPrefix(_) => 2,
        Test::Keyword(_) => 3,
        Test::KeywordPrefix(_) => 4,
        Test::KeywordRange(_, _) => 5,
        Test::Number(_) => 6,
        Test::NumberRange(_, _) => 7,
        Test::Label(_) => 8,
        Test::LabelPrefix(_) => 9,
    }
}

fn feed_test<H: Hasher>(test: &Test, state: &mut H)
    ensures { state.new ≡ fold H.write state.old (fed_test test.now) }
{
    match test {
        Test::Word(text)
        | Test::WordPrefix(text)
        | Test::Keyword(text)
        | Test::KeywordPrefix(text)
        | Test::Label(text)
        | Test::LabelPrefix(text) => text.as_str().hash(state),
        Test::KeywordRange(low, high) => {
            feed_end(low, state);
            feed_end(high, state);
        }
        Test::Number(number) => number.hash(state),
        Test::NumberRange(low, high) => {
            low.hash(state);
            high.hash(state);
        }
    }
}

fn feed_end<H: Hasher>(end: &Option<Text>, state: &mut H)
    ensures { state.new ≡ fold H.write state.old (fed.option fed.str end.now) }
{
    let end = end.as_ref().map(Text::as_str);
    end.hash(state);
}
