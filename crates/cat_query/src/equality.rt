//! Equal queries are equal trees.
ghost use Rattle.std.specs.Prelude.{◌≡◌};
ghost use Rattle.std.specs.Ordering.{int_eq};
ghost use Rattle.cat_model.specs.Text.{same_text};
ghost use Rattle.cat_query.specs.View.{sign_of, tested, primary_of, clauses_of, query_of};
ghost use Rattle.cat_query.specs.Same.{same_sign, same_end, same_test, same_primary, same_query};

use crate::query::{Clause, Primary, Query, Sign, Test};
use cat_base::Text;

fn same_sign(a: Sign, b: Sign) -> bool
    ensures { result ≡ same_sign (sign_of a) (sign_of b) }
{
    match a {
        Sign::Must => matches!(b, Sign::Must),
        Sign::MustNot => matches!(b, Sign::MustNot),
        Sign::Should => matches!(b, Sign::Should),
    }
}

fn same_text(a: &Text, b: &Text) -> bool
    ensures { result ≡ same_text a.now b.now }
{
    a == b
}

fn same_text_end(a: &Option<Text>, b: &Option<Text>) -> bool
    ensures { result ≡ same_end same_text a.now b.now }
{
    match (a, b) {
        (None, None) => true,
        (Some(x), Some(y)) => same_text(x, y),
        _ => false,
    }
}

fn same_number_end(a: Option<i64>, b: Option<i64>) -> bool
    ensures { result ≡ same_end int_eq a b }
{
    match (a, b) {
        (None, None) => true,
        (Some(x), Some(y)) => x == y,
        _ => false,
    }
}

fn same_field(name: &Text, test: &Test, other_name: &Text, other: &Test) -> bool
    ensures { result ≡ same_primary (tested name.now test.now) (tested other_name.now other.now) }
{
    same_text(name, other_name) && same_test(test, other)
}

fn same_test(a: &Test, b: &Test) -> bool
    ensures { result ≡ same_test a.now b.now }
{
    match (a, b) {
        (Test::Word(x), Test::Word(y)) => same_text(x, y),
        (Test::WordPrefix(x), Test::WordPrefix(y)) => same_text(x, y),
        (Test::Keyword(x), Test::Keyword(y)) => same_text(x, y),
        (Test::KeywordPrefix(x), Test::KeywordPrefix(y)) => same_text(x, y),
        (Test::KeywordRange(low, high), Test::KeywordRange(other_low, other_high)) => {
            same_text_end(low, other_low) && same_text_end(high, other_high)
        }
        (Test::Number(x), Test::Number(y)) => *x == *y,
        (Test::NumberRange(low, high), Test::NumberRange(other_low, other_high)) => {
            same_number_end(*low, *other_low) && same_number_end(*high, *other_high)
        }
        (Test::Label(x), Test::Label(y)) => same_text(x, y),
        (Test::LabelPrefix(x), Test::LabelPrefix(y)) => same_text(x, y),
        _ => false,
    }
}

#[cycle(same)]
fn same_primary(a: &Primary, b: &Primary) -> bool
    ensures { result ≡ same_primary (primary_of a.now) (primary_of b.now) }
{
    match a {
        Primary::Everything => matches!(b, Primary::Everything),
        Primary::Group(x) => match b {
            Primary::Group(y) => same_clauses(x, y),
            _ => false,
        },
        Primary::Field(n, x) => match b {
            Primary::Field(m, y) => same_field(n, x, m, y),
            _ => false,
        },
    }
}

#[cycle(same)]
fn same_clauses(a: &[Clause], b: &[Clause]) -> bool
    ensures { result ≡ same_query (clauses_of a.now) (clauses_of b.now) }
{
    for (i, x) in a.iter().enumerate() {
        if i >= b.len() {
            return false;
        }
        let y = &b[i];
        if !same_sign(x.sign, y.sign) || !same_primary(&x.primary, &y.primary) {
            return false;
        }
    }
    a.len() == b.len()
}

impl PartialEq for Query {
    ghost use Rattle.std.specs.Cmp.{partial_equiv_from_equiv, on_equiv, decided};
    ghost use Rattle.cat_query.specs.Same.{same_query-Decides};

    ghost eq = { λ a b. same_query (query_of a) (query_of b) };

    ghost laws = { partial_equiv_from_equiv (on_equiv query_of (decided same_query same_query-Decides)) };

    fn eq(&self, other: &Query) -> bool {
        same_clauses(&self.clauses, &other.clauses)
    }
}

impl Eq for Query {
    ghost use Rattle.std.specs.Cmp.{on_equiv, decided};
    ghost use Rattle.cat_query.specs.Same.{same_query-Decides};

    ghost laws = { on_equiv query_of (decided same_query same_query-Decides) };
}
