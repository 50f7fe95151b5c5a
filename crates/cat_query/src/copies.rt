//! Copies of queries.
ghost use Rattle.std.specs.Prelude.{◌≡◌, IfOk};
ghost use Rattle.cat_query.specs.View.{primary_of, clauses_of, query_of};

use crate::query::{Clause, Primary, Query, Test};
use cat_base::Text;
use std::alloc::{AllocError, Global};

impl Query {
    /// An equal query in memory of its own.
    pub fn copy(&self) -> Result<Query, AllocError>
        ensures ok { IfOk result (λ q. query_of q ≡ query_of self.now) }
    {
        let clauses = copy_clauses(*self.clauses.allocator(), &self.clauses)?;
        Ok(Query { clauses })
    }
}

#[cycle(copying)]
fn copy_clauses(alloc: Global, clauses: &[Clause]) -> Result<Vec<Clause>, AllocError>
    ensures { IfOk result (λ v. clauses_of v.items ≡ clauses_of clauses.now) }
{
    let mut copied = Vec::with_capacity(alloc, clauses.len())?;
    for clause in clauses {
        let primary = copy_primary(alloc, &clause.primary)?;
        copied.push(Clause {
            sign: clause.sign,
            primary,
        })?;
    }
    Ok(copied)
}

#[cycle(copying)]
fn copy_primary(alloc: Global, primary: &Primary) -> Result<Primary, AllocError>
    ensures { IfOk result (λ p. primary_of p ≡ primary_of primary.now) }
{
    match primary {
        Primary::Everything => Ok(Primary::Everything),
        Primary::Group(clauses) => Ok(Primary::Group(copy_clauses(alloc, clauses)?)),
        Primary::Field(name, test) => Ok(Primary::Field(name.copy()?, copy_test(test)?)),
    }
}

fn copy_test(test: &Test) -> Result<Test, AllocError>
    ensures { IfOk result (λ t. t ≡ test.now) }
{
    match test {
        Test::Word(text) => Ok(Test::Word(text.copy()?)),
        Test::WordPrefix(text) => Ok(Test::WordPrefix(text.copy()?)),
        Test::Keyword(text) => Ok(Test::Keyword(text.copy()?)),
        Test::KeywordPrefix(text) => Ok(Test::KeywordPrefix(text.copy()?)),
        Test::KeywordRange(low, high) => Ok(Test::KeywordRange(copy_end(low)?, copy_end(high)?)),
        Test::Number(number) => Ok(Test::Number(*number)),
        Test::NumberRange(low, high) => Ok(Test::NumberRange(*low, *high)),
        Test::Label(text) => Ok(Test::Label(text.copy()?)),
        Test::LabelPrefix(text) => Ok(Test::LabelPrefix(text.copy()?)),
    }
}

fn copy_end(end: &Option<Text>) -> Result<Option<Text>, AllocError>
    ensures { IfOk result (λ o. o ≡ end.now) }
{
    match end {
        Some(text) => Ok(Some(text.copy()?)),
        None => Ok(None),
    }
}
