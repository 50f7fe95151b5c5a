//! Queries are read from left to right, up to the first fault. Where memory is refused, the text is read on all the
//! same, so that a fault that comes later is told; an error is how many bytes are left from the fault on.
ghost use Rattle.std.specs.Prelude.{◌≡◌, true, Ok, Err, IfOk, MatchResult};
ghost use Rattle.cat_model.specs.Query as model;
ghost use Rattle.cat_model.specs.Reader.{ends, gap_at, term_at, everything_at, leaf_at, sign_at, primary_at, clause_at, content_at};
ghost use Rattle.cat_query.specs.View.{sign_of, primary_of, clauses_of};
ghost use Rattle.cat_query.specs.Reading.{ReadsLeaf, ReadsPrimary, ReadsClause, ReadsClauses, then_clause};

use crate::meaning::{Built, field_test, test};
use crate::query::{Clause, Primary, Sign};
use crate::scanning::{behind, behind_all, name, without_spaces};
use crate::values::read_value;
use cat_items::{Field, kind_of};
use std::alloc::Global;

fn term<'a>(
    alloc: Global,
    fields: &[Field],
    text: &'a str,
) -> Result<(Built<Primary>, &'a str), usize>
    ensures { ReadsLeaf result (term_at fields.now text.now) }
{
    let (name, rest) = name(text);
    let Some(kind) = kind_of(fields, name) else {
        return Err(text.len());
    };
    let Some(rest) = behind(rest, ':') else {
        return Err(text.len());
    };
    let Some((value, behind_value)) = read_value(rest) else {
        return Err(rest.len());
    };
    let Some(test) = test(alloc, kind, value) else {
        return Err(rest.len());
    };
    Ok((field_test(alloc, name, test), behind_value))
}

fn everything(text: &str) -> Result<(Built<Primary>, &str), usize>
    ensures { ReadsLeaf result (everything_at text.now) }
{
    match behind_all(text, "*:*") {
        Some(rest) => Ok((Ok(Primary::Everything), rest)),
        None => Err(text.len()),
    }
}

// A primary that is no group.
#[tactic(auto, unfolding(cat_model::specs::Reader::leaf_at))]
fn leaf<'a>(
    alloc: Global,
    fields: &[Field],
    text: &'a str,
) -> Result<(Built<Primary>, &'a str), usize>
    ensures { ReadsLeaf result (leaf_at fields.now text.now) }
{
    match text.as_bytes() {
        [] => Err(0),
        [b'*', ..] => everything(text),
        _ => term(alloc, fields, text),
    }
}

fn sign(text: &str) -> (Sign, &str)
    ensures { (sign_of result.0, result.1.now) ≡ sign_at text.now }
{
    if let Some(rest) = behind(text, '+') {
        return (Sign::Must, rest);
    }
    if let Some(rest) = behind(text, '-') {
        return (Sign::MustNot, rest);
    }
    (Sign::Should, text)
}

fn is_end(text: &str) -> bool
    ensures { result ≡ ends text.now }
{
    match text.as_bytes() {
        [] => true,
        [b, ..] => *b == b')',
    }
}

// What stands behind the spaces after a primary.
fn gap(text: &str) -> Result<&str, usize>
    ensures { MatchResult result (λ rest. gap_at text.now ≡ Ok rest.now) (λ left. gap_at text.now ≡ Err left) }
{
    match text.as_bytes() {
        [] | [b' ' | b')', ..] => Ok(without_spaces(text)),
        _ => Err(text.len()),
    }
}

fn group(clauses: Built<Vec<Clause>>) -> Built<Primary>
    ensures { (q : model.Query) → IfOk clauses (λ v. clauses_of v.items ≡ q)
        → IfOk result (λ p. primary_of p ≡ model.Primary.group q) }
{
    let clauses = clauses?;
    Ok(Primary::Group(clauses))
}

fn with_clause(
    clauses: Built<Vec<Clause>>,
    sign: Sign,
    primary: Built<Primary>,
) -> Built<Vec<Clause>>
    ensures { (q : model.Query) (p : model.Primary) → IfOk clauses (λ v. clauses_of v.items ≡ q)
        → IfOk primary (λ x. primary_of x ≡ p)
        → IfOk result (λ v. clauses_of v.items ≡ then_clause q (sign_of sign) p) }
{
    let mut clauses = clauses?;
    let primary = primary?;
    clauses.push(Clause { sign, primary })?;
    Ok(clauses)
}

#[cycle(parser)]
fn primary<'a>(
    alloc: Global,
    fields: &[Field],
    levels: usize,
    left: usize,
    text: &'a str,
) -> Result<(Built<Primary>, usize, &'a str), usize>
    ensures { ReadsPrimary result
        (primary_at fields.now (content_at fields.now levels) left text.now) }
{
    let Some(inner) = behind(text, '(') else {
        let (primary, rest) = leaf(alloc, fields, text)?;
        return Ok((primary, left, rest));
    };
    let (clauses, left, rest) = content(alloc, fields, levels, left, inner)?;
    match behind(rest, ')') {
        Some(rest) => Ok((group(clauses), left, rest)),
        None => Err(0),
    }
}

#[cycle(parser)]
fn clause<'a>(
    alloc: Global,
    fields: &[Field],
    levels: usize,
    left: usize,
    text: &'a str,
) -> Result<(Sign, Built<Primary>, usize, &'a str), usize>
    ensures { ReadsClause result (clause_at fields.now (content_at fields.now levels) left text.now) }
{
    if left == 0 {
        return Err(text.len());
    }
    let (sign, rest) = sign(text);
    let (primary, left, rest) = primary(alloc, fields, levels, left - 1, rest)?;
    Ok((sign, primary, left, rest))
}

/// The clauses of a group, or of the whole text, and the rest, which is nothing or begins with `)`. So many groups may
/// stand inside one another, this one among them, and so many clauses may come; the second number of the result is how
/// many of these are left.
#[cycle(parser)]
pub(crate) fn content<'a>(
    alloc: Global,
    fields: &[Field],
    levels: usize,
    left: usize,
    text: &'a str,
) -> Result<(Built<Vec<Clause>>, usize, &'a str), usize>
    ensures gives { ReadsClauses result
        (content_at fields.now levels left text.now) }
    ensures ended { IfOk result (λ x. ends x.2.now ≡ true) }
{
    if levels == 0 {
        return Err(text.len() + 1);
    }
    let mut rest = without_spaces(text);
    if is_end(rest) {
        return Err(rest.len());
    }
    let mut clauses: Built<Vec<Clause>> = Ok(Vec::new(alloc));
    let mut still = left;
    for _turn in 0..left {
        let (sign, first, after, more) = clause(alloc, fields, levels - 1, still, rest)?;
        clauses = with_clause(clauses, sign, first);
        still = after;
        rest = gap(more)?;
        if is_end(rest) {
            return Ok((clauses, still, rest));
        }
    }
    Err(rest.len())
}
