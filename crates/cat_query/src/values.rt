//! Values of a query text. No memory is taken here: a value is the parts of the text that it stands in.
ghost use Rattle.std.specs.Prelude.{◌≡◌, true, IfSome, option_map};
ghost use Rattle.cat_model.specs.Reader.{end_at, closed_end_at, run_at, to_at, bracket_at, range_at, bare_at, value_at};
ghost use Rattle.cat_query.specs.Escapes.{unescaped, is_escaped};
ghost use Rattle.cat_query.specs.Reading.{asks_of, end_of, IsEscaped, IsEscapedEnd};

use crate::escapes::quoted;
use crate::scanning::{bare, behind, behind_all};

/// What a value asks, whatever its field. A text has a backslash before each quote and each backslash, as it has between
/// quotes.
#[derive(Clone, Copy, Drop)]
pub(crate) enum Value<'a> {
    /// This text.
    Is(&'a str),
    /// A text that begins so; this one has no backslash.
    Begins(&'a str),
    /// A text of the range; an end that is `None` is open.
    Between(Option<&'a str>, Option<&'a str>),
}

// The longest bare text, which isn't empty.
fn run(text: &str) -> Option<(&str, &str)>
    ensures parts { option_map (λ x. (x.0.now, x.1.now)) result ≡ run_at text.now }
    ensures plain { IfSome result (λ x. unescaped x.0.now ≡ x.0.now) }
    ensures escaped { IfSome result (λ x. is_escaped x.0.now ≡ true) }
{
    let (front, rest) = bare(text);
    if front.is_empty() {
        return None;
    }
    Some((front, rest))
}

fn closed_end(text: &str) -> Option<(&str, &str)>
    ensures parts { option_map (λ x. (unescaped x.0.now, x.1.now)) result ≡ closed_end_at text.now }
    ensures escaped { IfSome result (λ x. is_escaped x.0.now ≡ true) }
{
    match behind(text, '"') {
        Some(inner) => quoted(inner),
        None => run(text),
    }
}

fn end(text: &str) -> Option<(Option<&str>, &str)>
    ensures parts { option_map (λ x. (end_of x.0, x.1.now)) result ≡ end_at text.now }
    ensures escaped { IfSome result (λ x. IsEscapedEnd x.0) }
{
    if let Some(rest) = behind(text, '*') {
        return Some((None, rest));
    }
    let (text, rest) = closed_end(text)?;
    Some((Some(text), rest))
}

fn to(text: &str) -> Option<&str>
    ensures { option_map (λ x. x.now) result ≡ to_at text.now }
{
    behind_all(text, " TO ")
}

fn bracket(text: &str) -> Option<&str>
    ensures { option_map (λ x. x.now) result ≡ bracket_at text.now }
{
    behind(text, ']')
}

// What stands behind the `[` of a range.
#[tactic(auto, unfolding(cat_model::specs::Reader::range_at))]
fn range(text: &str) -> Option<(Value<'_>, &str)>
    ensures parts { option_map (λ x. (asks_of x.0, x.1.now)) result ≡ range_at text.now }
    ensures escaped { IfSome result (λ x. IsEscaped x.0) }
{
    let (low, rest) = end(text)?;
    let rest = to(rest)?;
    let (high, rest) = end(rest)?;
    let rest = bracket(rest)?;
    Some((Value::Between(low, high), rest))
}

fn bare_value(text: &str) -> Option<(Value<'_>, &str)>
    ensures parts { option_map (λ x. (asks_of x.0, x.1.now)) result ≡ bare_at text.now }
    ensures escaped { IfSome result (λ x. IsEscaped x.0) }
{
    let (text, rest) = run(text)?;
    match behind(rest, '*') {
        Some(more) => Some((Value::Begins(text), more)),
        None => Some((Value::Is(text), rest)),
    }
}

/// The value at the front, and what stands behind it.
pub(crate) fn read_value(text: &str) -> Option<(Value<'_>, &str)>
    ensures parts { option_map (λ x. (asks_of x.0, x.1.now)) result ≡ value_at text.now }
    ensures escaped { IfSome result (λ x. IsEscaped x.0) }
{
    if let Some(inner) = behind(text, '"') {
        let (text, rest) = quoted(inner)?;
        return Some((Value::Is(text), rest));
    }
    match behind(text, '[') {
        Some(inner) => range(inner),
        None => bare_value(text),
    }
}
