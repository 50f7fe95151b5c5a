//! What a value means in a field, by the field's kind. It is judged before memory is asked for.
ghost use Rattle.std.specs.Prelude.{◌≡◌, ℕ, List, Some, true, IfOk, option_map};
ghost use Rattle.cat_model.specs.Words.{lowered};
ghost use Rattle.cat_model.specs.Item as item;
ghost use Rattle.cat_model.specs.Query as model;
ghost use Rattle.cat_model.specs.Reader.{integer_of, bound_of, meaning};
ghost use Rattle.cat_segment.specs.cat_items.Kinds.{field_kind_of};
ghost use Rattle.cat_query.specs.Escapes.{unescaped, is_escaped};
ghost use Rattle.cat_query.specs.View.{tested, primary_of};
ghost use Rattle.cat_query.specs.Reading.{JudgesAs, IsEscaped, IsEscapedEnd, asks_of, end_of};

use crate::escapes::unescape;
use crate::query::{Primary, Test};
use crate::runs::{all_word_bytes, only_run};
use crate::scanning::behind;
use crate::values::Value;
use cat_base::Text;
use cat_items::{Kind, lowered};
use std::alloc::{AllocError, Global};

/// What was built, unless memory was refused.
pub(crate) type Built<T> = Result<T, AllocError>;

fn word(alloc: Global, text: &str) -> Built<Test>
    ensures { (f : List ℕ) → IfOk result (λ t. tested f t ≡ model.Primary.word f (lowered text.now)) }
{
    Ok(Test::Word(lowered(alloc, text)?))
}

fn word_prefix(alloc: Global, text: &str) -> Built<Test>
    ensures { (f : List ℕ) → IfOk result (λ t. tested f t ≡ model.Primary.word_prefix f (lowered text.now)) }
{
    Ok(Test::WordPrefix(lowered(alloc, text)?))
}

fn in_text(alloc: Global, value: Value<'_>) -> Option<Built<Test>>
    requires { IsEscaped value }
    ensures { (f : List ℕ) → JudgesAs (tested f) result (meaning f item.Kind.text (asks_of value.entry)) }
{
    match value {
        Value::Is(text) => {
            let run = only_run(text)?;
            Some(word(alloc, run))
        }
        Value::Begins(text) => {
            if !all_word_bytes(text.as_bytes()) {
                return None;
            }
            Some(word_prefix(alloc, text))
        }
        Value::Between(_, _) => None,
    }
}

fn end(alloc: Global, end: Option<&str>) -> Built<Option<Text>>
    ensures { IfOk result (λ t. t ≡ end_of end.entry) }
{
    match end {
        None => Ok(None),
        Some(text) => Ok(Some(unescape(alloc, text)?)),
    }
}

#[tactic(auto, unfolding(cat_model::specs::Reader::meaning))]
fn in_keyword(alloc: Global, value: Value<'_>) -> Built<Test>
    ensures { (f : List ℕ) → IfOk result (λ t. meaning f item.Kind.keyword (asks_of value.entry) ≡ Some (tested f t)) }
{
    match value {
        Value::Is(text) => Ok(Test::Keyword(unescape(alloc, text)?)),
        Value::Begins(text) => Ok(Test::KeywordPrefix(Text::from_str(alloc, text)?)),
        Value::Between(low, high) => Ok(Test::KeywordRange(end(alloc, low)?, end(alloc, high)?)),
    }
}

// The integer that a text is: digits, after a `-` or not. An escaped byte is no digit.
fn integer(text: &str) -> Option<i64>
    requires { is_escaped text.now ≡ true }
    ensures { result ≡ integer_of (unescaped text.now) }
{
    match behind(text, '+') {
        // `parse` would take it.
        Some(_) => None,
        None => text.parse().ok(),
    }
}

fn bound(end: Option<&str>) -> Option<Option<i64>>
    requires { IsEscapedEnd end }
    ensures { result ≡ bound_of (end_of end.entry) }
{
    match end {
        None => Some(None),
        Some(text) => {
            let number = integer(text)?;
            Some(Some(number))
        }
    }
}

#[tactic(auto, unfolding(cat_model::specs::Reader::meaning))]
fn in_number(value: Value<'_>) -> Option<Test>
    requires { IsEscaped value }
    ensures { (f : List ℕ) → option_map (tested f) result ≡ meaning f item.Kind.number (asks_of value.entry) }
{
    match value {
        Value::Is(text) => {
            let number = integer(text)?;
            Some(Test::Number(number))
        }
        Value::Begins(_) => None,
        Value::Between(low, high) => {
            let low = bound(low)?;
            let high = bound(high)?;
            Some(Test::NumberRange(low, high))
        }
    }
}

fn label(alloc: Global, text: &str) -> Built<Test>
    ensures { (f : List ℕ) → IfOk result (λ t. tested f t ≡ model.Primary.label f (unescaped text.now)) }
{
    Ok(Test::Label(unescape(alloc, text)?))
}

fn label_prefix(alloc: Global, text: &str) -> Built<Test>
    ensures { (f : List ℕ) → IfOk result (λ t. tested f t ≡ model.Primary.label_prefix f text.now) }
{
    Ok(Test::LabelPrefix(Text::from_str(alloc, text)?))
}

fn in_facet(alloc: Global, value: Value<'_>) -> Option<Built<Test>>
    ensures { (f : List ℕ) → JudgesAs (tested f) result (meaning f item.Kind.facet (asks_of value.entry)) }
{
    match value {
        Value::Is(text) => Some(label(alloc, text)),
        Value::Begins(text) => Some(label_prefix(alloc, text)),
        Value::Between(_, _) => None,
    }
}

/// The test that a value is in a field of the kind; none where it is wrong there.
pub(crate) fn test(alloc: Global, kind: Kind, value: Value<'_>) -> Option<Built<Test>>
    requires { IsEscaped value }
    ensures { (f : List ℕ) → JudgesAs (tested f) result (meaning f (field_kind_of kind) (asks_of value.entry)) }
{
    match kind {
        Kind::Text => in_text(alloc, value),
        Kind::Keyword => Some(in_keyword(alloc, value)),
        Kind::Number => {
            let test = in_number(value)?;
            Some(Ok(test))
        }
        Kind::Facet => in_facet(alloc, value),
    }
}

/// The test of the field of the name.
pub(crate) fn field_test(alloc: Global, name: &str, test: Built<Test>) -> Built<Primary>
    ensures { (p : model.Primary) → IfOk test (λ t. tested name.now t ≡ p) → IfOk result (λ x. primary_of x ≡ p) }
{
    let test = test?;
    Ok(Primary::Field(Text::from_str(alloc, name)?, test))
}
