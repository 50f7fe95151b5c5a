//! What is wrong with the members of an item.
ghost use Rattle.std.specs.Prelude.{◌≡◌};
ghost use Rattle.serde_json.specs.View.{view, items_view, members_view};
ghost use Rattle.cat_items.specs.Kinds.{field_kind_of};
ghost use Rattle.cat_items.specs.Reading.{some_label_fault, list_fault, value_fault, member_fault, first_fault};

use crate::forms::{keyword_fault, label_fault};
use crate::schema::{Field, Kind, kind_of};
use cat_base::{MAX_LABELS, Refusal};
use serde_json::{Map, Value};

fn some_label_fault(label: &Value) -> Option<Refusal>
    ensures { result ≡ some_label_fault (view label.now) }
{
    match label.as_str() {
        Some(text) => label_fault(text),
        None => Some(Refusal::Kind),
    }
}

fn list_fault(labels: &Vec<Value>) -> Option<Refusal>
    ensures { result ≡ list_fault (items_view labels.now.items) }
{
    if labels.len() > MAX_LABELS {
        return Some(Refusal::Large);
    }
    for label in labels {
        if let Some(fault) = some_label_fault(label) {
            return Some(fault);
        }
    }
    None
}

fn value_fault(kind: Kind, value: &Value) -> Option<Refusal>
    ensures { result ≡ value_fault (field_kind_of kind) (view value.now) }
{
    match kind {
        Kind::Text if value.is_string() => None,
        Kind::Number if value.is_i64() => None,
        Kind::Text | Kind::Number => Some(Refusal::Kind),
        Kind::Keyword => match value.as_str() {
            Some(text) => keyword_fault(text),
            None => Some(Refusal::Kind),
        },
        Kind::Facet => match value.as_array() {
            Some(labels) => list_fault(labels),
            None => Some(Refusal::Kind),
        },
    }
}

fn member_fault(fields: &[Field], name: &str, value: &Value) -> Option<Refusal>
    ensures { result ≡ member_fault fields.now name.now (view value.now) }
{
    if name == "id" {
        return None;
    }
    match kind_of(fields, name) {
        None => Some(Refusal::Member),
        // As if the member were absent.
        Some(_) if value.is_null() => None,
        Some(kind) => value_fault(kind, value),
    }
}

/// The fault of the first member that has one, in byte order of their names.
pub(crate) fn first_fault(fields: &[Field], members: &Map<String, Value>) -> Option<Refusal>
    ensures { result ≡ first_fault fields.now (members_view members.now.entries) }
{
    for (name, value) in members.iter() {
        if let Some(fault) = member_fault(fields, name.as_str(), value) {
            return Some(fault);
        }
    }
    None
}
