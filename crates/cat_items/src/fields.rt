//! The members of an object as the fields of a schema.
ghost use Rattle.std.specs.Prelude.{◌≡◌, ◌≢◌, ◌≤◌, Some, None, Ok, Err, IfOk, IfErr, IsTrue, length, map, is_some, option_map};
ghost use Rattle.std.specs.List.{AllByRecursion};
ghost use Rattle.serde_json.specs.View.{members_view, view};
ghost use Rattle.cat_base.specs.Texts.{IsTextSet};
ghost use Rattle.cat_base.specs.declared.refusal.Refusal.TheVariants.{Memory, Kind as WrongKind};
ghost use Rattle.cat_model.specs.Item.{is_field_name, Schema};
ghost use Rattle.cat_model.specs.Limits.{field_limit};
ghost use Rattle.cat_items.specs.Kinds.{field_kind_of};
ghost use Rattle.cat_items.specs.Reading.{kind_named, field_of, fields_of, schema_in};

use crate::forms::name_ok;
use crate::schema::{Field, Kind};
use cat_base::{MAX_FIELDS, Refusal, Text};
use serde_json::{Map, Value};
use std::alloc::Global;

/// Whether the member is a field.
fn is_field(name: &str, value: &Value) -> bool
    ensures { result ≡ is_some (field_of name.now (view value.now)) }
{
    if !name_ok(name) {
        return false;
    }
    let Some(text) = value.as_str() else {
        return false;
    };
    kind_named(text).is_some()
}

/// Whether each of the members is a field.
fn are_fields(members: &Map<String, Value>) -> bool
    ensures { result ≡ is_some (fields_of (members_view members.now.entries)) }
{
    for (name, value) in members.iter() {
        if !is_field(name.as_str(), value) {
            return false;
        }
    }
    true
}

/// The fields that the members are. All members are judged before the fields grow, so that no want of memory hides a fault.
pub(crate) fn read_fields(
    alloc: Global,
    members: &Map<String, Value>,
) -> Result<Vec<Field>, Refusal>
    ensures ok { IfOk result (λ v. schema_in (members_view members.now.entries) ≡ Some v.items) }
    ensures err { IfErr result (λ e. e ≢ Memory → (e ≡ WrongKind) × (schema_in (members_view members.now.entries) ≡ None)) }
    ensures due { IfErr result (λ e. e ≡ Memory → (fields : Schema) × (schema_in (members_view members.now.entries) ≡ Some fields)) }
    ensures few { IfOk result (λ v. length v.items ≤ field_limit) }
    ensures rising { IfOk result (λ v. IsTextSet (map (λ f. f.name) v.items)) }
    ensures named { IfOk result (λ v. AllByRecursion (λ f. IsTrue (is_field_name f.name)) v.items) }
{
    if members.len() > MAX_FIELDS {
        return Err(Refusal::Kind);
    }
    if !are_fields(members) {
        return Err(Refusal::Kind);
    }
    let mut fields = Vec::new(alloc);
    for (name, value) in members.iter() {
        fields.push(read_field(alloc, name.as_str(), value)?)?;
    }
    Ok(fields)
}

fn read_field(alloc: Global, name: &str, value: &Value) -> Result<Field, Refusal>
    ensures ok { IfOk result (λ f. field_of name.now (view value.now) ≡ Some f) }
    ensures err { IfErr result (λ e. e ≢ Memory → (e ≡ WrongKind)
        × (field_of name.now (view value.now) ≡ None)) }
{
    if !name_ok(name) {
        return Err(Refusal::Kind);
    }
    let Some(text) = value.as_str() else {
        return Err(Refusal::Kind);
    };
    let Some(kind) = kind_named(text) else {
        return Err(Refusal::Kind);
    };
    Ok(Field::new(Text::from_str(alloc, name)?, kind))
}

fn kind_named(text: &str) -> Option<Kind>
    ensures { option_map field_kind_of result ≡ kind_named text.now }
{
    match text {
        "text" => Some(Kind::Text),
        "keyword" => Some(Kind::Keyword),
        "number" => Some(Kind::Number),
        "facet" => Some(Kind::Facet),
        _ => None,
    }
}
