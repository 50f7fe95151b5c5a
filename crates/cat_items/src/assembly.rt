//! From a text of JSON to an item.
ghost use Rattle.std.specs.Prelude.{◌≡◌, ◌≢◌, ◌≤◌, ℕ, List, length, map, Some, Ok, Err, All, IfOk, IfErr, IfSome, IsUtf8, option_map, option_and_then};
ghost use Rattle.serde_json.specs.View.{view, items_view};
ghost use Rattle.serde_json.specs.Find.{get, as_str};
ghost use Rattle.cat_base.specs.Texts.{sorted_set};
ghost use Rattle.cat_base.specs.declared.refusal.Refusal.TheVariants.{Memory};
ghost use Rattle.cat_model.specs.Item.{IsItem};
ghost use Rattle.cat_model.specs.Limits.{source_limit};
ghost use Rattle.cat_items.specs.Contents.{field_content_of, IsTyped};
ghost use Rattle.cat_items.specs.Kinds.{field_kind_of};
ghost use Rattle.cat_items.specs.Reading.{label_texts, value_of, json_of, of_value, item_of, source_fault, PassesChecks};

use crate::analysis::words;
use crate::faults::first_fault;
use crate::forms::id_ok;
use crate::item::{FieldValue, Item};
use crate::parsing::read_json;
use crate::schema::{Field, Kind, Schema};
use cat_base::{MAX_ITEM_BYTES, Refusal, Text, TextSet};
use serde_json::Value;
use std::alloc::{AllocError, Global};

// A copy of the text, which is known to be UTF-8.
fn copied(alloc: Global, text: &str) -> Result<Text, AllocError>
    ensures ok { IfOk result (λ t. t ≡ text.now) }
    ensures utf8 { IfOk result (λ t. IsUtf8 t) }
{
    Text::from_str(alloc, text)
}

fn label_set(alloc: Global, labels: &Vec<Value>) -> Result<TextSet, AllocError>
    ensures ok { IfOk result (λ s. s ≡ sorted_set (label_texts (items_view labels.now.items))) }
    ensures utf8 { IfOk result (λ s. All IsUtf8 s) }
{
    let mut texts = Vec::with_capacity(alloc, labels.len())?;
    for label in labels {
        if let Some(text) = label.as_str() {
            texts.push(copied(alloc, text)?)?;
        }
    }
    Ok(TextSet::of(texts))
}

fn value_of(alloc: Global, kind: Kind, member: Option<&Value>) -> Result<FieldValue, AllocError>
    ensures ok { IfOk result (λ v. field_content_of v ≡ value_of (field_kind_of kind) (option_map (λ d. view d.now) member.entry)) }
    ensures typed { IfOk result (λ v. IsTyped (field_content_of v)) }
{
    match kind {
        Kind::Text => match member.and_then(Value::as_str) {
            Some(text) => Ok(FieldValue::Words(words(alloc, text)?)),
            None => Ok(FieldValue::Words(TextSet::new(alloc))),
        },
        Kind::Keyword => match member.and_then(Value::as_str) {
            Some(text) => Ok(FieldValue::Keyword(Some(copied(alloc, text)?))),
            None => Ok(FieldValue::Keyword(None)),
        },
        Kind::Number => Ok(FieldValue::Number(member.and_then(Value::as_i64))),
        Kind::Facet => match member.and_then(Value::as_array) {
            Some(labels) => Ok(FieldValue::Labels(label_set(alloc, labels)?)),
            None => Ok(FieldValue::Labels(TextSet::new(alloc))),
        },
    }
}

fn values_of(alloc: Global, fields: &[Field], root: &Value) -> Result<Vec<FieldValue>, AllocError>
    ensures ok { IfOk result (λ v. map field_content_of v.items
        ≡ map (λ f. value_of f.kind (get f.name (view root.now))) fields.now) }
    ensures typed { IfOk result (λ v. All (λ x. IsTyped (field_content_of x)) v.items) }
{
    let mut values = Vec::with_capacity(alloc, fields.len())?;
    for field in fields {
        let member = root.get(field.name());
        let value = value_of(alloc, field.kind(), member)?;
        values.push(value)?;
    }
    Ok(values)
}

fn text_member<'v>(root: &'v Value, name: &str) -> Option<&'v str>
    ensures { option_map (λ s. s.now) result ≡ option_and_then as_str (get name.now (view root.now)) }
{
    match root.get(name) {
        Some(value) => value.as_str(),
        None => None,
    }
}

// The id of the item that a value of JSON is, where it is one; memory isn't needed to tell.
fn judged_id<'v>(fields: &[Field], root: &'v Value) -> Result<&'v str, Refusal>
    ensures ok { IfOk result (λ id. PassesChecks fields.now (view root.now) id.now) }
    ensures err { IfErr result (λ e. (bytes : List ℕ) → of_value fields.now bytes (view root.now) ≡ Err e) }
{
    let Some(members) = root.as_object() else {
        return Err(Refusal::Kind);
    };
    let Some(id) = text_member(root, "id") else {
        return Err(Refusal::Id);
    };
    if !id_ok(id) {
        return Err(Refusal::Id);
    }
    match first_fault(fields, members) {
        Some(fault) => Err(fault),
        None => Ok(id),
    }
}

impl Schema {
    // The item of a value that was judged to be one, which the bytes are read as.
    fn assembled(
        &self,
        alloc: Global,
        root: &Value,
        id: &str,
        bytes: &[u8],
    ) -> Result<Item, AllocError>
        requires judged { PassesChecks self.now (view root.now) id.now }
        requires small { length bytes.now ≤ source_limit }
        requires read { json_of bytes.now ≡ Some (view root.now) }
        ensures ok { IfOk result (λ i. item_of self.now bytes.now ≡ Ok i) }
        ensures typed { IfOk result (λ i. IsItem self.now i) }
    {
        let values = values_of(alloc, self.fields(), root)?;
        let item = Item::new(
            self.shared()?,
            Text::from_str(alloc, id)?,
            values,
            Vec::from_slice(alloc, bytes)?,
        );
        Ok(item)
    }

    /// The item that a text of JSON is under the schema: an object with a member `id` and, for any of the fields, a
    /// member of the field's name and kind. A member that is null is as if absent; of equal names the last counts.
    ///
    /// The first of these that is so is the refusal: `Refusal::Large` past 8,192 bytes, `Refusal::Json` where the bytes
    /// are no JSON, `Refusal::Kind` where they are no object, `Refusal::Id` without an id of the right form, and then
    /// that of the first wrong member in byte order of names: `Refusal::Member` where no field has the name,
    /// `Refusal::Kind` or `Refusal::Large` where the value is wrong for the field.
    ///
    /// `Refusal::Memory` may come in place of the item, and also in place of a refusal that is known only once the text is
    /// read as JSON, but never of too many bytes, of none, or of bytes that are no UTF-8.
    pub fn item(&self, alloc: Global, bytes: &[u8]) -> Result<Item, Refusal>
        ensures ok { IfOk result (λ i. item_of self.now bytes.now ≡ Ok i) }
        ensures err { IfErr result (λ e. e ≢ Memory → item_of self.now bytes.now ≡ Err e) }
        ensures due { IfSome (source_fault bytes.now) (λ e. result ≡ Err e) }
        ensures typed { IfOk result (λ i. IsItem self.now i) }
    {
        if bytes.len() > MAX_ITEM_BYTES {
            return Err(Refusal::Large);
        }
        let root = read_json(alloc, bytes)?;
        // All is judged before the item grows, so that from here on no want of memory hides a fault.
        let id = judged_id(self.fields(), &root)?;
        Ok(self.assembled(alloc, &root, id, bytes)?)
    }
}
