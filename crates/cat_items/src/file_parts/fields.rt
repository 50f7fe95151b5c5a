//! The fields of a schema, read.
ghost use Rattle.std.specs.Prelude.{◌≡◌, ◌≢◌, ◌↔◌, ◌⊎◌, ◌≤◌, ℕ, List, ◌++◌, map, IfOk, IfErr, IsTrue};
ghost use Rattle.std.specs.List.{AllByRecursion};
ghost use Rattle.cat_base.specs.Texts.{IsTextSet};
ghost use Rattle.cat_base.specs.declared.refusal.Refusal.TheVariants.{Memory, Damaged};
ghost use Rattle.cat_model.specs.Item as model;
ghost use Rattle.cat_model.specs.Layout.{spelled_fields};
ghost use Rattle.cat_model.specs.Limits.{field_limit};
ghost use Rattle.cat_items.specs.Kinds.{field_kind_of};
ghost use Rattle.cat_items.specs.file_parts.Reading.{Finds, Gives, many_at};
ghost use Rattle.cat_items.specs.file_parts.Layouts.{kind_at, field_at, fields_at};

use crate::file_parts::cursor::{Unreadable, take_str, take_u8, take_u32};
use crate::{Field, Kind, Schema, name_ok};
use arrayvec::ArrayVec;
use cat_base::{Cursor, MAX_FIELDS, Refusal, Text};
use std::alloc::{AllocError, Global};
use std::marker::Model;

/// A field as a file tells it, its name borrowed from the file's bytes.
#[derive(Drop)]
pub(crate) struct FieldHead<'a> {
    name: &'a str,
    kind: Kind,
}

impl<'a> Model for FieldHead<'a> {
    ghost use Rattle.cat_model.specs.Item as model;
    ghost use Rattle.cat_items.specs.Kinds.{field_kind_of};

    ghost Value = { model.Field };

    ghost view = { λ h. record { name = h.name.now; kind = field_kind_of h.kind } };
}

impl<'a> Default for FieldHead<'a> {
    fn default() -> FieldHead<'a> {
        FieldHead {
            name: "",
            kind: Kind::Text,
        }
    }
}

impl<'a> FieldHead<'a> {
    /// The kind.
    pub(crate) fn kind(&self) -> Kind
        ensures { field_kind_of result ≡ self.now.kind }
    {
        self.kind
    }

    fn name(&self) -> &'a str
        ensures { result.now ≡ self.now.name }
    {
        self.name
    }
}

/// The fields that a file tells: as many as a schema may have, and so in no memory of their own.
pub(crate) type FieldHeads<'a> = ArrayVec<FieldHead<'a>, { MAX_FIELDS }>;

#[tactic(auto, unfolding(crate::specs::file_parts::Layouts::kind_at))]
fn read_kind(cursor: &mut Cursor<'_>) -> Result<Kind, Unreadable>
    ensures { Finds (λ k. (field_kind_of k, cursor.new)) result (kind_at cursor.old) }
{
    match take_u8(cursor)? {
        1 => Ok(Kind::Text),
        2 => Ok(Kind::Keyword),
        3 => Ok(Kind::Number),
        4 => Ok(Kind::Facet),
        _ => Err(Unreadable),
    }
}

#[tactic(auto, unfolding(crate::specs::file_parts::Layouts::field_at, crate::specs::file_parts::Reading::both_at, crate::specs::file_parts::Reading::where_at))]
fn take_field<'a>(cursor: &mut Cursor<'a>) -> Result<FieldHead<'a>, Unreadable>
    ensures { Finds (λ f. (f, cursor.new)) result (field_at cursor.old) }
{
    let name = take_str(cursor)?;
    let kind = read_kind(cursor)?;
    Ok(FieldHead { name, kind })
}

fn take_each_field<'a>(count: u32, cursor: &mut Cursor<'a>) -> Result<FieldHeads<'a>, Unreadable>
    requires { count ≤ field_limit }
    ensures { Finds (λ v. (v.items, cursor.new)) result (many_at field_at count cursor.old) }
{
    let mut heads = FieldHeads::new();
    for _ in 0..count {
        let one = take_field(cursor)?;
        heads.push(one);
    }
    Ok(heads)
}

fn all_named(heads: &[FieldHead<'_>]) -> bool
    ensures { IsTrue result ↔ AllByRecursion (λ f. IsTrue (model.is_field_name f.name)) heads.now }
{
    heads.iter().all(|head| name_ok(head.name()))
}

fn names_rise(heads: &[FieldHead<'_>]) -> bool
    ensures { IsTrue result ↔ IsTextSet (map (λ f. f.name) heads.now) }
{
    heads.is_sorted_by(|one, next| one.name() < next.name())
}

fn are_schema(heads: &[FieldHead<'_>]) -> bool
    ensures { IsTrue result ↔ model.IsSchema heads.now }
{
    heads.len() <= MAX_FIELDS && all_named(heads) && names_rise(heads)
}

/// The fields that come next, which are those of a schema.
pub(crate) fn take_heads<'a>(cursor: &mut Cursor<'a>) -> Result<FieldHeads<'a>, Unreadable>
    ensures found { Finds (λ v. (v.items, cursor.new)) result (fields_at cursor.old) }
    ensures schema { IfOk result (λ v. model.IsSchema v.items) }
{
    let count = take_u32(cursor)?;
    if count as usize > MAX_FIELDS {
        return Err(Unreadable);
    }
    let heads = take_each_field(count, cursor)?;
    if !are_schema(&heads) {
        return Err(Unreadable);
    }
    Ok(heads)
}

fn fields_of(alloc: Global, heads: &[FieldHead<'_>]) -> Result<Vec<Field>, AllocError>
    ensures { IfOk result (λ v. v.items ≡ heads.now) }
{
    let mut out = Vec::with_capacity(alloc, heads.len())?;
    for head in heads {
        let name = Text::from_str(alloc, head.name())?;
        out.push(Field::new(name, head.kind()))?;
    }
    Ok(out)
}

fn schema_of(alloc: Global, heads: &[FieldHead<'_>]) -> Result<Schema, AllocError>
    requires { model.IsSchema heads.now }
    ensures { IfOk result (λ s. s ≡ heads.now) }
{
    let fields = fields_of(alloc, heads)?;
    // Of the fields of a schema it is made, so that memory alone can fail.
    match Schema::of_fields(alloc, fields) {
        Ok(schema) => Ok(schema),
        Err(_) => Err(AllocError),
    }
}

pub(crate) fn take_fields(alloc: Global, cursor: &mut Cursor<'_>) -> Result<Schema, Refusal>
    ensures gives { Gives (λ s. (s, cursor.new)) result (fields_at cursor.old) }
    ensures due { IfErr result (λ e. e ≡ Memory → (s : model.Schema) × (fields_at cursor.old ≡ Some (s, cursor.new))) }
{
    let heads = take_heads(cursor)?;
    Ok(schema_of(alloc, &heads)?)
}

/// Takes the fields of a schema: how many they are, and of each its name and the byte of its kind, 1 to 4 for text,
/// keyword, number and facet. Lucene's `FieldInfosFormat.read`.
///
/// [`Refusal::Damaged`] where the bytes begin with the fields of no schema; then some of the bytes may have been taken.
/// Where they do begin so, [`Refusal::Memory`] may come.
pub fn read_fields(alloc: Global, cursor: &mut Cursor<'_>) -> Result<Schema, Refusal>
    ensures ok { IfOk result (λ s. model.IsSchema s × (cursor.old ≡ spelled_fields s ++ cursor.new)) }
    ensures damaged { IfErr result (λ e. e ≡ Damaged
        → (s : model.Schema) (rest : List ℕ) → model.IsSchema s → cursor.old ≢ spelled_fields s ++ rest) }
    ensures due { IfErr result (λ e. e ≡ Memory
        → (s : model.Schema) × model.IsSchema s × (cursor.old ≡ spelled_fields s ++ cursor.new)) }
    ensures refusal { IfErr result (λ e. (e ≡ Damaged) ⊎ (e ≡ Memory)) }
{
    let schema = take_fields(alloc, cursor)?;
    Ok(schema)
}
