//! The fields of a catalogue.
ghost use Rattle.std.specs.Prelude.{◌≡◌, ◌≢◌, ◌↔◌, ◌⊎◌, Ok, Err, IfOk, IfErr, IfSome, IsTrue, map, option_map};
ghost use Rattle.std.specs.List.{AllByRecursion, position};
ghost use Rattle.std.specs.Arc.{arc_value};
ghost use Rattle.cat_base.specs.Texts.{IsTextSet};
ghost use Rattle.cat_base.specs.declared.refusal.Refusal.TheVariants.{Memory, Damaged};
ghost use Rattle.cat_model.specs.Text.{same_text};
ghost use Rattle.cat_model.specs.Item.{is_field_name, kind_of};
ghost use Rattle.cat_items.specs.Kinds.{field_kind_of};

use crate::fields::read_fields;
use crate::forms::name_ok;
use crate::item::Item;
use crate::parsing::read_json;
use cat_base::{MAX_FIELDS, Refusal, Text};
use std::alloc::{AllocError, Global};
use std::marker::Model;
use std::sync::Arc;

/// What the values of a field are, and so how the field can be asked for.
#[derive(Clone, Copy, Drop)]
pub enum Kind {
    /// A text that is searched by its words, as Lucene's `TextField`; the words go by a rule of our own.
    Text,
    /// One exact text of at most 128 bytes, as Lucene's `StringField`.
    Keyword,
    /// A signed integer of 64 bits, as Lucene's `LongField`.
    Number,
    /// A set of at most 64 labels, as Lucene's `SortedSetDocValuesFacetField`.
    Facet,
}

/// A field of the catalogue: its name and its kind, as Lucene's `FieldInfo`.
pub struct Field {
    name: Text,
    kind: Kind,
}

impl Model for Field {
    ghost use Rattle.cat_model.specs.Item as model;
    ghost use Rattle.cat_items.specs.Kinds.{field_kind_of};

    ghost Value = { model.Field };

    ghost view = { λ f. record { name = f.name; kind = field_kind_of f.kind } };
}

impl Drop for Field {
    fn drop(self) {
        let Field { name, kind: _ } = self;
        drop(name);
    }
}

impl Field {
    /// The field of the name and the kind. Whether a field may have the name is judged where fields become a schema
    /// ([`Schema::of_fields`]).
    pub fn new(name: Text, kind: Kind) -> Field
        ensures { result ≡ record { name = name; kind = field_kind_of kind } }
    {
        Field { name, kind }
    }

    /// The name. In a schema it has 1 to 32 bytes, a lower ASCII letter and then such letters, digits and `_`, and is
    /// never `id`.
    pub fn name(&self) -> &str
        ensures { result.now ≡ self.now.name }
    {
        self.name.as_str()
    }

    /// The kind.
    pub fn kind(&self) -> Kind
        ensures { field_kind_of result ≡ self.now.kind }
    {
        self.kind
    }
}

/// The index of the field of the name among the fields, if one has it; Lucene's `FieldInfos.fieldInfo` by a name, whose
/// `number` is the index here.
pub fn index_of(fields: &[Field], name: &str) -> Option<usize>
    ensures { result ≡ position (λ f. same_text f.name name.now) fields.now }
{
    fields.iter().position(|field| field.name() == name)
}

/// The kind of the field of the name, if one has it; Lucene's `FieldInfos.fieldInfo` by a name.
pub fn kind_of(fields: &[Field], name: &str) -> Option<Kind>
    ensures { option_map field_kind_of result ≡ kind_of fields.now name.now }
{
    fields
        .iter()
        .find(|field| field.name() == name)
        .map(Field::kind)
}

fn all_named(fields: &[Field]) -> bool
    ensures { IsTrue result ↔ AllByRecursion (λ f. IsTrue (is_field_name f.name)) fields.now }
{
    fields.iter().all(|field| name_ok(field.name()))
}

fn names_rise(fields: &[Field]) -> bool
    ensures { IsTrue result ↔ IsTextSet (map (λ f. f.name) fields.now) }
{
    fields.is_sorted_by(|one, next| one.name() < next.name())
}

impl PartialEq for Field {
    ghost use Rattle.std.specs.Cmp.{partial_equiv_from_equiv};
    ghost use Rattle.cat_items.specs.Kinds.{same_field, same_field_equiv};

    ghost eq = { same_field };

    ghost laws = { partial_equiv_from_equiv same_field_equiv };

    fn eq(&self, other: &Field) -> bool {
        self.name == other.name && self.kind == other.kind
    }
}

/// The fields of a catalogue, at most 32 and in byte order of their names; copies share them. They are given before
/// the first item, where Lucene's `FieldInfos` grow with the documents.
pub struct Schema {
    fields: Arc<Vec<Field>>,
}

impl Model for Schema {
    ghost use Rattle.std.specs.Prelude.{List};
    ghost use Rattle.std.specs.Arc.{arc_value};
    ghost use Rattle.cat_model.specs.Item as model;

    ghost Value = { List model.Field };

    ghost view = { λ s. (arc_value s.fields).items };

    ghost invariant = { λ s. model.IsSchema (arc_value s.fields).items };
}

impl Drop for Schema {
    fn drop(self) {
        let Schema { fields } = self;
        drop(fields);
    }
}

impl Schema {
    ghost use Rattle.cat_model.specs.Item.{IsSchema, IsItem};
    ghost use Rattle.cat_items.specs.Reading.{schema_of, text_fault};

    /// The schema that a text of JSON is: an object of at most 32 members, each a field's name with the name of its
    /// kind, `"text"`, `"keyword"`, `"number"` or `"facet"`.
    ///
    /// `Refusal::Json` where the bytes are no JSON, and `Refusal::Kind` where they are no such object. `Refusal::Memory` may
    /// come in place of the schema, or while the text is read as JSON, but never of no bytes or of bytes that are no UTF-8.
    pub fn read(alloc: Global, bytes: &[u8]) -> Result<Schema, Refusal>
        ensures ok { IfOk result (λ s. schema_of bytes.now ≡ Ok s) }
        ensures err { IfErr result (λ e. e ≢ Memory → schema_of bytes.now ≡ Err e) }
        ensures due { IfSome (text_fault bytes.now) (λ e. result ≡ Err e) }
    {
        let root = read_json(alloc, bytes)?;
        let Some(members) = root.as_object() else {
            return Err(Refusal::Kind);
        };
        let fields = read_fields(alloc, members)?;
        Ok(Schema {
            fields: Arc::new(alloc, fields)?,
        })
    }

    /// The schema of the fields, in their order, as a file lists them: at most 32, each with the name of a field, and
    /// the names rise by bytes. Lucene's `FieldInfos` of an array of `FieldInfo`s, as a `FieldInfosFormat` makes it.
    ///
    /// `Refusal::Damaged` where the fields are no schema; where they are one, `Refusal::Memory` may come in its place.
    pub fn of_fields(alloc: Global, fields: Vec<Field>) -> Result<Schema, Refusal>
        ensures ok { IfOk result (λ s. s ≡ fields.items) }
        ensures valid { IfOk result (λ s. IsSchema s) }
        ensures damaged { IfErr result (λ e. e ≡ Damaged → ¬ (IsSchema fields.items)) }
        ensures due { IfErr result (λ e. e ≡ Memory → IsSchema fields.items) }
        ensures refusal { IfErr result (λ e. (e ≡ Damaged) ⊎ (e ≡ Memory)) }
    {
        if fields.len() > MAX_FIELDS || !all_named(&fields) || !names_rise(&fields) {
            return Err(Refusal::Damaged);
        }
        Ok(Schema {
            fields: Arc::new(alloc, fields)?,
        })
    }

    /// The fields, in byte order of their names.
    pub fn fields(&self) -> &[Field]
        ensures value { result.now ≡ self.now }
        ensures valid { IsSchema self.now }
    {
        self.fields.as_slice()
    }

    /// The fields, to be shared with the items that are read under the schema.
    pub(crate) fn shared(&self) -> Result<Arc<Vec<Field>>, AllocError>
        ensures { IfOk result (λ a. (arc_value a).items ≡ self.now) }
    {
        Arc::try_clone(&self.fields)
    }

    /// Whether the item has what the fields ask for: a value of the kind of each, under its name, and no other. Each item
    /// that is read under the schema has.
    pub fn accepts(&self, item: &Item) -> bool
        ensures { IsTrue result ↔ IsItem self.now item.now }
    {
        item.has_fields(self.fields())
    }

    /// The same schema once more; the fields are shared.
    pub fn copy(&self) -> Result<Schema, AllocError>
        ensures { IfOk result (λ s. s ≡ self.now) }
    {
        Ok(Schema {
            fields: Arc::try_clone(&self.fields)?,
        })
    }
}

/// Two schemas are equal exactly where they have the same fields; Lucene's `FieldInfo.verifySameSchema` field by field.
impl PartialEq for Schema {
    ghost use Rattle.std.specs.Prelude.{◌≡◌, ◌↔◌, IsTrue};
    ghost use Rattle.std.specs.Cmp.{partial_equiv_from_equiv};
    ghost use Rattle.cat_items.specs.Kinds.{same_fields, same_fields_equiv};

    ghost eq = { same_fields };

    ghost laws = { partial_equiv_from_equiv same_fields_equiv };

    fn eq(&self, other: &Schema) -> bool
        ensures eq { result ≡ same_fields self.now other.now }
        ensures value { IsTrue result ↔ (self.now ≡ other.now) }
    {
        self.fields() == other.fields()
    }
}
