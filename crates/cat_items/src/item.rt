//! An item of the catalogue.
ghost use Rattle.std.specs.Prelude.{◌≡◌, ◌↔◌, true, map, length, option_map, All, IsTrue};
ghost use Rattle.std.specs.Arc.{arc_value};
ghost use Rattle.cat_model.specs.Item.{is_id, AreFields, IsContent};
ghost use Rattle.cat_model.specs.Forms.{IsFormed, IsFormedItem, IsSourceLength};
ghost use Rattle.cat_items.specs.Contents.{field_content_of, IsHad};
ghost use Rattle.cat_items.specs.Kinds.{field_kind_of};

use crate::schema::{Field, Kind, index_of};
use cat_base::{Text, TextSet};
use std::marker::Model;
use std::sync::Arc;

/// What an item has in one field.
pub enum FieldValue {
    /// The words of a text; none where the member is absent.
    Words(TextSet),
    /// The text of a keyword, if there is one.
    Keyword(Option<Text>),
    /// The integer, if there is one.
    Number(Option<i64>),
    /// The labels of a facet; none where the member is absent.
    Labels(TextSet),
}

impl Drop for FieldValue {
    fn drop(self) {
        match self {
            FieldValue::Words(it) => drop(it),
            FieldValue::Keyword(it) => drop(it),
            FieldValue::Number(_) => {}
            FieldValue::Labels(it) => drop(it),
        }
    }
}

impl FieldValue {
    // Whether a field of the kind has such values.
    fn is_of(&self, kind: Kind) -> bool
        ensures { IsTrue result ↔ IsContent (field_kind_of kind) (field_content_of self.now) }
    {
        match self {
            FieldValue::Words(words) => {
                // The words rise.
                let _rising = words.as_slice();
                matches!(kind, Kind::Text)
            }
            FieldValue::Keyword(_) => matches!(kind, Kind::Keyword),
            FieldValue::Number(_) => matches!(kind, Kind::Number),
            FieldValue::Labels(labels) => {
                // The labels rise.
                let _rising = labels.as_slice();
                matches!(kind, Kind::Facet)
            }
        }
    }
}

// Whether the field is the item's own, and the value is of its kind.
fn is_had(field: &Field, own: &Field, value: &FieldValue) -> bool
    ensures { IsTrue result ↔ IsHad field.now own.now value.now }
{
    own.name() == field.name() && value.is_of(field.kind())
}

/// An item as it was put: its id, what it has in each field, and the text that it was read from. Lucene's `Document`,
/// with its text as a stored field.
pub struct Item {
    fields: Arc<Vec<Field>>,
    id: Text,
    // One for each field, in the fields' order.
    values: Vec<FieldValue>,
    source: Vec<u8>,
}

impl Model for Item {
    ghost use Rattle.cat_model.specs.Item as model;
    ghost use Rattle.cat_items.specs.Contents.{item_of_inside, IsKept};

    ghost Value = { model.Item };

    ghost view = { item_of_inside };

    ghost invariant = { IsKept };
}

impl Drop for Item {
    fn drop(self) {
        let Item {
            fields,
            id,
            values,
            source,
        } = self;
        drop(fields);
        drop(id);
        drop(values);
        drop(source);
    }
}

impl Item {
    ghost use Rattle.cat_model.specs.Item as model;
    ghost use Rattle.cat_items.specs.Contents.{named_contents};

    pub(crate) fn new(
        fields: Arc<Vec<Field>>,
        id: Text,
        values: Vec<FieldValue>,
        source: Vec<u8>,
    ) -> Item
        requires each { length values.items ≡ length (arc_value fields).items }
        requires formed { IsFormedItem (record { id = id; fields = named_contents (arc_value fields).items values.items; source = source.items }) }
        ensures { result ≡ record { id = id; fields = named_contents (arc_value fields).items values.items; source = source.items } }
    {
        Item {
            fields,
            id,
            values,
            source,
        }
    }

    /// The id: 1 to 64 bytes, each from `!` to `~`.
    pub fn id(&self) -> &str
        ensures value { result.now ≡ self.now.id }
        ensures form { is_id self.now.id ≡ true }
    {
        self.id.as_str()
    }

    /// The id as it is kept, for who may never look at it: where its bytes lie isn't found out here.
    pub fn id_text(&self) -> &Text
        ensures { result.now ≡ self.now.id }
    {
        &self.id
    }

    /// What the item has in each field, in the order of the schema's fields. A word has 1 to 4,294,967,295 bytes, a
    /// keyword at most 128, a label 1 to 128, and labels are at most 64.
    pub fn values(&self) -> &[FieldValue]
        ensures value { map field_content_of result.now ≡ map (λ p. p.content) self.now.fields }
        ensures forms { All (λ p. IsFormed p.content) self.now.fields }
    {
        self.values.as_slice()
    }

    /// What the item has in the field of the name, if it has such a field.
    pub fn value(&self, name: &str) -> Option<&FieldValue>
        ensures { option_map (λ v. field_content_of v.now) result ≡ model.content_of name.now self.now }
    {
        let index = index_of(&self.fields, name)?;
        self.values.get(index)
    }

    /// Whether the item has a value of the kind of each of the fields, under its name, and no other.
    pub(crate) fn has_fields(&self, fields: &[Field]) -> bool
        ensures { IsTrue result ↔ AreFields fields.now self.now.fields }
    {
        let own = self.fields.as_slice();
        let values = self.values.as_slice();
        if fields.len() != own.len() {
            return false;
        }
        for (i, field) in fields.iter().enumerate() {
            if !is_had(field, &own[i], &values[i]) {
                return false;
            }
        }
        true
    }

    /// The bytes that the item was read from, as they came, 1 to 8,192.
    pub fn source(&self) -> &[u8]
        ensures value { result.now ≡ self.now.source }
        ensures size { IsSourceLength (length self.now.source) }
    {
        self.source.as_slice()
    }
}
