//! The sorts that a page can go by.
ghost use Rattle.std.specs.Prelude.{◌≡◌, true, false, option_map, IfOk, IfErr};
ghost use Rattle.cat_base.specs.declared.refusal.Refusal.TheVariants.{SortField};
ghost use Rattle.cat_model.specs.Answer.{can_sort};
ghost use Rattle.cat_search.specs.Keys.{key_ref_of};
ghost use Rattle.cat_search.specs.Candidates.{rank_of};
ghost use Rattle.cat_search.specs.Pages.{rank_with};
ghost use Rattle.cat_search.specs.Sorts.{IsOrderOf, IsSortField, can_sort_by, sort_of};

use crate::keys::KeyRef;
use crate::standings::Rank;
use cat_base::Refusal;
use cat_items::{Kind, Schema, index_of};
use std::cmp::Reverse;

/// How the hits of a page are sorted (Lucene: `Sort`). A name is a field's, and no schema has been looked at.
///
/// Hits without a value come last, rising and falling; Lucene says that for each field by
/// `SortField.setMissingValue`. Hits that tie stand in order of addition, both ways.
#[derive(Clone, Copy)]
pub enum Sort<'a> {
    /// In order of addition (Lucene: `Sort.INDEXORDER`).
    Added,
    /// By the number or keyword field of this name, the least value first (Lucene: `SortField`).
    Rising(&'a str),
    /// By the number or keyword field of this name, the greatest value first (Lucene: a reversed `SortField`).
    Falling(&'a str),
}

/// A field that one can sort by: its name, and its index in the schema.
#[derive(Clone, Copy)]
pub(crate) struct OrderField<'a> {
    pub(crate) name: &'a str,
    pub(crate) index: usize,
}

/// A sort whose field is found in the schema.
#[derive(Clone, Copy)]
pub(crate) enum Order<'a> {
    Added,
    Rising(OrderField<'a>),
    Falling(OrderField<'a>),
}

/// The field of this name, if one can sort by it.
fn order_field<'a>(schema: &Schema, name: &'a str) -> Result<OrderField<'a>, Refusal>
    ensures ok { IfOk result (λ f. IsSortField schema.now name.entry.now f) }
    ensures err { IfErr result (λ e. (e ≡ SortField) × (can_sort_by schema.now name.entry.now ≡ false)) }
{
    let fields = schema.fields();
    let Some(index) = index_of(fields, name) else {
        return Err(Refusal::SortField);
    };
    match fields[index].kind() {
        Kind::Number | Kind::Keyword => Ok(OrderField { name, index }),
        Kind::Text | Kind::Facet => Err(Refusal::SortField),
    }
}

impl<'a> Sort<'a> {
    /// The sort by its field in the schema. [`Refusal::SortField`] if that is not a number or keyword field.
    pub(crate) fn resolve(self, schema: &Schema) -> Result<Order<'a>, Refusal>
        ensures ok { IfOk result (λ o. IsOrderOf schema.now (sort_of self.entry) o × (can_sort schema.now (sort_of self.entry) ≡ true)) }
        ensures err { IfErr result (λ e. (e ≡ SortField) × (can_sort schema.now (sort_of self.entry) ≡ false)) }
    {
        match self {
            Sort::Added => Ok(Order::Added),
            Sort::Rising(name) => Ok(Order::Rising(order_field(schema, name)?)),
            Sort::Falling(name) => Ok(Order::Falling(order_field(schema, name)?)),
        }
    }
}

/// Where a hit of this key stands in the order.
pub(crate) fn rank_with<'a>(key: Option<KeyRef<'a>>, order: Order) -> Rank<'a>
    ensures { rank_of result ≡ rank_with order.entry (option_map key_ref_of key.entry) }
{
    match (order, key) {
        (Order::Rising(_), Some(key)) => Rank::Rising(key),
        (Order::Falling(_), Some(key)) => Rank::Falling(Reverse(key)),
        _ => Rank::Missing,
    }
}
