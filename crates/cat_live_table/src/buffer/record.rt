//! What waits in a buffer.
ghost use Rattle.std.specs.Prelude.{◌≡◌};

use cat_base::WriteNo;
use cat_items::Item;
use std::marker::Model;

/// An item that waits for a flush, under the number of the write that put it (Lucene: a document in the buffer, under its
/// sequence number).
///
/// Contracts see it as the record that the table of the catalogue has for the item's id.
#[derive(Drop)]
pub struct Record {
    number: WriteNo,
    item: Item,
}

impl Model for Record {
    ghost use Rattle.cat_model.specs.Item as model;

    ghost Value = { model.Record };

    ghost view = { λ r. record { number = r.number; item = r.item } };
}

impl Record {
    pub(crate) fn new(number: WriteNo, item: Item) -> Record
        ensures { result ≡ record { number = number; item = item } }
    {
        Record { number, item }
    }

    /// The number of the write that put the item.
    pub fn number(&self) -> WriteNo
        ensures { result ≡ self.now.number }
    {
        self.number
    }

    /// The item.
    pub fn item(&self) -> &Item
        ensures { result.now ≡ self.now.item }
    {
        &self.item
    }
}
