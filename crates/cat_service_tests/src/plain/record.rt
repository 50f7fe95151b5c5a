//! An item under the number of the write that put it.
ghost use Rattle.std.specs.Prelude.{◌≡◌, IfOk};
ghost use Rattle.std.specs.Arc.{arc_value};

use cat_base::WriteNo;
use cat_items::Item;
use std::alloc::AllocError;
use std::marker::Model;
use std::sync::Arc;

/// An item and its place in the order of addition. The item is shared by the views that show it.
#[derive(Drop)]
pub(crate) struct Record {
    number: WriteNo,
    item: Arc<Item>,
}

impl Model for Record {
    ghost use Rattle.std.specs.Arc.{arc_value};
    ghost use Rattle.cat_model.specs.Item as model;

    ghost Value = { model.Record };

    ghost view = { λ r. record { number = r.number; item = arc_value r.item } };
}

impl Record {
    pub(crate) fn new(number: WriteNo, item: Arc<Item>) -> Record
        ensures { result ≡ record { number = number; item = arc_value item } }
    {
        Record { number, item }
    }

    pub(crate) fn number(&self) -> WriteNo
        ensures { result ≡ self.now.number }
    {
        self.number
    }

    pub(crate) fn item(&self) -> &Item
        ensures { result.now ≡ self.now.item }
    {
        &self.item
    }

    /// The same record, which shares the item.
    pub(crate) fn copy(&self) -> Result<Record, AllocError>
        ensures ok { IfOk result (λ r. r ≡ self.now) }
    {
        Ok(Record {
            number: self.number,
            item: Arc::try_clone(&self.item)?,
        })
    }
}
