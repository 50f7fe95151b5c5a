//! What a merge keeps of a row beside its columns.
ghost use Rattle.std.specs.Prelude.{◌≡◌, ◌<◌, length, IfOk};
ghost use Rattle.std.specs.List.{HoldsAt};
ghost use Rattle.cat_model.specs.Layout.{head_of};

use cat_base::{Text, WriteNo};
use cat_views::cat_segment::Segment;
use std::alloc::AllocError;
use std::marker::Model;

/// The number of the write that put a row, the row's id, and the length of the text that its item came as.
#[derive(Drop)]
pub(crate) struct KeptRow {
    number: WriteNo,
    id: Text,
    length: u32,
}

impl Model for KeptRow {
    ghost use Rattle.cat_model.specs.Layout as layout;

    ghost Value = { layout.Head };

    ghost view = { λ r. record { number = r.number; id = r.id; length = r.length } };
}

impl KeptRow {
    /// What is kept of the row of this index.
    pub(crate) fn of(segment: &Segment, row: usize) -> Result<KeptRow, AllocError>
        requires { row < length segment.now.rows }
        ensures ok { IfOk result (λ k. HoldsAt (λ r. head_of r ≡ k) segment.now.rows row) }
    {
        Ok(KeptRow {
            number: segment.write_number(row),
            id: segment.id_text(row).copy()?,
            length: segment.source_length(row),
        })
    }

    /// The number of the write.
    pub(crate) fn number(&self) -> WriteNo
        ensures { result ≡ self.now.number }
    {
        self.number
    }

    /// The length of the text that the item came as.
    pub(crate) fn length(&self) -> u32
        ensures { result ≡ self.now.length }
    {
        self.length
    }

    /// The id.
    pub(crate) fn into_id(self) -> Text
        ensures { result ≡ self.id }
    {
        self.id
    }
}
