//! A row of a merged segment beside what its id is compared by.
ghost use Rattle.std.specs.Prelude.{◌≡◌, ◌<◌, length};

use crate::input::Input;
use cat_views::cat_segment::Segment;

/// So many bytes of an id are kept beside a row, which tell most ids apart.
const KEY_BYTES: usize = 16;

/// A row of the merged segment, the first bytes of its id, and where the whole id stands.
#[derive(Clone, Copy, Drop)]
pub(crate) struct IdRow {
    /// The row in the merged segment.
    pub(crate) row: u32,
    // The first bytes of the id as a number, which rises with them.
    key: u128,
    // The index of the input that has the row, and the row there.
    input: usize,
    place: usize,
}

/// The first bytes of the id as a number, with zeros behind a short one. Ids whose numbers differ stand in the order of these.
fn key_of(id: &str) -> u128 {
    let bytes = id.as_bytes();
    let len = bytes.len().min(KEY_BYTES);
    let mut first = [0u8; KEY_BYTES];
    first[..len].copy_from_slice(&bytes[..len]);
    u128::from_be_bytes(first)
}

impl IdRow {
    /// The row of the merged segment that this row of the input of the index becomes.
    pub(crate) fn of(segment: &Segment, input: usize, place: usize, row: u32) -> IdRow
        requires { place < length segment.now.rows }
        ensures { result.row ≡ row }
    {
        IdRow {
            row,
            key: key_of(segment.id(place)),
            input,
            place,
        }
    }

    /// The id, which one of these inputs has.
    fn id<'a>(&self, inputs: &'a [Input]) -> &'a str {
        match inputs.get(self.input) {
            Some(input) if self.place < input.segment().len() => input.segment().id(self.place),
            _ => "",
        }
    }

    /// Whether its id isn't behind that of the other by bytes. Most answers need no look at an id.
    pub(crate) fn is_in_front(&self, other: &IdRow, inputs: &[Input]) -> bool {
        if self.key != other.key {
            return self.key < other.key;
        }
        self.id(inputs) <= other.id(inputs)
    }
}
