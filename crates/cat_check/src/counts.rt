//! How much there is of a commit.
ghost use Rattle.cat_directory.specs.Frames.{OnlyReads};

use cat_commits::Leaf;
use cat_directory::{FileName, Shelf};

/// How many rows a commit has, dead ones too, and how many of them are live.
#[derive(Clone, Copy, Drop)]
pub struct Counts {
    pub rows: u64,
    pub live_rows: u64,
}

/// The rows of the leaves, counted.
pub(crate) fn counts_of(leaves: &[Leaf]) -> Counts {
    let mut rows = 0u64;
    let mut live_rows = 0u64;
    for leaf in leaves {
        let live = leaf.live();
        rows = rows.saturating_add(live.len() as u64);
        live_rows = live_rows.saturating_add(live.count() as u64);
    }
    Counts { rows, live_rows }
}

/// How many bytes those of the files have together that are there.
pub(crate) fn bytes_in<S: Shelf>(shelf: &mut S, names: &[FileName]) -> u64
    ensures frame { OnlyReads S.bytes S.may_leave S.can_fail shelf.old shelf.new }
{
    let mut bytes = 0u64;
    for name in names {
        let size = shelf.size(*name).unwrap_or(0);
        bytes = bytes.saturating_add(size);
    }
    bytes
}
