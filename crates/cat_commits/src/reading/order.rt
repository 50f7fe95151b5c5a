//! The order of the rows of leaves.
ghost use Rattle.std.specs.Prelude.{◌↔◌, IsTrue};
ghost use Rattle.cat_model.specs.Merged.{rows_of_all};
ghost use Rattle.cat_commits.specs.reading.Judged.{AreInOrder};

use cat_base::Token;
use cat_views::Leaf;

/// Whether numbers of writes rise over all rows, dead ones too, and none is above the token. Within a segment they rise.
pub(crate) fn in_order(leaves: &[Leaf], token: Token) -> bool
    ensures { IsTrue result ↔ AreInOrder token (rows_of_all leaves.now) }
{
    let mut last = 0;
    for leaf in leaves {
        let segment = leaf.segment();
        let rows = segment.len();
        if segment.write_number(0) <= last {
            return false;
        }
        last = segment.write_number(rows - 1);
    }
    last <= token
}
