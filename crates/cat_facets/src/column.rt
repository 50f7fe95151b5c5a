//! The column of a dimension in a segment.
ghost use Rattle.std.specs.Prelude.{◌≡◌, map, [], MatchOption};
ghost use Rattle.cat_facets.specs.Tallies.{labels_at};

use cat_segment::{Column, Labels, Segment};

/// The labels of each row in the dimension; none where the segment has no facet field of the name, and then no row has a
/// label.
pub(crate) fn labels_of<'a>(segment: &'a Segment, dimension: &str) -> Option<&'a Labels>
    ensures { MatchOption result
        (map (labels_at dimension.now) segment.now.rows ≡ map (λ r. []) segment.now.rows)
        (λ c. c.now ≡ map (labels_at dimension.now) segment.now.rows) }
{
    let Some(column) = segment.column(dimension) else {
        return None;
    };
    match column {
        Column::Facet(labels) => Some(labels),
        Column::Text(_) => None,
        Column::Keyword(_) => None,
        Column::Number(_) => None,
    }
}
