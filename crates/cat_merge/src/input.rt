//! The segments that a merge takes.
ghost use Rattle.std.specs.Prelude.{◌≡◌, ◌<◌, length};
ghost use Rattle.std.specs.Arc.{arc_value};
ghost use Rattle.cat_views.specs.cat_segment.Contents.{contents_of};
ghost use Rattle.cat_views.specs.cat_segment.Laid.{contents_under, column_kind};
ghost use Rattle.cat_merge.specs.Fields.{field_kind_at};

use cat_views::cat_segment::{Column, Live, Segment};
use std::marker::Model;
use std::sync::Arc;

/// A segment that is merged, and which of its rows are live when the merge begins (Lucene: a `SegmentReader` that
/// `IndexWriter.mergeMiddle` opens, with its `liveDocs`). Both are shared.
pub struct Input {
    segment: Arc<Segment>,
    live: Arc<Live>,
}

impl Model for Input {
    ghost use Rattle.std.specs.Prelude.{◌≡◌, length};
    ghost use Rattle.std.specs.Arc.{arc_value};
    ghost use Rattle.cat_model.specs.View as model;

    ghost Value = { model.Leaf };

    ghost view = { λ i. record { segment = arc_value i.segment; live = arc_value i.live } };

    ghost invariant = { λ i. length (arc_value i.live) ≡ length (arc_value i.segment).rows };
}

impl Drop for Input {
    fn drop(self) {
        let Input { segment, live } = self;
        drop(segment);
        drop(live);
    }
}

impl Input {
    /// The segment with these of its rows live. There is one truth value for each row.
    pub fn new(segment: Arc<Segment>, live: Arc<Live>) -> Input
        requires { length (arc_value live) ≡ length (arc_value segment).rows }
        ensures { result ≡ record { segment = arc_value segment; live = arc_value live } }
    {
        Input { segment, live }
    }

    /// The segment.
    pub(crate) fn segment(&self) -> &Segment
        ensures { result.now ≡ self.now.segment }
    {
        &self.segment
    }

    /// Which of its rows are live when the merge begins.
    pub(crate) fn live(&self) -> &Live
        ensures value { result.now ≡ self.now.live }
        ensures long { length self.now.live ≡ length self.now.segment.rows }
    {
        &self.live
    }

    /// What its rows have in the field of this index.
    pub(crate) fn column(&self, index: usize) -> &Column
        requires { index < length self.now.segment.schema }
        ensures contents { contents_of result.now ≡ contents_under index self.now.segment.rows }
        ensures kind { column_kind result.now ≡ field_kind_at index self.now }
        ensures live { length self.now.live ≡ length self.now.segment.rows }
    {
        // Its contract says what always holds of a segment.
        let _rows = self.segment.len();
        self.segment.column_at(index)
    }
}
