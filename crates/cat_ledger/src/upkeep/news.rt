//! What a step of a merge tells.

/// What a step of maintenance did with merges.
#[derive(Clone, Copy)]
pub enum MergeNews {
    /// There was nothing to do.
    Idle,
    /// A merge is in the making already, so that none of all segments was begun.
    Busy,
    /// A merge of so many segments was begun.
    Begun(usize),
    /// Some rows more are passed, so many in all.
    Copied(usize),
    /// The merge is done: its segment stands in the place of those that it took.
    Done,
}
