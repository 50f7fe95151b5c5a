//! What a step of warming did.

/// What a step of warming did.
#[derive(Clone, Copy, Drop)]
pub enum WarmNews {
    /// Nothing: each noted query has its set in each segment.
    Idle,
    /// A set was begun, of which no row is passed.
    Begun,
    /// Of the set in the making so many rows are passed in all, and some are left.
    Warmed(usize),
    /// The set in the making has passed its last rows, and stands in the cache.
    Stored,
}
