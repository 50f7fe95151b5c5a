//! How much is kept.

/// How many states [`ReaderStates`](crate::ReaderStates) keeps at most.
pub const MAX_KEPT_STATES: usize = 16;
