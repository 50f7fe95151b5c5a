//! What a commit says beside its segments.
use cat_base::{Generation, SegNo, Text, Token};
use cat_items::Schema;

/// What a commit says beside its segments (Lucene: of a `SegmentInfos` the generation, the counter and the user data).
#[derive(Drop)]
pub struct Heading {
    /// The number of the commit.
    pub generation: Generation,
    /// The number of writes that it takes in.
    pub token: Token,
    /// The number that the next segment gets.
    pub next_segment: SegNo,
    /// What who commits says of it.
    pub text: Text,
    /// The fields.
    pub schema: Schema,
}
