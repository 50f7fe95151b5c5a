//! What a commit lists of the segments that stand, and the files that it writes.

mod draft;
mod earlier;
mod files;
mod heading;
mod laws;
mod listing;

pub use draft::Draft;
pub use heading::Heading;
pub use laws::{drafts_write_commits, needed_are_synced};
pub use listing::Listing;
