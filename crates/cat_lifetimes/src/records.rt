//! The recorded views in rising order of token, and which session holds which.

mod recorded;
mod records;

pub use recorded::Recorded;
pub use records::Records;
