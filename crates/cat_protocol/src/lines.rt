//! The lines that sessions say: who speaks, and the command with its arguments as they came.

mod command;
mod facets;
mod find;
mod line;
mod schema_line;
mod sort;
mod words;

pub use command::Command;
pub use facets::Facets;
pub use find::Find;
pub use line::Line;
pub use schema_line::SchemaLine;
