//! The schema and the items that texts of JSON are, and the parts of files: fields, and segments as they are laid out.
#![tactic(auto)]

mod analysis;
mod assembly;
mod faults;
mod fields;
pub mod file_parts;
mod forms;
mod item;
mod laws;
mod parsing;
mod schema;

pub use analysis::{is_word_byte, lowered, words};
pub use forms::{has_name_form, id_ok, is_name_byte, keyword_ok, label_ok, name_ok, word_ok};
pub use item::{FieldValue, Item};
pub use laws::{
    every_input_is_heard_one_way, every_line_is_heard_one_way, texts_of_schemas_keep_the_rules,
};
pub use schema::{Field, Kind, Schema, index_of, kind_of};
