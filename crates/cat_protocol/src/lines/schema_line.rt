//! The first line of an input.
ghost use Rattle.std.specs.Prelude.{ℕ, IfSome, IfNone};
ghost use Rattle.cat_model.specs.Text.{Text};
ghost use Rattle.cat_model.specs.Served.{SpellsSchema};

use crate::lines::words::split_number;
use cat_base::{
    GREATEST_MERGE_FACTOR, GREATEST_MERGE_MINIMUM, LEAST_MERGE_FACTOR, LEAST_MERGE_MINIMUM,
};

/// What a schema line says.
#[derive(Clone, Copy)]
pub struct SchemaLine<'a> {
    /// How many segments of one level are merged at once, 2 to 100: the merge factor of Lucene's `LogMergePolicy`.
    pub factor: u32,
    /// The most rows of a segment of the lowest level, 1 to 100,000: the `minMergeDocs` of Lucene's `LogDocMergePolicy`.
    pub least: u32,
    /// The text of the schema, in which nothing has been looked at.
    pub json: &'a str,
}

impl<'a> SchemaLine<'a> {
    /// Reads `SCHEMA <factor> <least> <json>`, with one space between each two; the text behind the third may be empty.
    pub fn read(text: &'a str) -> Option<SchemaLine<'a>>
        ensures found { IfSome result (λ s. SpellsSchema text.now s.factor s.least s.json.now) }
        ensures none { IfNone result ((factor least : ℕ) (json : Text) → SpellsSchema text.now factor least json → ⊥) }
    {
        let rest = text.strip_prefix("SCHEMA ")?;
        let (factor, rest) = split_number(rest)?;
        let (least, json) = split_number(rest)?;
        if !(LEAST_MERGE_FACTOR..=GREATEST_MERGE_FACTOR).contains(&factor)
            || !(LEAST_MERGE_MINIMUM..=GREATEST_MERGE_MINIMUM).contains(&least)
        {
            return None;
        }
        Some(SchemaLine {
            factor: factor as u32,
            least: least as u32,
            json,
        })
    }
}
