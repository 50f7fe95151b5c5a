//! The bytes of a segment's file.
ghost use Rattle.std.specs.Prelude.{◌≡◌, ◌<◌, ◌++◌, map, IfOk, OnOk};
ghost use Rattle.std.specs.List.{flat_map};
ghost use Rattle.cat_model.specs.Files.{IsFileNumber};
ghost use Rattle.cat_model.specs.Layout.{Laid, word_postings_of, head_of, spelled_head, spelled_column, SpellsSegment};
ghost use Rattle.cat_segment.specs.Laid.{laid_in, laid_keywords, laid_labels};

use crate::column::Column;
use crate::segment::Segment;
use cat_base::put_u32;
use cat_columns::inverted::Terms;
use cat_columns::{KeywordColumn, NumberColumn, SetColumn};
use cat_items::file_parts::{
    put_fields, put_head, put_list, put_number, put_numbers, put_posted, put_start, put_texts,
};
use std::alloc::{AllocError, Global};

/// Appends the words of a text field, each with its postings.
fn put_words(out: &mut Vec<u8>, terms: &Terms) -> Result<(), AllocError>
    ensures ok { OnOk result (out.new.items ≡ out.old.items ++ spelled_column (Laid.words (word_postings_of terms.now))) }
{
    let words = terms.words();
    put_u32(out, words.len() as u32)?;
    for (ordinal, word) in words.iter().enumerate() {
        put_posted(out, word.as_str(), terms.postings_at(ordinal))?;
    }
    Ok(())
}

/// Appends the texts of a keyword field, and the code of each row's text.
fn put_keywords(out: &mut Vec<u8>, values: &KeywordColumn) -> Result<(), AllocError>
    ensures ok { OnOk result (out.new.items ≡ out.old.items ++ spelled_column (laid_keywords values.now)) }
{
    put_texts(out, values.dictionary().as_slice())?;
    put_numbers(out, values.codes())?;
    Ok(())
}

/// Appends the integer of each row of a number field.
fn put_integers(out: &mut Vec<u8>, values: &NumberColumn) -> Result<(), AllocError>
    ensures ok { OnOk result (out.new.items ≡ out.old.items ++ spelled_column (Laid.numbers values.now)) }
{
    for row in 0..values.len() {
        put_number(out, values.value(row))?;
    }
    Ok(())
}

/// Appends the labels of a facet field, and the ordinals of each row's labels.
fn put_labels(out: &mut Vec<u8>, labels: &SetColumn) -> Result<(), AllocError>
    ensures ok { OnOk result (out.new.items ≡ out.old.items ++ spelled_column (laid_labels labels.now)) }
{
    put_texts(out, labels.dictionary().as_slice())?;
    for row in 0..labels.len() {
        put_list(out, labels.ordinals(row))?;
    }
    Ok(())
}

/// Appends the column.
fn put_column(out: &mut Vec<u8>, column: &Column) -> Result<(), AllocError>
    ensures ok { OnOk result (out.new.items ≡ out.old.items ++ spelled_column (laid_in column.now)) }
{
    match column {
        Column::Text(terms) => put_words(out, terms),
        Column::Keyword(keywords) => put_keywords(out, keywords.values()),
        Column::Number(numbers) => put_integers(out, numbers.values()),
        Column::Facet(labels) => put_labels(out, labels.labels()),
    }
}

/// Appends the columns.
fn put_columns(out: &mut Vec<u8>, columns: &[Column]) -> Result<(), AllocError>
    ensures ok { OnOk result (out.new.items ≡ out.old.items ++ flat_map spelled_column (map laid_in columns.now)) }
{
    for column in columns {
        put_column(out, column)?;
    }
    Ok(())
}

/// Appends what a file says of each row beside its columns.
fn put_heads(out: &mut Vec<u8>, segment: &Segment) -> Result<(), AllocError>
    ensures ok { OnOk result (out.new.items ≡ out.old.items ++ flat_map spelled_head (map head_of segment.now.rows)) }
{
    for row in 0..segment.len() {
        put_head(
            out,
            segment.write_number(row),
            segment.id(row),
            segment.source_length(row),
        )?;
    }
    Ok(())
}

/// The bytes of the segment's file: its number, its fields, its rows and its columns (Lucene: what the formats of a
/// `Codec` write of a segment). It asks for a segment whose number a file's name can have.
pub fn encode_seg(alloc: Global, segment: &Segment) -> Result<Vec<u8>, AllocError>
    requires { IsFileNumber segment.now.number }
    ensures ok { IfOk result (λ b. SpellsSegment b.items segment.now) }
{
    let mut out = Vec::new(alloc);
    put_start(&mut out, segment.number(), segment.len() as u32)?;
    put_fields(&mut out, segment.schema())?;
    put_heads(&mut out, segment)?;
    put_columns(&mut out, segment.columns())?;
    Ok(out)
}
