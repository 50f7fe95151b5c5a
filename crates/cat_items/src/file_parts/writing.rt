//! The parts of a segment's file, written one after the other.
ghost use Rattle.std.specs.Prelude.{◌≡◌, ◌<◌, ◌++◌, length, OnOk};
ghost use Rattle.std.specs.List.{flat_map};
ghost use Rattle.cat_base.specs.Bytes.{spelled_u32, spelled_bytes};
ghost use Rattle.cat_model.specs.Layout.{spelled_field, spelled_fields, spelled_head, spelled_list, spelled_texts, spelled_postings, spelled_number};
ghost use Rattle.cat_items.specs.file_parts.Parts.{spelled_start};

use crate::file_parts::reading::{MAGIC, VERSION};
use crate::{Field, Kind, Schema};
use cat_base::{SegNo, Text, WriteNo, put_bytes, put_u32, put_u64};
use std::alloc::AllocError;

/// Appends how a segment's file begins: `CSEG`, the version 1, the number of the segment and the number of its rows.
/// Lucene's `CodecUtil.writeIndexHeader` writes a magic word, a version and an id.
///
/// An error may leave some of the bytes behind the list.
pub fn put_start(out: &mut Vec<u8>, number: SegNo, rows: u32) -> Result<(), AllocError>
    ensures { OnOk result (out.new.items ≡ out.old.items ++ spelled_start number rows) }
{
    put_u32(out, MAGIC)?;
    out.push(VERSION)?;
    put_u64(out, number)?;
    put_u32(out, rows)
}

// A text of 2^32 bytes or more is refused as if memory were.
fn put_text(out: &mut Vec<u8>, text: &str) -> Result<(), AllocError>
    ensures { OnOk result (out.new.items ≡ out.old.items ++ spelled_bytes text.now) }
{
    if text.len() > u32::MAX as usize {
        return Err(AllocError);
    }
    put_bytes(out, text.as_bytes())
}

// How many there are: 2^32 or more are refused as if memory were.
fn put_count(out: &mut Vec<u8>, count: usize) -> Result<(), AllocError>
    ensures { OnOk result (out.new.items ≡ out.old.items ++ spelled_u32 count) }
{
    let Ok(short) = u32::try_from(count) else {
        return Err(AllocError);
    };
    put_u32(out, short)
}

fn put_field(out: &mut Vec<u8>, field: &Field) -> Result<(), AllocError>
    ensures { OnOk result (out.new.items ≡ out.old.items ++ spelled_field field.now) }
{
    put_text(out, field.name())?;
    let kind = match field.kind() {
        Kind::Text => 1,
        Kind::Keyword => 2,
        Kind::Number => 3,
        Kind::Facet => 4,
    };
    out.push(kind)?;
    Ok(())
}

/// Appends the fields as [`read_fields`](crate::file_parts::read_fields) takes them. Lucene's `FieldInfosFormat.write`.
///
/// An error may leave some of the bytes behind the list.
pub fn put_fields(out: &mut Vec<u8>, schema: &Schema) -> Result<(), AllocError>
    ensures { OnOk result (out.new.items ≡ out.old.items ++ spelled_fields schema.now) }
{
    let fields = schema.fields();
    put_count(out, fields.len())?;
    for field in fields {
        put_field(out, field)?;
    }
    Ok(())
}

/// Appends what a file says of a row beside its columns: the number of its write, its id, and the length of its source
/// in bytes. Lucene keeps an id as a stored field.
///
/// The error also stands for an id of 4,294,967,296 bytes or more. It may leave some of the bytes behind the list.
pub fn put_head(out: &mut Vec<u8>, number: WriteNo, id: &str, length: u32) -> Result<(), AllocError>
    ensures { OnOk result (out.new.items ≡ out.old.items ++ spelled_head (record { number = number; id = id.now; length = length })) }
{
    put_u64(out, number)?;
    put_text(out, id)?;
    put_u32(out, length)
}

/// Appends how many texts there are, and each with its length before it, as a dictionary stands in a file. Lucene's
/// `DocValuesConsumer` writes the terms of a dictionary in order too, in blocks that share prefixes.
///
/// The error also stands for 4,294,967,296 texts or more, and for a text of as many bytes. It may leave some of the bytes
/// behind the list.
pub fn put_texts(out: &mut Vec<u8>, texts: &[Text]) -> Result<(), AllocError>
    ensures { OnOk result (out.new.items ≡ out.old.items ++ spelled_texts texts.now) }
{
    put_count(out, texts.len())?;
    for text in texts {
        put_text(out, text.as_str())?;
    }
    Ok(())
}

/// Appends the numbers alone, 4 bytes each; how many they are is known from elsewhere in the file. Room for all of them
/// is taken first.
///
/// An error may leave some of the bytes behind the list.
pub fn put_numbers(out: &mut Vec<u8>, numbers: &[u32]) -> Result<(), AllocError>
    ensures { OnOk result (out.new.items ≡ out.old.items ++ flat_map spelled_u32 numbers.now) }
{
    out.reserve(numbers.len().saturating_mul(4))?;
    for number in numbers {
        put_u32(out, *number)?;
    }
    Ok(())
}

/// Appends how many numbers there are, and the numbers, 4 bytes each.
///
/// The error also stands for 4,294,967,296 numbers or more. It may leave some of the bytes behind the list.
pub fn put_list(out: &mut Vec<u8>, numbers: &[u32]) -> Result<(), AllocError>
    ensures { OnOk result (out.new.items ≡ out.old.items ++ spelled_list numbers.now) }
{
    put_count(out, numbers.len())?;
    put_numbers(out, numbers)
}

/// Appends the number of a row: a byte 0 where it has none, else a byte 1 and its 8 bytes. Lucene's `DocValuesConsumer`
/// writes the rows that have a number apart from the numbers.
///
/// An error may leave some of the bytes behind the list.
pub fn put_number(out: &mut Vec<u8>, number: Option<i64>) -> Result<(), AllocError>
    ensures { OnOk result (out.new.items ≡ out.old.items ++ spelled_number number) }
{
    match number {
        None => {
            out.push(0)?;
            Ok(())
        }
        Some(value) => {
            out.push(1)?;
            put_u64(out, value.cast_unsigned())
        }
    }
}

/// Appends a word and the indices of the rows that have it. Lucene's `PostingsWriterBase` writes a term's postings so, as
/// differences in blocks.
///
/// The error also stands for a word of 4,294,967,296 bytes or more, and for as many rows. It may leave some of the bytes
/// behind the list.
pub fn put_posted(out: &mut Vec<u8>, word: &str, rows: &[u32]) -> Result<(), AllocError>
    ensures { OnOk result (out.new.items ≡ out.old.items ++ spelled_postings (record { word = word.now; rows = rows.now })) }
{
    put_text(out, word)?;
    put_list(out, rows)
}
