//! Tables of records, in order of addition.
ghost use Rattle.std.specs.Prelude.{◌≡◌, ◌≤◌, IfOk, filter, find, not, option_map, vec_len, vec_capacity};
ghost use Rattle.cat_model.specs.Answer.{stored};
ghost use Rattle.cat_model.specs.Query.{matches};
ghost use Rattle.cat_model.specs.Text.{same_text};
ghost use Rattle.cat_search.specs.cat_query.View.{query_of};

use crate::plain::record::Record;
use cat_query::Query;
use std::alloc::{AllocError, Global};

/// Takes the record of the id out, if there is one.
pub(crate) fn remove_id(records: &mut Vec<Record>, id: &str)
    ensures items { records.new.items ≡ filter (λ r. not (same_text id.now r.item.id)) records.old.items }
    ensures len { vec_len records.new ≤ vec_len records.old }
    ensures capacity { vec_capacity records.new ≡ vec_capacity records.old }
{
    records.retain(|record| record.item().id() != id);
}

/// Takes the records out whose items the query matches.
pub(crate) fn remove_hits(records: &mut Vec<Record>, query: &Query)
    ensures { records.new.items ≡ filter (λ r. not (matches (query_of query.now) r.item)) records.old.items }
{
    records.retain(|record| !query.accepts(record.item()));
}

/// The record of the id, if there is one.
fn record_of<'a>(records: &'a [Record], id: &str) -> Option<&'a Record>
    ensures { option_map (λ r. r.now) result ≡ find (λ r. same_text r.item.id id.now) records.now }
{
    for record in records {
        if record.item().id() == id {
            return Some(record);
        }
    }
    None
}

/// The text that the item of the id was read from, if there is one.
pub(crate) fn source_of(
    alloc: Global,
    records: &[Record],
    id: &str,
) -> Result<Option<Vec<u8>>, AllocError>
    ensures ok { IfOk result (λ source. option_map (λ b. b.items) source ≡ stored records.now id.now) }
{
    match record_of(records, id) {
        Some(record) => Ok(Some(Vec::from_slice(alloc, record.item().source())?)),
        None => Ok(None),
    }
}

/// The same records, which share their items.
pub(crate) fn copy_records(alloc: Global, records: &[Record]) -> Result<Vec<Record>, AllocError>
    ensures ok { IfOk result (λ copies. copies.items ≡ records.now) }
{
    let mut copies = Vec::with_capacity(alloc, records.len())?;
    for record in records {
        copies.push(record.copy()?)?;
    }
    Ok(copies)
}
