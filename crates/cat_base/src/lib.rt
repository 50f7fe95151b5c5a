//! What every crate of the catalogue shares: its numbers and limits, refusals, texts, and numbers as bytes.
#![tactic(auto)]

mod codec;
mod decimal;
mod numbers;
mod order;
mod refusal;
mod text;

pub use codec::{Cursor, put_bytes, put_u32, put_u64, spellings_are_exact};
pub use decimal::{is_file_number, parse_number};
pub use numbers::{
    GREATEST_MERGE_FACTOR, GREATEST_MERGE_MINIMUM, Generation, LAST_NUMBER, LAST_SESSION,
    LEAST_MERGE_FACTOR, LEAST_MERGE_MINIMUM, MAX_BUFFERED_ITEMS, MAX_CACHED_SETS, MAX_CLAUSES,
    MAX_COMMIT_TEXT_BYTES, MAX_DEPTH, MAX_FIELD_NAME_BYTES, MAX_FIELDS, MAX_ID_BYTES,
    MAX_ITEM_BYTES, MAX_KEYWORD_BYTES, MAX_LABELS, MAX_LINE_BYTES, MAX_NOTED_QUERIES, MAX_PAGE,
    MAX_RECORDS, MAX_ROWS, MAX_SEGMENTS, MAX_SNAPSHOTS, MAX_STEP_ROWS, SegNo, SessionNo, Token,
    WriteNo,
};
pub use order::rises;
pub use refusal::Refusal;
pub use text::{SHORT_BYTES, Text, TextSet, sorted_sets_are_sets};
