//! Segments in memory, whose rows never change, and which of these rows are live.
#![tactic(auto)]

mod assembly;
mod building;
mod column;
mod column_parts;
mod decoding;
mod encoding;
mod field_values;
mod filter;
mod ids;
mod inverting;
mod live;
mod live_file;
mod missing_rows;
mod number_keys;
mod number_ranges;
mod number_runs;
mod numbers;
mod row_parts;
mod segment;
mod sorted_numbers;
mod sources;

pub use assembly::{assemble, assemble_runs};
pub use cat_items::Schema;
pub use column::{Column, Keywords, Labels};
pub use decoding::{decode_seg, segments_are_told_by_their_bytes};
pub use encoding::encode_seg;
pub use filter::id_hash;
pub use live::Live;
pub use live_file::{LiveFile, decode_liv, encode_liv, live_rows_are_told_by_their_bytes};
pub use number_runs::NumberRuns;
pub use numbers::Numbers;
pub use row_parts::RowParts;
pub use segment::{Row, Segment};
