//! Merges: which segments are merged next, the segment that is made of theirs, step by step; and the merge over files, which
//! copies stored texts and writes the new segment.
#![tactic(auto)]

mod columns;
mod counting;
pub mod files;
mod id_row;
mod id_runs;
mod input;
mod keyword_column;
mod label_column;
mod lists;
mod making;
mod merge;
mod merged_terms;
mod number_column;
mod number_order;
mod ordinals;
mod place;
mod policy;
mod row_maps;
mod rows;
mod sealing;
mod settling;
mod sources;
mod word_column;

pub use cat_views::Leaf;
pub use cat_views::cat_segment::{Live, encode_seg};
pub use input::Input;
pub use merge::Merge;
pub use policy::{level_of, window};
pub use sources::SourceRange;
