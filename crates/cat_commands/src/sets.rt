//! The laws of what is kept beside a ledger, as cached sets: which segments the ledger has as lines are answered, and that what was made
//! of them stays right. No code.

mod kept;
mod segments;
mod sets;

pub use kept::{
    added_are_right, kept_go_on, kept_stay, none_are_kept, recorded_agree, unkept_are_known,
};
pub use segments::{current_are_among, recorded_are_among, segments_are_one, segments_stay};
pub use sets::{
    empty_are_right, recorded_are_known, remembered_are_right, sets_go_on, sets_stay,
    unset_are_known, warmed_are_right,
};
