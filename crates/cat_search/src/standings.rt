//! Where a hit stands among others.

use crate::keys::KeyRef;
use cat_base::Text;
use std::cmp::Reverse;

/// Where a key stands in its order: a missing one stands last, both ways.
#[derive(PartialEq, Eq, PartialOrd, Ord, Drop)]
pub(crate) enum Rank<'a> {
    Rising(KeyRef<'a>),
    Falling(Reverse<KeyRef<'a>>),
    Missing,
}

/// A hit that may come into the page: by its key, and by its number where keys tie. The id takes no part in the order.
#[derive_where(PartialEq, Eq, PartialOrd, Ord)]
#[derive(Drop)]
pub(crate) struct Candidate<'a> {
    pub(crate) rank: Rank<'a>,
    pub(crate) number: u64,
    #[derive_where(skip(EqHashOrd))]
    // As it is kept: most hits that are offered are never shown.
    pub(crate) id: &'a Text,
}
