//! Pages of hits, and what they go by.
use cat_base::{Text, WriteNo};
use cat_search::Key;
use std::marker::Model;

/// What a hit is sorted by, borrowed from its item.
#[derive(Clone, Copy)]
pub enum KeyRef<'a> {
    /// The value of a number field.
    Number(i64),
    /// The value of a keyword field.
    Keyword(&'a Text),
}

/// A hit as a page shows it.
#[derive(Drop)]
pub struct Entry {
    pub(crate) number: WriteNo,
    pub(crate) id: Text,
    pub(crate) key: Option<Key>,
}

impl Model for Entry {
    ghost use Rattle.std.specs.Prelude.{option_map};
    ghost use Rattle.cat_model.specs.Page as model;
    ghost use Rattle.cat_search.specs.Keys.{key_of};

    ghost Value = { model.Entry };

    ghost view = { λ e. record { number = e.number; id = e.id; key = option_map key_of e.key } };
}

/// The first hits behind a mark, and how many hits there are at all.
#[derive(Drop)]
pub struct Page {
    pub(crate) total: usize,
    pub(crate) entries: Vec<Entry>,
}

impl Model for Page {
    ghost use Rattle.cat_model.specs.Page as model;

    ghost Value = { model.Page };

    ghost view = { λ p. record { total = p.total; entries = p.entries.items } };
}
