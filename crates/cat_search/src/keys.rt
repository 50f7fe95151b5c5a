//! The sort keys of items, borrowed and owned.
ghost use Rattle.std.specs.Prelude.{◌≡◌, IfOk};
ghost use Rattle.cat_search.specs.Keys.{key_of, key_ref_of};

use cat_base::Text;
use std::alloc::{AllocError, Global};

/// What a hit is sorted by, borrowed from its item: numbers as numbers, keywords by their bytes.
#[derive(Clone, Copy, PartialEq, Eq, PartialOrd, Ord)]
pub(crate) enum KeyRef<'a> {
    /// The value of a number field.
    Number(i64),
    /// The value of a keyword field.
    Keyword(&'a str),
}

/// What a hit was sorted by, as a page tells it.
///
/// Lucene gives such values in the `fields` of a `FieldDoc`.
#[derive(Drop)]
pub enum Key {
    /// The value of a number field.
    Number(i64),
    /// The value of a keyword field.
    Keyword(Text),
}

impl<'a> KeyRef<'a> {
    /// The same key in memory of its own.
    pub(crate) fn to_key(self, alloc: Global) -> Result<Key, AllocError>
        ensures ok { IfOk result (λ k. key_of k ≡ key_ref_of self.entry) }
    {
        match self {
            KeyRef::Number(number) => Ok(Key::Number(number)),
            KeyRef::Keyword(text) => Ok(Key::Keyword(Text::from_str(alloc, text)?)),
        }
    }
}
