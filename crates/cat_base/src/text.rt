//! A text, which contracts see as its bytes, and a set of texts, which they see as a list of these in order.
ghost use Rattle.std.specs.Prelude.{◌≡◌, ◌≤◌, ℕ, ◌↔◌, List, [], length, IfOk, IsOk, IfSome, IsSome, IsTrue, string_bytes, Contains};
ghost use Rattle.cat_base.specs.Texts.{sorted_set, IsTextSet};

use arrayvec::ArrayString;
use std::alloc::{AllocError, Global};
use std::cmp::Ordering;
use std::marker::Model;

/// Texts of at most so many bytes lie in the value itself: most words, labels and ids. They take no memory of their own, and
/// a search among texts that stand side by side looks nowhere else.
pub const SHORT_BYTES: usize = 16;

/// Where the bytes of a text lie.
pub(crate) enum Place {
    /// In the value.
    Short(ArrayString<SHORT_BYTES>),
    /// In memory of their own: more than `SHORT_BYTES` of them.
    Long(String),
}

impl Drop for Place {
    fn drop(self) {
        match self {
            Place::Short(it) => drop(it),
            Place::Long(it) => drop(it),
        }
    }
}

/// An owned text, equal to and ordered with others by its UTF-8 bytes. Contracts see it as the list of these bytes.
pub struct Text {
    place: Place,
}

impl Model for Text {
    ghost use Rattle.std.specs.Prelude.{ℕ, List};
    ghost use Rattle.cat_base.specs.Texts.{place_bytes, LiesRight};

    ghost Value = { List ℕ };

    ghost view = { λ t. place_bytes t.place };

    ghost invariant = { λ t. LiesRight t.place };
}

impl Drop for Text {
    fn drop(self) {
        let Text { place } = self;
        drop(place);
    }
}

/// The text in a value, if it is short.
fn short(text: &str) -> Option<ArrayString<SHORT_BYTES>>
    ensures variant { IsSome result ↔ (length text.now ≤ SHORT_BYTES) }
    ensures text { IfSome result (λ s. s.bytes ≡ text.now) }
{
    ArrayString::from(text).ok()
}

impl Text {
    /// The text of the string, which is taken over.
    pub fn new(text: String) -> Self
        ensures { result ≡ string_bytes text }
    {
        let place = match short(text.as_str()) {
            Some(short) => Place::Short(short),
            None => Place::Long(text),
        };
        Text { place }
    }

    /// A copy of the text. One of at most `SHORT_BYTES` takes no memory.
    pub fn from_str(alloc: Global, text: &str) -> Result<Self, AllocError>
        ensures ok { IfOk result (λ t. t ≡ text.now) }
        ensures short { length text.now ≤ SHORT_BYTES → IsOk result }
    {
        let place = match short(text) {
            Some(short) => Place::Short(short),
            None => Place::Long(String::from_str(alloc, text)?),
        };
        Ok(Text { place })
    }

    /// The text, borrowed.
    pub fn as_str(&self) -> &str
        ensures { result.now ≡ self.now }
    {
        match &self.place {
            Place::Short(short) => short.as_str(),
            Place::Long(long) => long.as_str(),
        }
    }

    /// An equal text. One of at most `SHORT_BYTES` takes no memory.
    pub fn copy(&self) -> Result<Self, AllocError>
        ensures ok { IfOk result (λ t. t ≡ self.now) }
        ensures short { length self.now ≤ SHORT_BYTES → IsOk result }
    {
        let place = match &self.place {
            Place::Short(short) => Place::Short(*short),
            Place::Long(long) => Place::Long(String::from_str(*long.allocator(), long.as_str())?),
        };
        Ok(Text { place })
    }
}

impl PartialEq for Text {
    ghost use Rattle.std.specs.Prelude.{nat_eq};
    ghost use Rattle.std.specs.Cmp.Lexicographic.{pointwise, nat_list_eq_equiv};
    ghost use Rattle.std.specs.Cmp as compare;

    ghost eq = { pointwise nat_eq };

    ghost laws = { compare.partial_equiv_from_equiv nat_list_eq_equiv };

    fn eq(&self, other: &Text) -> bool {
        self.as_str() == other.as_str()
    }
}

impl Eq for Text {
    ghost use Rattle.std.specs.Cmp.Lexicographic.{nat_list_eq_equiv};

    ghost laws = { nat_list_eq_equiv };
}

impl Ord for Text {
    ghost use Rattle.std.specs.Prelude.{refl};
    ghost use Rattle.std.specs.Ordering.{nat_cmp};
    ghost use Rattle.std.specs.Cmp.Lexicographic.{slice_cmp, nat_list_cmp_total, texts_ties};

    ghost cmp = { slice_cmp nat_cmp };

    ghost total = { nat_list_cmp_total };

    ghost matches_partial_cmp = { λ x y. refl };

    ghost matches_eq = { texts_ties };

    fn cmp(&self, other: &Text) -> Ordering {
        self.as_str().cmp(other.as_str())
    }
}

impl PartialOrd for Text {
    ghost use Rattle.std.specs.Ordering.{nat_cmp, as_partial_cmp};
    ghost use Rattle.std.specs.Cmp.Lexicographic.{slice_cmp, texts_po};

    ghost partial_cmp = { as_partial_cmp (slice_cmp nat_cmp) };

    ghost laws = { texts_po };

    fn partial_cmp(&self, other: &Text) -> Option<Ordering> {
        Some(self.cmp(other))
    }
}

/// A set of texts, each once. Contracts see it as the list of its texts in byte order.
pub struct TextSet {
    texts: Vec<Text>,
}

impl Model for TextSet {
    ghost use Rattle.std.specs.Prelude.{ℕ, List};
    ghost use Rattle.cat_base.specs.Texts.{IsTextSet};

    ghost Value = { List (List ℕ) };

    ghost view = { λ s. s.texts.items };

    ghost invariant = { λ s. IsTextSet s.texts.items };
}

impl Drop for TextSet {
    fn drop(self) {
        let TextSet { texts } = self;
        drop(texts);
    }
}

impl TextSet {
    /// The set of no text. It takes no memory until it grows.
    pub fn new(alloc: Global) -> Self
        ensures { result ≡ [] }
    {
        TextSet {
            texts: Vec::new(alloc),
        }
    }

    /// The set of the texts, which may come in any order and more than once. It takes no memory.
    pub fn of(mut texts: Vec<Text>) -> Self
        ensures { result ≡ sorted_set texts.items }
    {
        texts.sort_unstable();
        texts.dedup();
        TextSet { texts }
    }

    /// The set of texts that rise by bytes, each once: they are taken over, and none is looked at.
    pub fn from_sorted(texts: Vec<Text>) -> Self
        requires { IsTextSet texts.items }
        ensures { result ≡ texts.items }
    {
        TextSet { texts }
    }

    /// The texts in byte order.
    pub fn as_slice(&self) -> &[Text]
        ensures value { result.now ≡ self.now }
        ensures sorted { IsTextSet self.now }
    {
        self.texts.as_slice()
    }

    /// How many texts there are.
    pub fn len(&self) -> usize
        ensures { result ≡ length self.now }
    {
        self.texts.len()
    }

    /// Whether the text is in the set, by binary search.
    pub fn contains(&self, text: &str) -> bool
        ensures { IsTrue result ↔ Contains self.now text.now }
    {
        self.texts
            .binary_search_by(|other| other.as_str().cmp(text))
            .is_ok()
    }
}

/// The laws that make `sorted_set` a set: it rises, it has the texts of its list and no other, and no other rising list
/// has just these.
pub fn sorted_sets_are_sets()
    ensures rising { (texts : List (List ℕ)) → IsTextSet (sorted_set texts) }
    ensures members { (texts : List (List ℕ)) (text : List ℕ) → Contains (sorted_set texts) text ↔ Contains texts text }
    ensures only { (texts other : List (List ℕ)) → IsTextSet other
        → ((text : List ℕ) → Contains other text ↔ Contains texts text) → other ≡ sorted_set texts }
{}
