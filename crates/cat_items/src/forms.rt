//! The forms of ids, names, keywords, labels and words.
ghost use Rattle.std.specs.Prelude.{◌≡◌, ◌↔◌, IsTrue};
ghost use Rattle.std.specs.List.{list_all};
ghost use Rattle.std.specs.Char.{is_ascii_graphic};
ghost use Rattle.cat_model.specs.Item.{is_id, is_field_name, is_name_byte, has_name_form};
ghost use Rattle.cat_model.specs.Forms.{is_plain_byte, is_low_byte, IsKeyword, IsLabel, IsWord};
ghost use Rattle.cat_items.specs.Reading.{keyword_fault, label_fault};

use crate::analysis::is_word_byte;
use cat_base::{MAX_FIELD_NAME_BYTES, MAX_ID_BYTES, MAX_KEYWORD_BYTES, Refusal};

fn all_graphic(text: &str) -> bool
    ensures { result ≡ list_all is_ascii_graphic text.now }
{
    text.as_bytes().iter().all(|b| b.is_ascii_graphic())
}

/// Whether a text has the form of an id: 1 to 64 bytes, each from `!` to `~`.
pub fn id_ok(id: &str) -> bool
    ensures { result ≡ is_id id.now }
{
    !id.is_empty() && id.len() <= MAX_ID_BYTES && all_graphic(id)
}

/// Whether the byte may stand in a field's name: a lower ASCII letter, a digit or `_`.
pub fn is_name_byte(b: u8) -> bool
    ensures { result ≡ is_name_byte b }
{
    b.is_ascii_lowercase() || b.is_ascii_digit() || b == b'_'
}

fn all_name_bytes(bytes: &[u8]) -> bool
    ensures { result ≡ list_all is_name_byte bytes.now }
{
    bytes.iter().all(|b| is_name_byte(*b))
}

/// Whether a text has the form of a field's name: 1 to 32 bytes, a lower letter and then lower letters, digits and `_`.
/// `id` has it, which no field may be named.
pub fn has_name_form(name: &str) -> bool
    ensures { result ≡ has_name_form name.now }
{
    match name.as_bytes() {
        [] => false,
        [first, rest @ ..] => {
            first.is_ascii_lowercase() && all_name_bytes(rest) && rest.len() < MAX_FIELD_NAME_BYTES
        }
    }
}

/// Whether a field may have the name: it has the form of one and isn't `id`.
pub fn name_ok(name: &str) -> bool
    ensures { result ≡ is_field_name name.now }
{
    has_name_form(name) && name != "id"
}

fn is_plain_byte(b: u8) -> bool
    ensures { result ≡ is_plain_byte b }
{
    b >= b' ' && b != 127
}

fn all_plain(text: &str) -> bool
    ensures { result ≡ list_all is_plain_byte text.now }
{
    text.as_bytes().iter().all(|b| is_plain_byte(*b))
}

/// Whether a text has the form of a keyword: at most 128 bytes, none of them a control character of ASCII. Lucene's
/// `StringField` takes any term of at most `IndexWriter.MAX_TERM_LENGTH` bytes; the form is our own.
pub fn keyword_ok(text: &str) -> bool
    ensures { IsTrue result ↔ IsKeyword text.now }
{
    text.len() <= MAX_KEYWORD_BYTES && all_plain(text)
}

/// Whether a text has the form of a label: a keyword that isn't empty. Lucene's
/// `SortedSetDocValuesFacetField` takes no empty label either.
pub fn label_ok(text: &str) -> bool
    ensures { IsTrue result ↔ IsLabel text.now }
{
    !text.is_empty() && keyword_ok(text)
}

// A byte of a word, and no capital of ASCII.
fn is_low_byte(b: u8) -> bool
    ensures { result ≡ is_low_byte b }
{
    is_word_byte(b) && !b.is_ascii_uppercase()
}

fn all_low(text: &str) -> bool
    ensures { result ≡ list_all is_low_byte text.now }
{
    text.as_bytes().iter().all(|b| is_low_byte(*b))
}

/// Whether a text has the form of a word, as [`words`](crate::words) makes them: 1 to 4,294,967,295 bytes, each an ASCII
/// letter or digit or of a character past ASCII, and no ASCII capital. The form is our own.
pub fn word_ok(text: &str) -> bool
    ensures { IsTrue result ↔ IsWord text.now }
{
    !text.is_empty() && text.len() <= u32::MAX as usize && all_low(text)
}

/// What is wrong with a text as a keyword.
pub(crate) fn keyword_fault(text: &str) -> Option<Refusal>
    ensures { result ≡ keyword_fault text.now }
{
    if text.len() > MAX_KEYWORD_BYTES {
        Some(Refusal::Large)
    } else if all_plain(text) {
        None
    } else {
        Some(Refusal::Kind)
    }
}

/// What is wrong with a text as a label: it is a keyword that isn't empty.
pub(crate) fn label_fault(text: &str) -> Option<Refusal>
    ensures { result ≡ label_fault text.now }
{
    if text.is_empty() {
        Some(Refusal::Kind)
    } else {
        keyword_fault(text)
    }
}
