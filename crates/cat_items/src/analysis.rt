//! The words of a text: its longest runs of word characters, with ASCII letters lowered.
ghost use Rattle.std.specs.Prelude.{◌≡◌, ◌<◌, ◌≤◌, ℕ, IfOk, length, slice_index, true, false, All, IsUtf8};
ghost use Rattle.cat_model.specs.Words.{is_word_byte, lowered, words};
ghost use Rattle.cat_model.specs.Forms.{IsWord};

use cat_base::{Text, TextSet};
use std::alloc::{AllocError, Global};

/// The first byte past ASCII: the bytes from it on are those of the other characters' UTF-8.
const PAST_ASCII: u8 = 128;

/// Whether the byte is one of a word: an ASCII letter or digit, or any byte of a character past ASCII. The rule is our own,
/// in the manner of Lucene's `CharTokenizer.isTokenChar`.
pub fn is_word_byte(b: u8) -> bool
    ensures { result ≡ is_word_byte b }
{
    b.is_ascii_alphanumeric() || b >= PAST_ASCII
}

// How many bytes at the front are word bytes.
fn run_len(bytes: &[u8]) -> usize
    ensures in_range { result ≤ length bytes.now }
    ensures all { (i : ℕ) → i < result → is_word_byte (slice_index bytes.now i) ≡ true }
    ensures stops { result < length bytes.now → is_word_byte (slice_index bytes.now result) ≡ false }
{
    for (i, b) in bytes.iter().enumerate() {
        if !is_word_byte(*b) {
            return i;
        }
    }
    bytes.len()
}

/// A copy of the text with its ASCII capitals lowered, and all else as it is. Lucene's `LowerCaseFilter` lowers the
/// letters past ASCII too.
pub fn lowered(alloc: Global, text: &str) -> Result<Text, AllocError>
    ensures ok { IfOk result (λ t. t ≡ lowered text.now) }
    ensures utf8 { IfOk result (λ t. IsUtf8 t) }
{
    let mut copy = String::from_str(alloc, text)?;
    copy.make_ascii_lowercase();
    Ok(Text::new(copy))
}

/// The words of a text, each once and in byte order. A word is a longest run of ASCII letters, digits and characters
/// past ASCII, with its ASCII letters lowered.
///
/// Lucene's counterpart is an `Analyzer` of a tokenizer and a `LowerCaseFilter`; the rule is our own.
///
/// The error also stands for a text of 2^32 bytes or more, which no item has.
pub fn words(alloc: Global, text: &str) -> Result<TextSet, AllocError>
    ensures ok { IfOk result (λ s. s ≡ words text.now) }
    ensures forms { IfOk result (λ s. All IsWord s) }
{
    if text.len() > u32::MAX as usize {
        return Err(AllocError);
    }
    let mut found = Vec::new(alloc);
    let mut rest = text;
    while !rest.is_empty() {
        let len = run_len(rest.as_bytes());
        if len == 0 {
            rest = &rest[1..];
        } else {
            let (run, after) = rest.split_at(len);
            found.push(lowered(alloc, run)?)?;
            rest = after;
        }
    }
    Ok(TextSet::of(found))
}
