//! Runs of word bytes, which the words of a text are.
ghost use Rattle.std.specs.Prelude.{◌≡◌, ◌<◌, ◌≤◌, ℕ, length, slice_index, true, false, option_map};
ghost use Rattle.std.specs.List.{list_all};
ghost use Rattle.cat_model.specs.Words.{is_word_byte, lowered, words};
ghost use Rattle.cat_query.specs.Runs.{only, same_lowered};

use cat_items::is_word_byte;

/// Whether the bytes are word bytes alone.
pub(crate) fn all_word_bytes(bytes: &[u8]) -> bool
    ensures { result ≡ list_all is_word_byte bytes.now }
{
    bytes.iter().all(|b| is_word_byte(*b))
}

// How many bytes at the front are word bytes.
fn run_len(bytes: &[u8]) -> usize
    ensures in_range { result ≤ length bytes.now }
    ensures all { (i : ℕ) → i < result → is_word_byte (slice_index bytes.now i) ≡ true }
    ensures stops { result < length bytes.now → is_word_byte (slice_index bytes.now result) ≡ false }
{
    for (i, b) in bytes.iter().enumerate() {
        if !is_word_byte(*b) {
            return i;
        }
    }
    bytes.len()
}

fn same_lowered(one: &str, other: &str) -> bool
    ensures { result ≡ same_lowered one.now other.now }
{
    one.eq_ignore_ascii_case(other)
}

/// The first of the text's runs of word characters, where they all are one word.
pub(crate) fn only_run(text: &str) -> Option<&str>
    ensures { option_map (λ run. lowered run.now) result ≡ only (words text.now) }
{
    let mut found: Option<&str> = None;
    let mut rest = text;
    while !rest.is_empty() {
        let len = run_len(rest.as_bytes());
        if len == 0 {
            rest = &rest[1..];
        } else {
            let (run, after) = rest.split_at(len);
            if let Some(first) = found {
                if !same_lowered(first, run) {
                    return None;
                }
            } else {
                found = Some(run);
            }
            rest = after;
        }
    }
    found
}
