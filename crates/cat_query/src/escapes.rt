//! Texts between quotes.
ghost use Rattle.std.specs.Prelude.{◌≡◌, true, false, take, drop, IfOk, IfSome, option_map};
ghost use Rattle.std.specs.List.{prefix_len};
ghost use Rattle.cat_model.specs.Reader.{quoted_at};
ghost use Rattle.cat_query.specs.Escapes.{unescaped, is_escaped, closing_quote_from, is_no_backslash};

use crate::scanning::behind;
use cat_base::Text;
use std::alloc::{AllocError, Global};

// How many bytes stand before the closing quote.
fn closing_quote(bytes: &[u8]) -> Option<usize>
    ensures { result ≡ closing_quote_from false bytes.now }
{
    let mut escaped = false;
    for (i, b) in bytes.iter().enumerate() {
        let is_quote = *b == b'"';
        let is_backslash = *b == b'\\';
        if escaped {
            if !(is_quote || is_backslash) {
                return None;
            }
            escaped = false;
        } else if is_quote {
            return Some(i);
        } else {
            escaped = is_backslash;
        }
    }
    None
}

/// The text from behind an opening quote up to the closing one, with its backslashes, and what stands behind that quote.
pub(crate) fn quoted(text: &str) -> Option<(&str, &str)>
    ensures parts { option_map (λ x. (unescaped x.0.now, x.1.now)) result ≡ quoted_at false text.now }
    ensures escaped { IfSome result (λ x. is_escaped x.0.now ≡ true) }
{
    let end = closing_quote(text.as_bytes())?;
    let (front, after) = text.split_at(end);
    Some((front, &after[1..]))
}

fn is_no_backslash(b: u8) -> bool
    ensures { result ≡ is_no_backslash b }
{
    b != b'\\'
}

fn plain_len(text: &[u8]) -> usize
    ensures { result ≡ prefix_len is_no_backslash text.now }
{
    text.iter().take_while(|b| is_no_backslash(**b)).count()
}

// The longest text at the front without a backslash, and what stands behind it.
fn plain(text: &str) -> (&str, &str)
    ensures front { result.0.now ≡ take (prefix_len is_no_backslash text.now) text.now }
    ensures behind { result.1.now ≡ drop (prefix_len is_no_backslash text.now) text.now }
{
    text.split_at(plain_len(text.as_bytes()))
}

/// The text without its backslashes.
pub(crate) fn unescape(alloc: Global, text: &str) -> Result<Text, AllocError>
    ensures { IfOk result (λ t. t ≡ unescaped text.now) }
{
    let mut out = String::with_capacity(alloc, text.len())?;
    let mut rest = text;
    loop {
        let (front, after) = plain(rest);
        out.push_str(front)?;
        let Some(escaped) = behind(after, '\\') else {
            return Ok(Text::new(out));
        };
        rest = escaped;
        if let Some(more) = behind(escaped, '\\') {
            out.push_str("\\")?;
            rest = more;
        }
    }
}
