//! Lines cut out of bytes that come in pieces, the last of which is gathered in memory that is taken once.
ghost use Rattle.std.specs.Prelude.{◌≡◌, ◌≢◌, ℕ, ◌<◌, ◌≤◌, ◌++◌, [], ◌∷◌};
ghost use Rattle.std.specs.Prelude.{IfSome, IfNone, length, take, slice_index, option_map, vec_capacity};
ghost use Rattle.std.specs.Io.BufRead.{strip_last};
ghost use Rattle.cat_model.specs.Text.{Text};
ghost use Rattle.cat_model.specs.Input.{ended_after, rest_after};
ghost use Rattle.cat_model.specs.Lines.{IsReadable};
ghost use Rattle.cat_protocol.specs.serving.Machine.{short_line};

use cat_base::MAX_LINE_BYTES;
use std::str::from_utf8;

/// How many bytes of a line are gathered: enough to see that it is too long, also without a carriage return at its end.
pub const MAX_GATHERED: usize = MAX_LINE_BYTES + 2;

const LINE_FEED: u8 = b'\n';

const CARRIAGE_RETURN: u8 = b'\r';

/// Where the first line feed is.
fn find_line_feed(bytes: &[u8]) -> Option<usize>
    ensures within { IfSome result (λ at. at < length bytes.now) }
    ensures found { IfSome result (λ at. slice_index bytes.now at ≡ 10) }
    ensures first { IfSome result (λ at. (k : ℕ) → k < at → slice_index bytes.now k ≢ 10) }
    ensures none { IfNone result ((k : ℕ) → k < length bytes.now → slice_index bytes.now k ≢ 10) }
{
    bytes.iter().position(|byte| *byte == LINE_FEED)
}

/// What comes before the first line feed, and what comes after it.
pub fn split_line(bytes: &[u8]) -> Option<(&[u8], &[u8])>
    ensures ended { IfSome result (λ found. (front : Text)
        → ended_after front bytes.now ≡ strip_last 13 (front ++ found.0.now) ∷ ended_after [] found.1.now) }
    ensures rest { IfSome result (λ found. (front : Text) → rest_after front bytes.now ≡ rest_after [] found.1.now) }
    ensures shorter { IfSome result (λ found. length found.1.now < length bytes.now) }
    ensures none { IfNone result ((front : Text) → ended_after front bytes.now ≡ []) }
    ensures all { IfNone result ((front : Text) → rest_after front bytes.now ≡ front ++ bytes.now) }
{
    let at = find_line_feed(bytes)?;
    let (piece, more) = bytes.split_at(at);
    Some((piece, &more[1..]))
}

/// Adds to what was gathered of a line as many of its next bytes as there is room for.
pub fn gather(gathered: &mut Vec<u8>, bytes: &[u8])
    requires room { MAX_GATHERED ≤ vec_capacity gathered.old }
    requires short { length gathered.old.items ≤ MAX_GATHERED }
    ensures items { gathered.new.items ≡ take MAX_GATHERED (gathered.old.items ++ bytes.now) }
    ensures room { MAX_GATHERED ≤ vec_capacity gathered.new }
    ensures short { length gathered.new.items ≤ MAX_GATHERED }
{
    let room = MAX_GATHERED - gathered.len();
    let count = room.min(bytes.len());
    let Ok(()) = gathered.extend_from_slice(&bytes[..count]) else {
        unreachable!()
    };
}

/// A line without the carriage return at its end.
pub fn without_return(line: &[u8]) -> &[u8]
    ensures { result.now ≡ strip_last 13 line.now }
{
    match line {
        [front @ .., CARRIAGE_RETURN] => front,
        _ => line,
    }
}

/// The line, unless it is too long to be read.
pub fn if_short(line: &[u8]) -> Option<&[u8]>
    ensures { option_map (λ l. l.now) result ≡ short_line line.now }
{
    (line.len() <= MAX_LINE_BYTES).then_some(line)
}

/// The text of a line, unless it is too long or no UTF-8.
pub fn text_of(line: &[u8]) -> Option<&str>
    ensures found { IfSome result (λ text. text.now ≡ line.now) }
    ensures readable { IfSome result (λ text. IsReadable line.now) }
    ensures none { IfNone result (IsReadable line.now → ⊥) }
{
    if line.len() > MAX_LINE_BYTES {
        return None;
    }
    match from_utf8(line) {
        Ok(text) => Some(text),
        Err(_) => None,
    }
}
