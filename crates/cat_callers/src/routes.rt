//! Which thread answers a line: that of the session which the line shows.
ghost use Rattle.std.specs.Prelude.{◌≡◌, ◌≢◌, ◌<◌, ◌≤◌, ◌%◌, ℕ, IfNone, IfSome, length, slice_index};
ghost use Rattle.std.specs.Fmt.{decimal};
ghost use Rattle.cat_model.specs.Limits.{session_limit};
ghost use Rattle.cat_model.specs.Lines.{ShowsSession};

use cat_base::{LAST_SESSION, SessionNo, parse_number};
use std::str::from_utf8;

/// Where the first space is.
fn find_space(line: &[u8]) -> Option<usize>
    ensures within { IfSome result (λ at. at < length line.now) }
    ensures found { IfSome result (λ at. slice_index line.now at ≡ 32) }
    ensures first { IfSome result (λ at. (k : ℕ) → k < at → slice_index line.now k ≢ 32) }
    ensures none { IfNone result ((k : ℕ) → k < length line.now → slice_index line.now k ≢ 32) }
{
    line.iter().position(|byte| *byte == b' ')
}

/// What stands before the first space of the line, or the whole line. It spells the session that the line shows, if there is one.
fn first_word(line: &[u8]) -> &[u8]
    ensures spelled { (session : ℕ) → ShowsSession line.now session → result.now ≡ decimal session }
    ensures shown { (session : ℕ) → session ≤ session_limit → result.now ≡ decimal session → ShowsSession line.now session }
{
    match find_space(line) {
        Some(at) => line.split_at(at).0,
        None => line,
    }
}

/// The session that the line shows. No more of the line is read than its first word, so behind it may stand what can't be read.
pub(crate) fn session_of(line: &[u8]) -> Option<SessionNo>
    ensures shown { IfSome result (λ session. ShowsSession line.now session) }
    ensures none { IfNone result ((session : ℕ) → ShowsSession line.now session → ⊥) }
{
    let Ok(word) = from_utf8(first_word(line)) else {
        return None;
    };
    match parse_number(word) {
        Some(session) if session <= LAST_SESSION as u64 => Some(session as SessionNo),
        _ => None,
    }
}

/// The thread that answers the line: that of the session which the line shows, and the first where it shows none.
pub(crate) fn place_of(line: &[u8], threads: usize) -> usize
    ensures { (session : ℕ) → ShowsSession line.now session → 0 < threads → result ≡ session % threads }
{
    match session_of(line) {
        Some(session) if threads > 0 => session as usize % threads,
        _ => 0,
    }
}
