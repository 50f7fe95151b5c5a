//! Numbers as texts of decimal digits.
ghost use Rattle.std.specs.Prelude.{◌≡◌, ℕ, ◌<◌, ◌^◌, ◌↔◌, IsTrue, IfSome, IfNone};
ghost use Rattle.std.specs.Fmt.{decimal};

use crate::numbers::LAST_NUMBER;

/// The number that the text spells in decimal, without a sign or a leading zero, where it is at most [`LAST_NUMBER`].
pub fn parse_number(text: &str) -> Option<u64>
    ensures found { IfSome result (λ n. (n < 2 ^ 63) × (text.now ≡ decimal n)) }
    ensures none { IfNone result ((n : ℕ) → n < 2 ^ 63 → text.now ≡ decimal n → ⊥) }
{
    // `parse` would take a sign and leading zeros.
    if text.starts_with('+') {
        return None;
    }
    if text.starts_with('0') && text.len() > 1 {
        return None;
    }
    match text.parse() {
        Ok(n) if n <= LAST_NUMBER => Some(n),
        _ => None,
    }
}

/// Whether a file's name can have the number of a segment or of a commit: 1 to [`LAST_NUMBER`].
pub fn is_file_number(number: u64) -> bool
    ensures { IsTrue result ↔ ((0 < number) × (number < 2 ^ 63)) }
{
    number != 0 && number <= LAST_NUMBER
}
