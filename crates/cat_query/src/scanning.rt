//! The bytes of a query text: marks, spaces, names, and texts that need no quotes.
ghost use Rattle.std.specs.Prelude.{◌≡◌, ◌<◌, take, drop, None, option_map, MatchOption, ◌∷◌};
ghost use Rattle.std.specs.List.{prefix_len};
ghost use Rattle.cat_model.specs.Item.{is_name_byte};
ghost use Rattle.cat_model.specs.Grammar.{is_bare_byte};
ghost use Rattle.cat_model.specs.Reader.{after_spaces};
ghost use Rattle.cat_query.specs.Reading.{behind_byte, behind_mark};

use cat_items::is_name_byte;

/// What stands behind the mark, a character of ASCII, where the text begins with it.
pub(crate) fn behind(text: &str, mark: char) -> Option<&str>
    requires { mark < 128 }
    ensures { MatchOption result (behind_byte mark text.now ≡ None) (λ rest. text.now ≡ mark ∷ rest.now) }
{
    text.strip_prefix(mark)
}

/// What stands behind the mark, where the text begins with it.
pub(crate) fn behind_all<'a>(text: &'a str, mark: &str) -> Option<&'a str>
    ensures { option_map (λ t. t.now) result ≡ behind_mark mark.now text.now }
{
    text.strip_prefix(mark)
}

/// The text from its first byte on that is no space.
pub(crate) fn without_spaces(text: &str) -> &str
    ensures { result.now ≡ after_spaces text.now }
{
    let mut rest = text;
    while let Some(more) = behind(rest, ' ') {
        rest = more;
    }
    rest
}

fn name_len(text: &[u8]) -> usize
    ensures { result ≡ prefix_len is_name_byte text.now }
{
    text.iter().take_while(|b| is_name_byte(**b)).count()
}

/// The longest name at the front, maybe empty, and what stands behind it.
pub(crate) fn name(text: &str) -> (&str, &str)
    ensures front { result.0.now ≡ take (prefix_len is_name_byte text.now) text.now }
    ensures behind { result.1.now ≡ drop (prefix_len is_name_byte text.now) text.now }
{
    text.split_at(name_len(text.as_bytes()))
}

fn is_bare(b: u8) -> bool
    ensures { result ≡ is_bare_byte b }
{
    !(b == b' '
        || b == b'('
        || b == b')'
        || b == b'['
        || b == b']'
        || b == b'"'
        || b == b'*'
        || b == b'\\')
}

fn bare_len(text: &[u8]) -> usize
    ensures { result ≡ prefix_len is_bare_byte text.now }
{
    text.iter().take_while(|b| is_bare(**b)).count()
}

/// The longest text at the front that needs no quotes, maybe empty, and what stands behind it.
pub(crate) fn bare(text: &str) -> (&str, &str)
    ensures front { result.0.now ≡ take (prefix_len is_bare_byte text.now) text.now }
    ensures behind { result.1.now ≡ drop (prefix_len is_bare_byte text.now) text.now }
{
    text.split_at(bare_len(text.as_bytes()))
}
