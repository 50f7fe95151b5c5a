//! The words of a line, and the numbers, names and marks that they spell.
ghost use Rattle.std.specs.Prelude.{◌≡◌, ℕ, Option, ◌∷◌, ◌++◌, IsTrue, IfSome, IfNone};
ghost use Rattle.std.specs.Fmt.{decimal};
ghost use Rattle.cat_model.specs.Text.{Text};
ghost use Rattle.cat_model.specs.Item as model;
ghost use Rattle.cat_model.specs.Lines.{IsNumber, mark_text};
ghost use Rattle.cat_protocol.specs.lines.Words.{HasNoSpace};

use cat_base::{WriteNo, parse_number};
use cat_items::has_name_form;

/// The text before the first space, and the text behind it.
pub(crate) fn split_word(text: &str) -> Option<(&str, &str)>
    ensures found { IfSome result (λ parts. text.now ≡ parts.0.now ++ 32 ∷ parts.1.now) }
    ensures first { IfSome result (λ parts. HasNoSpace parts.0.now) }
    ensures none { IfNone result (HasNoSpace text.now) }
{
    text.split_once(' ')
}

/// A number, and the text behind the space that ends it.
pub(crate) fn split_number(text: &str) -> Option<(u64, &str)>
    ensures found { IfSome result (λ parts. IsNumber parts.0 × (text.now ≡ decimal parts.0 ++ 32 ∷ parts.1.now)) }
    ensures none { IfNone result ((n : ℕ) (rest : Text) → IsNumber n → text.now ≡ decimal n ++ 32 ∷ rest → ⊥) }
{
    let (word, rest) = split_word(text)?;
    let n = parse_number(word)?;
    Some((n, rest))
}

/// The word, if it has the form of a field's name.
fn name(word: &str) -> Option<&str>
    ensures found { IfSome result (λ name. IsTrue (model.has_name_form name.now) × (word.now ≡ name.now)) }
    ensures none { IfNone result ((name : Text) → IsTrue (model.has_name_form name) → word.now ≡ name → ⊥) }
{
    has_name_form(word).then_some(word)
}

/// A name of the form of a field's, and the text behind the space that ends it.
pub(crate) fn split_name(text: &str) -> Option<(&str, &str)>
    ensures found { IfSome result (λ parts. IsTrue (model.has_name_form parts.0.now)
        × (text.now ≡ parts.0.now ++ 32 ∷ parts.1.now)) }
    ensures none { IfNone result ((name rest : Text) → IsTrue (model.has_name_form name) → text.now ≡ name ++ 32 ∷ rest → ⊥) }
{
    let (word, rest) = split_word(text)?;
    let name = name(word)?;
    Some((name, rest))
}

/// The mark that the word spells: `.` for none, or the number of a record.
fn mark(word: &str) -> Option<Option<WriteNo>>
    ensures found { IfSome result (λ mark. IfSome mark IsNumber × (word.now ≡ mark_text mark)) }
    ensures none { IfNone result ((mark : Option ℕ) → IfSome mark IsNumber → word.now ≡ mark_text mark → ⊥) }
{
    if word == "." {
        return Some(None);
    }
    let number = parse_number(word)?;
    Some(Some(number))
}

/// A mark, and the text behind the space that ends it.
pub(crate) fn split_mark(text: &str) -> Option<(Option<WriteNo>, &str)>
    ensures found { IfSome result (λ parts. IfSome parts.0 IsNumber × (text.now ≡ mark_text parts.0 ++ 32 ∷ parts.1.now)) }
    ensures none { IfNone result ((mark : Option ℕ) (rest : Text) → IfSome mark IsNumber → text.now ≡ mark_text mark ++ 32 ∷ rest → ⊥) }
{
    let (word, rest) = split_word(text)?;
    let mark = mark(word)?;
    Some((mark, rest))
}
