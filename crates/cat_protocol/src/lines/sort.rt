//! Sorts as lines spell them.
ghost use Rattle.std.specs.Prelude.{◌≡◌, ◌∷◌, ◌++◌, IfSome, IfNone};
ghost use Rattle.cat_model.specs.Text.{Text};
ghost use Rattle.cat_model.specs.Page as model;
ghost use Rattle.cat_model.specs.Lines.{IsSort, sort_text};
ghost use Rattle.cat_facets.specs.cat_search.Sorts.{sort_of};

use crate::lines::words::split_word;
use cat_facets::Sort;
use cat_items::has_name_form;

/// The sort that the name spells behind `+`.
fn rising(name: &str) -> Option<Sort<'_>>
    ensures found { IfSome result (λ sort. IsSort (sort_of sort) × (43 ∷ name.now ≡ sort_text (sort_of sort))) }
    ensures none { IfNone result ((sort : model.Sort) → IsSort sort → 43 ∷ name.now ≡ sort_text sort → ⊥) }
{
    has_name_form(name).then_some(Sort::Rising(name))
}

/// The sort that the name spells behind `-`.
fn falling(name: &str) -> Option<Sort<'_>>
    ensures found { IfSome result (λ sort. IsSort (sort_of sort) × (45 ∷ name.now ≡ sort_text (sort_of sort))) }
    ensures none { IfNone result ((sort : model.Sort) → IsSort sort → 45 ∷ name.now ≡ sort_text sort → ⊥) }
{
    has_name_form(name).then_some(Sort::Falling(name))
}

/// The sort that the word spells: `.` for the order of addition, or `+` or `-` and a name that has the form of a field's.
/// Whether the schema has the field isn't looked at.
fn spelled_sort(word: &str) -> Option<Sort<'_>>
    ensures found { IfSome result (λ sort. IsSort (sort_of sort) × (word.now ≡ sort_text (sort_of sort))) }
    ensures none { IfNone result ((sort : model.Sort) → IsSort sort → word.now ≡ sort_text sort → ⊥) }
{
    if word == "." {
        return Some(Sort::Added);
    }
    if let Some(name) = word.strip_prefix('+') {
        return rising(name);
    }
    let name = word.strip_prefix('-')?;
    falling(name)
}

/// A sort, and the text behind the space that ends it.
pub(crate) fn split_sort(text: &str) -> Option<(Sort<'_>, &str)>
    ensures found { IfSome result (λ parts. IsSort (sort_of parts.0)
        × (text.now ≡ sort_text (sort_of parts.0) ++ 32 ∷ parts.1.now)) }
    ensures none { IfNone result ((sort : model.Sort) (rest : Text) → IsSort sort → text.now ≡ sort_text sort ++ 32 ∷ rest → ⊥) }
{
    let (word, rest) = split_word(text)?;
    let sort = spelled_sort(word)?;
    Some((sort, rest))
}
