//! What is laid out in a file tells what it was made of.
ghost use Rattle.std.specs.Prelude.{◌≡◌, ℕ, Bool, List, Option, length, map};
ghost use Rattle.cat_model.specs.Text.{Text};
ghost use Rattle.cat_model.specs.Layout.{ordinal_in, code_in, keywords_of};
ghost use Rattle.cat_model.specs.Ordinals.{dictionary_of};
ghost use Rattle.cat_model.specs.RowSets.{IsPacked};

/// The law that no two columns are laid out alike: a dictionary and the codes of the rows' keywords tell the keywords, and a
/// dictionary and the ordinals of the rows' labels tell the labels.
pub fn columns_are_told_by_their_layouts()
    ensures keywords { (a b : List (Option Text)) → keywords_of a ≡ keywords_of b
        → map (code_in (keywords_of a)) a ≡ map (code_in (keywords_of b)) b → a ≡ b }
    ensures labels { (a b : List (List Text)) → dictionary_of a ≡ dictionary_of b
        → map (map (ordinal_in (dictionary_of a))) a ≡ map (map (ordinal_in (dictionary_of b))) b → a ≡ b }
{}

/// The laws that tie a set to its bytes: it has one spelling, and no other set of as many rows has that one.
pub fn sets_are_told_by_their_bytes()
    ensures bytes { (a b : List ℕ) (s : List Bool) → IsPacked a s → IsPacked b s → a ≡ b }
    ensures sets { (a : List ℕ) (s t : List Bool) → IsPacked a s → IsPacked a t → length s ≡ length t → s ≡ t }
{}
