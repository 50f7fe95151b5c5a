//! Recorded views with the number of their holders, in rising order of token.
ghost use Rattle.std.specs.Prelude.{◌≡◌, ◌+◌, ◌<◌, ◌^◌, ◌==◌, find, length, ltb, map, not, option_map, position, All, IfOk, IfSome, is_some};
ghost use Rattle.std.specs.List.{list_any, HoldsAt};
ghost use Rattle.cat_directory.specs.Names.{name_of};
ghost use Rattle.cat_lifetimes.specs.records.Counts.{TokensRise, files_dropped, is_kept_from, one_more, recorded_token};

use cat_base::Token;
use cat_directory::FileName;
use cat_views::View;
use std::alloc::{AllocError, Global};

/// A recorded view, and how many sessions hold it (Lucene: a `SearcherTracker` of `SearcherLifetimeManager`).
#[derive(Drop)]
pub struct Recorded {
    /// The view.
    pub view: View,
    /// How many sessions hold it.
    pub holders: usize,
}

impl Recorded {
    /// Whether some session holds it.
    pub fn is_held(&self) -> bool
        ensures { result ≡ ltb 0 self.now.holders }
    {
        self.holders > 0
    }

    /// Whether it is held, or its token is at least this.
    pub(crate) fn is_kept_from(&self, token: Token) -> bool
        ensures { result ≡ is_kept_from token self.now }
    {
        self.is_held() || self.view.token() >= token
    }
}

/// The index of the view of the token, by binary search.
pub(crate) fn index_of(recorded: &[Recorded], token: Token) -> Option<usize>
    requires { TokensRise recorded.now }
    ensures some { IfSome result (λ i. (i < length recorded.now) × HoldsAt (λ r. recorded_token r ≡ token) recorded.now i) }
    ensures none { is_some result ≡ list_any (λ r. recorded_token r == token) recorded.now }
{
    recorded
        .binary_search_by_key(&token, |each| each.view.token())
        .ok()
}

/// The view of the token, with its holders.
pub(crate) fn recorded_under(recorded: &[Recorded], token: Token) -> Option<&Recorded>
    requires { TokensRise recorded.now }
    ensures { option_map (λ r. r.now) result ≡ find (λ r. recorded_token r == token) recorded.now }
{
    let index = index_of(recorded, token)?;
    Some(&recorded[index])
}

/// The first view that nobody holds.
pub(crate) fn first_free(recorded: &[Recorded]) -> Option<usize>
    ensures { result ≡ position (λ r. not (ltb 0 r.holders)) recorded.now }
{
    recorded.iter().position(|each| !each.is_held())
}

/// Counts one holder more of the token.
pub(crate) fn count_hold(recorded: &mut [Recorded], token: Token)
    requires rising { TokensRise recorded.old }
    requires space { All (λ r. r.holders + 1 < 2 ^ 64) recorded.old }
    ensures { recorded.new ≡ map (one_more token) recorded.old }
{
    if let Some(index) = index_of(recorded, token) {
        recorded[index].holders += 1;
    }
}

/// Counts one holder less of the token, which has some.
pub(crate) fn count_release(recorded: &mut [Recorded], token: Token)
    requires rising { TokensRise recorded.old }
    requires some { All (λ r. recorded_token r ≡ token → 0 < r.holders) recorded.old }
    ensures { recorded.old ≡ map (one_more token) recorded.new }
{
    if let Some(index) = index_of(recorded, token) {
        recorded[index].holders -= 1;
    }
}

/// The names of the files of the views that neither are held nor have at least this token, those of each in turn.
pub(crate) fn files_below(
    alloc: Global,
    recorded: &[Recorded],
    token: Token,
) -> Result<Vec<FileName>, AllocError>
    ensures ok { IfOk result (λ names. map name_of names.items ≡ files_dropped token recorded.now) }
{
    let mut names = Vec::new(alloc);
    for each in recorded {
        if !each.is_kept_from(token) {
            let mut files = each.view.files(alloc)?;
            names.append(&mut files)?;
        }
    }
    Ok(names)
}
