//! Pages, and the entries that they show.
ghost use Rattle.std.specs.Prelude.{◌≡◌, ◌++◌, ◌∷◌, [], map, option_map, IfOk, OnOk};
ghost use Rattle.cat_search.specs.Ids.{id_text};
ghost use Rattle.cat_search.specs.Keys.{key_of};
ghost use Rattle.cat_search.specs.Standings.{key_shown, entry_shown};
ghost use Rattle.cat_search.specs.Candidates.{standing_of, rank_of};

use crate::ids::Id;
use crate::keys::Key;
use crate::standings::{Candidate, Rank};
use cat_base::WriteNo;
use std::alloc::{AllocError, Global};
use std::marker::Model;

/// A hit as a page shows it (Lucene: a `FieldDoc`).
#[derive(Drop)]
pub struct Entry {
    number: WriteNo,
    id: Id,
    key: Option<Key>,
}

impl Model for Entry {
    ghost use Rattle.std.specs.Prelude.{option_map};
    ghost use Rattle.cat_model.specs.Page as model;
    ghost use Rattle.cat_search.specs.Ids.{id_text};
    ghost use Rattle.cat_search.specs.Keys.{key_of};

    ghost Value = { model.Entry };

    ghost view = { λ e. record { number = e.number; id = id_text e.id; key = option_map key_of e.key } };
}

impl Entry {
    ghost use Rattle.std.specs.Prelude.{◌≡◌, option_map};
    ghost use Rattle.cat_search.specs.Keys.{key_of};

    /// The number of the write that put the item, which a later page takes as its mark.
    pub fn number(&self) -> WriteNo
        ensures { result ≡ self.now.number }
    {
        self.number
    }

    /// The id of the item.
    pub fn id(&self) -> &str
        ensures { result.now ≡ self.now.id }
    {
        self.id.as_str()
    }

    /// What the hit was sorted by: none in order of addition, and none where the item has no value.
    pub fn key(&self) -> Option<&Key>
        ensures { option_map (λ k. key_of k.now) result ≡ self.now.key }
    {
        self.key.as_ref()
    }
}

/// The first hits after a mark, and how many hits there are at all (Lucene: `TopFieldDocs`).
pub struct Page {
    total: usize,
    entries: Vec<Entry>,
}

impl Model for Page {
    ghost use Rattle.cat_model.specs.Page as model;

    ghost Value = { model.Page };

    ghost view = { λ p. record { total = p.total; entries = p.entries.items } };
}

impl Drop for Page {
    fn drop(self) {
        let Page { total: _, entries } = self;
        drop(entries);
    }
}

impl Page {
    ghost use Rattle.std.specs.Prelude.{◌≡◌};

    pub(crate) fn new(total: usize, entries: Vec<Entry>) -> Page
        ensures { result ≡ record { total = total; entries = entries.items } }
    {
        Page { total, entries }
    }

    /// How many hits there are, whatever the mark and whatever is shown.
    pub fn total(&self) -> usize
        ensures { result ≡ self.now.total }
    {
        self.total
    }

    /// The hits that are shown, in the order of the sort.
    pub fn entries(&self) -> &[Entry]
        ensures { result.now ≡ self.now.entries }
    {
        self.entries.as_slice()
    }
}

/// The key that the rank shows, in memory of its own. In order of addition there is none, and this is known where it is
/// inlined.
#[inline(always)]
fn shown_key(alloc: Global, rank: &Rank) -> Result<Option<Key>, AllocError>
    ensures ok { IfOk result (λ k. option_map key_of k ≡ key_shown (rank_of rank.now)) }
{
    match rank {
        Rank::Rising(key) => Ok(Some(key.to_key(alloc)?)),
        Rank::Falling(key) => Ok(Some(key.0.to_key(alloc)?)),
        Rank::Missing => Ok(None),
    }
}

/// Adds the hit as a page shows it, behind the others.
#[inline(always)]
pub(crate) fn push_entry(
    alloc: Global,
    entries: &mut Vec<Entry>,
    candidate: &Candidate,
) -> Result<(), AllocError>
    ensures ok { OnOk result (entries.new.items ≡ entries.old.items ++ entry_shown (standing_of candidate.now) ∷ []) }
{
    entries.push(Entry {
        number: candidate.number,
        id: Id::empty(),
        key: shown_key(alloc, &candidate.rank)?,
    })?;
    match entries.last_mut() {
        Some(entry) => entry.id.fill(alloc, candidate.id.as_str()),
        None => unreachable!(),
    }
}

/// The hits as a page shows them.
pub(crate) fn entries_of(alloc: Global, candidates: &[Candidate]) -> Result<Vec<Entry>, AllocError>
    ensures ok { IfOk result (λ v. v.items ≡ map entry_shown (map standing_of candidates.now)) }
{
    let mut entries = Vec::with_capacity(alloc, candidates.len())?;
    for candidate in candidates {
        push_entry(alloc, &mut entries, candidate)?;
    }
    Ok(entries)
}
