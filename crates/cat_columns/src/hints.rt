//! Hints: where in a dictionary a text can be, by its hash, so that most texts are found, or missed, without a search.
ghost use Rattle.std.specs.Prelude.{◌≡◌, ◌^◌, ◌<◌, ℕ, length, IfOk};
ghost use Rattle.cat_columns.specs.Hints.{hint_of, slot_of, Allows, AreHints};

use crate::hashing::text_hash;
use cat_base::Text;
use std::alloc::{AllocError, Global};

/// What is known of the texts whose hash leads to one slot.
#[derive(Clone, Copy)]
pub(crate) enum Hint {
    /// There is no such text.
    Empty,
    /// The only such text stands at this place.
    One(u32),
    /// There may be several.
    Crowded,
}

/// How many slots there are for each text. Of the texts of a full dictionary, two in five share theirs with another.
const SLOTS: usize = 2;

/// A dictionary of more texts has no hints.
const MOST_TEXTS: usize = 1 << 24;

/// Half a hash is below this.
const HALF: u64 = 1 << 32;

/// The slot that the hash leads to, where there is a slot.
fn slot_of(hash: u64, count: usize) -> usize
    requires { count < 2 ^ 32 }
    ensures value { result ≡ slot_of hash count }
    ensures bound { 0 < count → result < count }
{
    (hash / HALF * count as u64 / HALF) as usize
}

/// What is known once one more text has come to the slot, which stands at this place.
fn joined(hint: Hint, place: u32) -> Hint
    ensures here { Allows result place }
    ensures kept { (other : ℕ) → Allows hint other → Allows result other }
{
    match hint {
        Hint::Empty => Hint::One(place),
        Hint::One(_) | Hint::Crowded => Hint::Crowded,
    }
}

/// Adds a text of this hash, which stands at this place.
fn add(hints: &mut [Hint], hash: u64, place: u32)
    requires some { 0 < length hints.old }
    requires few { length hints.old < 2 ^ 32 }
    ensures long { length hints.new ≡ length hints.old }
    ensures here { Allows (hint_of hints.new hash) place }
    ensures kept { (hash other : ℕ) → Allows (hint_of hints.old hash) other → Allows (hint_of hints.new hash) other }
{
    let slot = slot_of(hash, hints.len());
    hints[slot] = joined(hints[slot], place);
}

/// The hints of the texts; none where there are very many.
pub(crate) fn hints_of(alloc: Global, texts: &[Text]) -> Result<Vec<Hint>, AllocError>
    ensures ok { IfOk result (λ hints. AreHints texts.now hints.items) }
{
    if texts.len() > MOST_TEXTS {
        return Ok(Vec::new(alloc));
    }
    let mut hints = vec![in alloc; Hint::Empty; SLOTS * texts.len()]?;
    for place in 0..texts.len() {
        add(&mut hints, text_hash(texts[place].as_str()), place as u32);
    }
    Ok(hints)
}

/// The hint of the hash; [`Hint::Crowded`] where there are no hints.
pub(crate) fn hint_of(hints: &[Hint], hash: u64) -> Hint
    requires { length hints.now < 2 ^ 32 }
    ensures { result ≡ hint_of hints.now hash }
{
    match hints.get(slot_of(hash, hints.len())) {
        Some(hint) => *hint,
        None => Hint::Crowded,
    }
}
