//! What each refusal shows, and that a bare `?` lifts want of memory: no line shows either, and no contract says the sentences.
use crate::verdict::expect_none;
use cat_base::Refusal;
use std::alloc::{AllocError, Global};
use std::sync::Arc;
use std::test::Fail;

// Each refusal, its number, and the sentence that it shows.
const SHOWN: &[(Refusal, u8, &str)] = &[
    (
        Refusal::Line,
        10,
        "10: the line is no command of the protocol",
    ),
    (Refusal::Json, 11, "11: the text is not JSON"),
    (
        Refusal::Member,
        12,
        "12: a member of the item is not a field of the schema",
    ),
    (Refusal::Kind, 13, "13: a value has the wrong kind"),
    (
        Refusal::Id,
        14,
        "14: the id is missing or has the wrong form",
    ),
    (
        Refusal::Large,
        15,
        "15: an item, keyword, label or list of labels is too large",
    ),
    (
        Refusal::Spent,
        16,
        "16: the last number is used up, or a limit is reached",
    ),
    (
        Refusal::NotHeld,
        20,
        "20: the session does not hold this token",
    ),
    (
        Refusal::Gone,
        21,
        "21: no view is recorded under this token",
    ),
    (
        Refusal::Full,
        22,
        "22: all recorded views are held, and there is no room for another",
    ),
    (
        Refusal::Mark,
        23,
        "23: the mark is not a record of the held view",
    ),
    (
        Refusal::Query(6),
        24,
        "24: the query cannot be read at byte 6",
    ),
    (
        Refusal::Count,
        25,
        "25: more than 1000 entries were asked for",
    ),
    (Refusal::NoCommit, 26, "26: there is no such commit"),
    (Refusal::NoSnapshot, 27, "27: the commit has no snapshot"),
    (
        Refusal::SortField,
        28,
        "28: the sort needs a number or keyword field",
    ),
    (
        Refusal::NotFacet,
        29,
        "29: the dimension is not a facet field",
    ),
    (Refusal::Device, 30, "30: the storage device failed"),
    (Refusal::Damaged, 31, "31: a file is damaged or missing"),
    (Refusal::Memory, 40, "40: out of memory"),
];

/// Whether the refusal shows the sentence.
fn is_shown(alloc: Global, refusal: &Refusal, sentence: &str) -> Result<bool, AllocError> {
    let shown = format!(in alloc; "{refusal}")?;
    Ok(shown.as_str() == sentence)
}

/// The first sentence whose refusal has another number, or shows another sentence.
fn shown_otherwise(
    alloc: Global,
    rows: &[(Refusal, u8, &'static str)],
) -> Result<Option<&'static str>, AllocError> {
    for (refusal, number, sentence) in rows {
        if refusal.number() != *number || !is_shown(alloc, refusal, sentence)? {
            return Ok(Some(sentence));
        }
    }
    Ok(None)
}

/// A bare `?` on each kind of refused allocation.
fn shared(alloc: Global, word: &str) -> Result<Vec<Arc<String>>, Refusal> {
    let first = Arc::new(alloc, String::from_str(alloc, word)?)?;
    let mut all = Vec::new(alloc);
    all.push(Arc::try_clone(&first)?)?;
    all.push(first)?;
    Ok(all)
}

/// Whether there are two words, of which the first is this one.
fn are_two_of(words: &[Arc<String>], word: &str) -> bool {
    words.len() == 2 && words[0].as_str() == word
}

/// What isn't so of refusals.
fn failing(alloc: Global) -> Result<Option<&'static str>, Refusal> {
    if !are_two_of(&shared(alloc, "red")?, "red") {
        return Ok(Some("words are shared by a bare question mark"));
    }
    Ok(shown_otherwise(alloc, SHOWN)?)
}

#[test]
fn each_refusal_shows_its_sentence(rt: HostRuntime) -> Result<(), Fail> {
    expect_none(failing(rt.alloc()))
}
