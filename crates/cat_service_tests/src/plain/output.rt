//! The texts of replies, line by line.
ghost use Rattle.std.specs.Prelude.{◌≡◌, ◌∷◌, ◌++◌, [], codes, ℕ, map, option_map, IfOk, OnOk, Ok};
ghost use Rattle.std.specs.Fmt.{decimal};
ghost use Rattle.std.specs.List.{flat_map};
ghost use Rattle.cat_model.specs.Answer.{Found};
ghost use Rattle.cat_model.specs.Lines.{counted_words, entry_words, key_text, line_text, refusal_words, reply_text, source_text};
ghost use Rattle.cat_model.specs.Run as run;
ghost use Rattle.cat_service_tests.specs.plain.Counts.{counted_of, facets_told};
ghost use Rattle.cat_service_tests.specs.plain.Reply.{plain_answer, plain_reply};
ghost use Rattle.cat_search.specs.Keys.{key_of};

use crate::plain::counts::{Counts, LabelCount};
use crate::plain::pages::{Entry, Page};
use crate::plain::reply::{Answer, Reply};
use cat_base::Refusal;
use cat_search::Key;
use itoa::Buffer;
use std::alloc::{AllocError, Global};

impl Reply {
    /// The lines of the reply, each with its line feed: the first, and one for each entry of a page and each count.
    pub fn text(&self, alloc: Global) -> Result<Vec<u8>, AllocError>
        ensures ok { IfOk result (λ t. t.items ≡ reply_text self.now.session (plain_reply self.now.answer)) }
    {
        let mut text = Vec::new(alloc);
        push_reply(&mut text, self)?;
        Ok(text)
    }
}

/// Adds the pieces, one behind another.
fn push_all(to: &mut Vec<u8>, pieces: &[&[u8]]) -> Result<(), AllocError>
    ensures { OnOk result (to.new.items ≡ to.old.items ++ flat_map (λ p. p.now) pieces.now) }
{
    for piece in pieces {
        to.extend_from_slice(piece)?;
    }
    Ok(())
}

/// Adds what is answered to a line of a session.
fn push_reply(to: &mut Vec<u8>, reply: &Reply) -> Result<(), AllocError>
    ensures { OnOk result (to.new.items ≡ to.old.items ++ reply_text reply.now.session (plain_reply reply.now.answer)) }
{
    let mut buffer = Buffer::new();
    let session = buffer.format(reply.session as u64).as_bytes();
    match &reply.answer {
        Ok(answer) => push_answer(to, session, answer),
        Err(refusal) => push_refusal(to, session, *refusal),
    }
}

/// Adds the number of a refusal, and the place where a text is no query.
fn push_refusal(to: &mut Vec<u8>, session: &[u8], refusal: Refusal) -> Result<(), AllocError>
    ensures { OnOk result (to.new.items ≡ to.old.items ++ line_text (session.now ∷ codes "NO" ∷ refusal_words refusal)) }
{
    let mut buffer = Buffer::new();
    let number = buffer.format(refusal.number() as u64).as_bytes();
    match refusal {
        Refusal::Query(place) => {
            let mut second = Buffer::new();
            let place = second.format(place as u64).as_bytes();
            push_all(to, &[session, b" NO ", number, b" ", place, b"\n"])
        }
        _ => push_all(to, &[session, b" NO ", number, b"\n"]),
    }
}

/// Adds what stands behind `OK`, with the lines behind it.
fn push_answer(to: &mut Vec<u8>, session: &[u8], answer: &Answer) -> Result<(), AllocError>
    ensures { (s : ℕ) → session.now ≡ decimal s → OnOk result (to.new.items ≡ to.old.items ++ reply_text s (Ok (plain_answer answer.now))) }
{
    match answer {
        Answer::Number(number) => {
            let mut buffer = Buffer::new();
            let number = buffer.format(*number).as_bytes();
            push_all(to, &[session, b" OK ", number, b"\n"])
        }
        Answer::Found(page) => {
            push_totals(to, session, page.entries.len(), page.total)?;
            push_entries(to, session, page.entries.as_slice())
        }
        Answer::Counts(counts) => {
            push_totals(to, session, counts.matching, counts.met)?;
            push_labels(to, session, counts.counts.as_slice())
        }
        Answer::Source(source) => {
            push_all(
                to,
                &[session, b" OK ", bytes_of_source(source.as_ref()), b"\n"],
            )
        }
    }
}

/// Adds the first line of an answer of several: two numbers.
fn push_totals(
    to: &mut Vec<u8>,
    session: &[u8],
    first: usize,
    second: usize,
) -> Result<(), AllocError>
    ensures { OnOk result (to.new.items ≡ to.old.items ++ line_text (session.now ∷ codes "OK" ∷ decimal first ∷ decimal second ∷ [])) }
{
    let mut buffer = Buffer::new();
    let mut other = Buffer::new();
    let first = buffer.format(first as u64).as_bytes();
    let second = other.format(second as u64).as_bytes();
    push_all(to, &[session, b" OK ", first, b" ", second, b"\n"])
}

/// The bytes of a stored item, or a dot where there is none.
fn bytes_of_source(source: Option<&Vec<u8>>) -> &[u8]
    ensures { result.now ≡ source_text (option_map (λ s. s.now.items) source.entry) }
{
    match source {
        Some(bytes) => bytes.as_slice(),
        None => b".",
    }
}

fn push_labels(to: &mut Vec<u8>, session: &[u8], counts: &[LabelCount]) -> Result<(), AllocError>
    ensures { OnOk result (to.new.items ≡ to.old.items ++ flat_map (λ counted. line_text (session.now ∷ counted_words (counted_of counted))) counts.now) }
{
    for counted in counts {
        push_label(to, session, counted)?;
    }
    Ok(())
}

/// Adds the line of a label.
fn push_label(to: &mut Vec<u8>, session: &[u8], counted: &LabelCount) -> Result<(), AllocError>
    ensures { OnOk result (to.new.items ≡ to.old.items ++ line_text (session.now ∷ counted_words (counted_of counted.now))) }
{
    let mut buffer = Buffer::new();
    let count = buffer.format(counted.count.0 as u64).as_bytes();
    push_all(
        to,
        &[
            session,
            b" ",
            count,
            b" ",
            counted.label.as_str().as_bytes(),
            b"\n",
        ],
    )
}

fn push_entries(to: &mut Vec<u8>, session: &[u8], entries: &[Entry]) -> Result<(), AllocError>
    ensures { OnOk result (to.new.items ≡ to.old.items ++ flat_map (λ entry. line_text (session.now ∷ entry_words entry)) entries.now) }
{
    for entry in entries {
        push_entry(to, session, entry)?;
    }
    Ok(())
}

/// Adds the line of a hit.
fn push_entry(to: &mut Vec<u8>, session: &[u8], entry: &Entry) -> Result<(), AllocError>
    ensures { OnOk result (to.new.items ≡ to.old.items ++ line_text (session.now ∷ entry_words entry.now)) }
{
    let mut buffer = Buffer::new();
    let number = buffer.format(entry.number).as_bytes();
    let id = entry.id.as_str().as_bytes();
    push_all(to, &[session, b" ", number, b" ", id, b" "])?;
    push_key(to, entry.key.as_ref())
}

/// Adds what a hit was sorted by, and the end of its line: a number in decimal, a keyword behind `=`, and a dot where there is neither.
fn push_key(to: &mut Vec<u8>, key: Option<&Key>) -> Result<(), AllocError>
    ensures { OnOk result (to.new.items ≡ to.old.items ++ key_text (option_map (λ k. key_of k.now) key.entry) ++ 10 ∷ []) }
{
    match key {
        None => to.extend_from_slice(b".\n"),
        Some(Key::Number(number)) => {
            let mut buffer = Buffer::new();
            let digits = buffer.format(*number).as_bytes();
            push_all(to, &[digits, b"\n"])
        }
        Some(Key::Keyword(keyword)) => {
            let bytes = keyword.as_str().as_bytes();
            push_all(to, &[b"=", bytes, b"\n"])
        }
    }
}
