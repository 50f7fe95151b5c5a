//! Answers of several lines: pages, counts and names.
ghost use Rattle.std.specs.Prelude.{◌≡◌, ◌∷◌, [], codes, length, map, option_map, Ok};
ghost use Rattle.std.specs.Fmt.{decimal};
ghost use Rattle.std.specs.List.{flat_map};
ghost use Rattle.cat_model.specs.Answer.{Found};
ghost use Rattle.cat_model.specs.Lines.{counted_words, entry_words, key_text, line_text, reply_text};
ghost use Rattle.cat_model.specs.Run as run;
ghost use Rattle.cat_directory.specs.Names.{file_text};
ghost use Rattle.cat_facets.specs.cat_search.Keys.{key_of};
ghost use Rattle.cat_protocol.specs.sending.Out.{Gathers, Sent};
ghost use Rattle.cat_protocol.specs.replies.Words.{word_text};

use crate::replies::words::{Word, put_behind_space, put_first, put_last, put_line, send_line};
use crate::sending::{Gathered, WriteFault};
use cat_base::SessionNo;
use cat_directory::FileName;
use cat_facets::{Entry, FacetCount, Facets, Key, Page};
use itoa::Buffer;
use std::io::Write;

/// What stands behind the session in the first line of a page.
fn page_words(page: &Page) -> [Word<'static>; 3]
    ensures { map word_text result ≡ codes "OK" ∷ decimal (length page.now.entries) ∷ decimal page.now.total ∷ [] }
{
    let shown = Word::Number(page.entries().len() as u64);
    let total = Word::Number(page.total() as u64);
    [Word::Plain(b"OK"), shown, total]
}

/// Answers a page: how many hits are shown and how many there are, and a line for each that is shown.
pub(crate) fn send_page<W: Write>(
    session: SessionNo,
    page: &Page,
    to: &mut W,
) -> Result<(), WriteFault>
    ensures { Sent (W.contents to.old) (W.contents to.new) result
        (reply_text session (Ok (run.Answer.found (Found.page page.now)))) }
{
    let mut lines = Gathered::new();
    put_line(&mut lines, session, &page_words(page), to)?;
    put_entries(&mut lines, session, page.entries(), to)?;
    lines.finish(to)
}

/// Adds a line for each hit.
fn put_entries<W: Write>(
    lines: &mut Gathered,
    session: SessionNo,
    entries: &[Entry],
    to: &mut W,
) -> Result<(), WriteFault>
    ensures { Gathers (W.contents to.old) (W.contents to.new) lines.old lines.new result
        (flat_map (λ entry. line_text (decimal session ∷ entry_words entry)) entries.now) }
{
    let mut digits = Buffer::new();
    let session = digits.format(session as u64).as_bytes();
    let mut spelled = Buffer::new();
    for entry in entries {
        put_entry(lines, session, entry, &mut spelled, to)?;
    }
    Ok(())
}

/// Adds the line of a hit. A page may have a thousand of them, so their words are put one by one, and the lines behind one
/// another; the session is spelled once for all, and the numbers in one buffer.
fn put_entry<W: Write>(
    lines: &mut Gathered,
    session: &[u8],
    entry: &Entry,
    digits: &mut Buffer,
    to: &mut W,
) -> Result<(), WriteFault>
    ensures { Gathers (W.contents to.old) (W.contents to.new) lines.old lines.new result
        (line_text (session.now ∷ entry_words entry.now)) }
{
    put_first(lines, session, entry.number(), digits, to)?;
    put_behind_space(lines, Word::Plain(entry.id().as_bytes()), to)?;
    put_last(lines, key_word(entry.key()), to)
}

/// What a hit was sorted by: a number in decimal, a keyword behind `=`, and a dot where there is neither.
#[inline(always)]
fn key_word(key: Option<&Key>) -> Word
    ensures { word_text result ≡ key_text (option_map (λ k. key_of k.now) key.entry) }
{
    match key {
        None => Word::Plain(b"."),
        Some(Key::Number(number)) => Word::Signed(*number),
        Some(Key::Keyword(keyword)) => Word::Marked(keyword.as_str().as_bytes()),
    }
}

/// Answers counts: how many hits have a label and how many labels they have, and a line for each count that is told.
pub(crate) fn send_counts<W: Write>(
    session: SessionNo,
    facets: &Facets,
    to: &mut W,
) -> Result<(), WriteFault>
    ensures { Sent (W.contents to.old) (W.contents to.new) result
        (reply_text session (Ok (run.Answer.found (Found.facets facets.now)))) }
{
    let counts = facets.counts();
    let matching = Word::Number(facets.matching() as u64);
    let met = Word::Number(facets.met() as u64);
    let words = [Word::Plain(b"OK"), matching, met];
    let mut lines = Gathered::new();
    put_line(&mut lines, session, &words, to)?;
    put_labels(&mut lines, session, counts, to)?;
    lines.finish(to)
}

/// Adds a line for each count that is told.
fn put_labels<W: Write>(
    lines: &mut Gathered,
    session: SessionNo,
    counts: &[FacetCount],
    to: &mut W,
) -> Result<(), WriteFault>
    ensures { Gathers (W.contents to.old) (W.contents to.new) lines.old lines.new result
        (flat_map (λ counted. line_text (decimal session ∷ counted_words counted)) counts.now) }
{
    let mut digits = Buffer::new();
    let session = digits.format(session as u64).as_bytes();
    let mut spelled = Buffer::new();
    for counted in counts {
        put_label(lines, session, counted, &mut spelled, to)?;
    }
    Ok(())
}

/// Adds the line of a label, of a session that is spelled already.
fn put_label<W: Write>(
    lines: &mut Gathered,
    session: &[u8],
    counted: &FacetCount,
    digits: &mut Buffer,
    to: &mut W,
) -> Result<(), WriteFault>
    ensures { Gathers (W.contents to.old) (W.contents to.new) lines.old lines.new result
        (line_text (session.now ∷ counted_words counted.now)) }
{
    put_first(lines, session, counted.count() as u64, digits, to)?;
    put_last(lines, Word::Plain(counted.label().as_bytes()), to)
}

/// Answers names of files: how many, and a line for each.
pub(crate) fn send_names<W: Write>(
    session: SessionNo,
    names: &[FileName],
    to: &mut W,
) -> Result<(), WriteFault>
    ensures { Sent (W.contents to.old) (W.contents to.new) result
        (reply_text session (Ok (run.Answer.names (map file_text names.now)))) }
{
    let many = Word::Number(names.len() as u64);
    send_line(session, &[Word::Plain(b"OK"), many], to)?;
    send_each_name(session, names, to)
}

fn send_each_name<W: Write>(
    session: SessionNo,
    names: &[FileName],
    to: &mut W,
) -> Result<(), WriteFault>
    ensures { Sent (W.contents to.old) (W.contents to.new) result
        (flat_map (λ name. line_text (decimal session ∷ file_text name ∷ [])) names.now) }
{
    for name in names {
        send_name(session, *name, to)?;
    }
    Ok(())
}

/// Writes a line with the text of the name.
fn send_name<W: Write>(session: SessionNo, name: FileName, to: &mut W) -> Result<(), WriteFault>
    ensures { Sent (W.contents to.old) (W.contents to.new) result (line_text (decimal session ∷ file_text name ∷ [])) }
{
    let text = name.spelling();
    send_line(session, &[Word::Plain(text.as_str().as_bytes())], to)
}
