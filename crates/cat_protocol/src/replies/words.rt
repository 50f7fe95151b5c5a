//! Lines of a reply, word by word.
ghost use Rattle.std.specs.Prelude.{◌∷◌, ◌++◌, codes, map};
ghost use Rattle.std.specs.Fmt.{decimal};
ghost use Rattle.std.specs.List.{flat_map};
ghost use Rattle.cat_model.specs.Lines.{line_text};
ghost use Rattle.cat_protocol.specs.sending.Out.{Gathers, Sent};
ghost use Rattle.cat_protocol.specs.replies.Words.{word_text, behind_space};

use crate::sending::{Gathered, WriteFault};
use cat_base::SessionNo;
use itoa::Buffer;
use std::io::Write;

/// A word of a line.
#[derive(Clone, Copy)]
pub(crate) enum Word<'a> {
    /// A number in decimal.
    Number(u64),
    /// A number in decimal, with a `-` where it is below 0.
    Signed(i64),
    /// Bytes as they are.
    Plain(&'a [u8]),
    /// Bytes behind `=`.
    Marked(&'a [u8]),
}

#[inline(always)]
fn put_word<W: Write>(line: &mut Gathered, word: Word, to: &mut W) -> Result<(), WriteFault>
    ensures { Gathers (W.contents to.old) (W.contents to.new) line.old line.new result (word_text word.entry) }
{
    match word {
        Word::Number(number) => line.put_number(number, to),
        Word::Signed(number) => line.put_signed(number, to),
        Word::Plain(bytes) => line.put(bytes, to),
        Word::Marked(bytes) => {
            line.put(b"=", to)?;
            line.put(bytes, to)
        }
    }
}

/// Adds the word behind a space.
#[inline(always)]
pub(crate) fn put_behind_space<W: Write>(
    line: &mut Gathered,
    word: Word,
    to: &mut W,
) -> Result<(), WriteFault>
    ensures { Gathers (W.contents to.old) (W.contents to.new) line.old line.new result (behind_space word.entry) }
{
    line.put(b" ", to)?;
    put_word(line, word, to)
}

/// Begins a line of a session that is spelled already, by it and a number. The buffer that the number is spelled in is lent, so
/// that one serves all lines of a reply.
#[inline(always)]
pub(crate) fn put_first<W: Write>(
    line: &mut Gathered,
    session: &[u8],
    number: u64,
    digits: &mut Buffer,
    to: &mut W,
) -> Result<(), WriteFault>
    ensures { Gathers (W.contents to.old) (W.contents to.new) line.old line.new result (session.now ++ 32 ∷ decimal number) }
{
    line.put(session, to)?;
    line.put(b" ", to)?;
    line.put(digits.format(number).as_bytes(), to)
}

/// Adds the words, each behind a space.
fn put_words<W: Write>(line: &mut Gathered, words: &[Word], to: &mut W) -> Result<(), WriteFault>
    ensures { Gathers (W.contents to.old) (W.contents to.new) line.old line.new result (flat_map behind_space words.now) }
{
    for word in words {
        put_behind_space(line, *word, to)?;
    }
    Ok(())
}

/// Adds the session that a line begins with.
fn put_session<W: Write>(
    line: &mut Gathered,
    session: SessionNo,
    to: &mut W,
) -> Result<(), WriteFault>
    ensures { Gathers (W.contents to.old) (W.contents to.new) line.old line.new result (decimal session) }
{
    line.put_number(session as u64, to)
}

/// Adds the end of a line.
#[inline(always)]
fn end_line<W: Write>(line: &mut Gathered, to: &mut W) -> Result<(), WriteFault>
    ensures { Gathers (W.contents to.old) (W.contents to.new) line.old line.new result (codes "\n") }
{
    line.put(b"\n", to)
}

/// Adds the last word of a line behind a space, and the end of the line.
#[inline(always)]
pub(crate) fn put_last<W: Write>(
    line: &mut Gathered,
    word: Word,
    to: &mut W,
) -> Result<(), WriteFault>
    ensures { Gathers (W.contents to.old) (W.contents to.new) line.old line.new result (behind_space word.entry ++ codes "\n") }
{
    put_behind_space(line, word, to)?;
    end_line(line, to)
}

/// Adds a line of the session.
pub(crate) fn put_line<W: Write>(
    line: &mut Gathered,
    session: SessionNo,
    words: &[Word],
    to: &mut W,
) -> Result<(), WriteFault>
    ensures { Gathers (W.contents to.old) (W.contents to.new) line.old line.new result
        (line_text (decimal session ∷ map word_text words.now)) }
{
    put_session(line, session, to)?;
    put_words(line, words, to)?;
    end_line(line, to)
}

/// Writes a line of the session.
pub(crate) fn send_line<W: Write>(
    session: SessionNo,
    words: &[Word],
    to: &mut W,
) -> Result<(), WriteFault>
    ensures { Sent (W.contents to.old) (W.contents to.new) result (line_text (decimal session ∷ map word_text words.now)) }
{
    let mut line = Gathered::new();
    put_line(&mut line, session, words, to)?;
    line.finish(to)
}
