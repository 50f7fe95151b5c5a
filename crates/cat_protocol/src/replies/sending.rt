//! Replies as they go out.
ghost use Rattle.std.specs.Prelude.{◌∷◌, [], codes, option_map, Ok};
ghost use Rattle.std.specs.Fmt.{decimal};
ghost use Rattle.cat_model.specs.Lines.{line_text, reply_text, source_text};
ghost use Rattle.cat_protocol.specs.sending.Out.{Sent};
ghost use Rattle.cat_protocol.specs.replies.Reply.{answer_of, reply_of};
ghost use Rattle.cat_protocol.specs.replies.Words.{word_text};

use crate::replies::answer::Answer;
use crate::replies::lists::{send_counts, send_names, send_page};
use crate::replies::reply::Reply;
use crate::replies::telling::send_news;
use crate::replies::words::{Word, send_line};
use crate::sending::{WriteFault, send_number, send_reason};
use cat_base::SessionNo;
use std::io::Write;

/// Answers a line of a session: writes the lines of the reply, each with its line feed.
pub fn send_reply<W: Write>(reply: &Reply, to: &mut W) -> Result<(), WriteFault>
    ensures { Sent (W.contents to.old) (W.contents to.new) result
        (reply_text reply.now.session (reply_of reply.now.answer)) }
{
    match &reply.answer {
        Ok(answer) => send_answer(reply.session, answer, to),
        Err(refusal) => {
            send_number(reply.session as u64, b" NO ", to)?;
            send_reason(*refusal, to)
        }
    }
}

fn send_answer<W: Write>(session: SessionNo, answer: &Answer, to: &mut W) -> Result<(), WriteFault>
    ensures { Sent (W.contents to.old) (W.contents to.new) result
        (reply_text session (Ok (answer_of answer.now))) }
{
    match answer {
        Answer::Number(number) => send_ok(session, Word::Number(*number), to),
        Answer::Found(page) => send_page(session, page, to),
        Answer::Counts(facets) => send_counts(session, facets, to),
        Answer::Source(source) => send_source(session, source.as_ref(), to),
        Answer::Names(names) => send_names(session, names.as_slice(), to),
        Answer::CommitText(text) => send_ok(session, Word::Marked(text.as_str().as_bytes()), to),
        Answer::News(news) => send_news(session, news, to),
    }
}

/// Answers `OK` and a word.
fn send_ok<W: Write>(session: SessionNo, word: Word, to: &mut W) -> Result<(), WriteFault>
    ensures { Sent (W.contents to.old) (W.contents to.new) result
        (line_text (decimal session ∷ codes "OK" ∷ word_text word.entry ∷ [])) }
{
    send_line(session, &[Word::Plain(b"OK"), word], to)
}

/// Answers a stored item, or a dot where there is none.
fn send_source<W: Write>(
    session: SessionNo,
    source: Option<&Vec<u8>>,
    to: &mut W,
) -> Result<(), WriteFault>
    ensures { Sent (W.contents to.old) (W.contents to.new) result
        (line_text (decimal session ∷ codes "OK" ∷ source_text (option_map (λ s. s.now.items) source.entry) ∷ [])) }
{
    let bytes = match source {
        Some(bytes) => bytes.as_slice(),
        None => b".",
    };
    send_ok(session, Word::Plain(bytes), to)
}
