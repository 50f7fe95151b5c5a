//! Answers of maintenance.
ghost use Rattle.std.specs.Prelude.{◌≡◌, ◌∷◌, [], codes, length, map, Ok};
ghost use Rattle.std.specs.Fmt.{decimal};
ghost use Rattle.std.specs.List.{flat_map};
ghost use Rattle.cat_model.specs.Lines.{line_text, reply_text, segment_words};
ghost use Rattle.cat_model.specs.Run as run;
ghost use Rattle.cat_protocol.specs.sending.Out.{Sent};
ghost use Rattle.cat_protocol.specs.replies.Reply.{news_in_reply, segment_stat_of, stat_of};
ghost use Rattle.cat_protocol.specs.replies.Words.{word_text};

use crate::replies::news::{News, SegmentStat, Stat};
use crate::replies::words::{Word, send_line};
use crate::sending::WriteFault;
use cat_base::SessionNo;
use std::io::Write;

/// Answers what maintenance tells.
pub(crate) fn send_news<W: Write>(
    session: SessionNo,
    news: &News,
    to: &mut W,
) -> Result<(), WriteFault>
    ensures { Sent (W.contents to.old) (W.contents to.new) result
        (reply_text session (Ok (run.Answer.news (news_in_reply news.now)))) }
{
    match news {
        News::Idle => send_told(session, b"idle", to),
        News::Busy => send_told(session, b"busy", to),
        News::BegunMerge(segments) => send_counted(session, b"begun", *segments, to),
        News::Copied(rows) => send_counted(session, b"copied", *rows, to),
        News::Done => send_told(session, b"done", to),
        News::BegunWarming => send_told(session, b"begun", to),
        News::Warmed(rows) => send_counted(session, b"warmed", *rows, to),
        News::Stored => send_told(session, b"stored", to),
        News::Swept(files) => {
            send_line(session, &[Word::Plain(b"OK"), Word::Number(*files)], to)
        }
        News::State(stat) => send_stat(session, stat, to),
    }
}

fn send_told<W: Write>(session: SessionNo, told: &[u8], to: &mut W) -> Result<(), WriteFault>
    ensures { Sent (W.contents to.old) (W.contents to.new) result (line_text (decimal session ∷ codes "OK" ∷ told.now ∷ [])) }
{
    send_line(session, &[Word::Plain(b"OK"), Word::Plain(told)], to)
}

fn send_counted<W: Write>(
    session: SessionNo,
    told: &[u8],
    count: usize,
    to: &mut W,
) -> Result<(), WriteFault>
    ensures { Sent (W.contents to.old) (W.contents to.new) result
        (line_text (decimal session ∷ codes "OK" ∷ told.now ∷ decimal count ∷ [])) }
{
    let count = Word::Number(count as u64);
    send_line(session, &[Word::Plain(b"OK"), Word::Plain(told), count], to)
}

/// What stands behind the session in the first line of how the service stands.
fn stat_words(stat: &Stat) -> [Word<'static>; 7]
    ensures { map word_text result ≡ codes "OK" ∷ decimal stat.now.writes ∷ decimal stat.now.buffered
        ∷ decimal (length stat.now.segments.items) ∷ decimal stat.now.views ∷ decimal stat.now.cached ∷ decimal stat.now.pending ∷ [] }
{
    [
        Word::Plain(b"OK"),
        Word::Number(stat.writes),
        Word::Number(stat.buffered as u64),
        Word::Number(stat.segments.as_slice().len() as u64),
        Word::Number(stat.views as u64),
        Word::Number(stat.cached as u64),
        Word::Number(stat.pending),
    ]
}

/// Answers how the service stands: six numbers, and a line for each segment.
fn send_stat<W: Write>(session: SessionNo, stat: &Stat, to: &mut W) -> Result<(), WriteFault>
    ensures { Sent (W.contents to.old) (W.contents to.new) result
        (reply_text session (Ok (run.Answer.news (run.News.state (stat_of stat.now))))) }
{
    send_line(session, &stat_words(stat), to)?;
    send_segments(session, stat.segments.as_slice(), to)
}

fn send_segments<W: Write>(
    session: SessionNo,
    segments: &[SegmentStat],
    to: &mut W,
) -> Result<(), WriteFault>
    ensures { Sent (W.contents to.old) (W.contents to.new) result
        (flat_map (λ s. line_text (decimal session ∷ segment_words (segment_stat_of s))) segments.now) }
{
    for segment in segments {
        send_segment(session, segment, to)?;
    }
    Ok(())
}

/// Writes the line of a segment.
fn send_segment<W: Write>(
    session: SessionNo,
    segment: &SegmentStat,
    to: &mut W,
) -> Result<(), WriteFault>
    ensures { Sent (W.contents to.old) (W.contents to.new) result
        (line_text (decimal session ∷ segment_words (segment_stat_of segment.now))) }
{
    let number = Word::Number(segment.number);
    let rows = Word::Number(segment.rows as u64);
    let live = Word::Number(segment.live as u64);
    send_line(session, &[number, rows, live], to)
}
