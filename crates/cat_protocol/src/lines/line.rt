//! Lines, and the sessions that they show.
ghost use Rattle.std.specs.Prelude.{◌≡◌, ℕ, ◌≤◌, IfOk, IfErr};
ghost use Rattle.std.specs.Fmt.{decimal};
ghost use Rattle.cat_model.specs.Lines.{ShowsSession};
ghost use Rattle.cat_model.specs.Limits.{session_limit};
ghost use Rattle.cat_protocol.specs.lines.Line.{said_of, SpellsOrShows};

use crate::lines::command::Command;
use crate::lines::words::split_word;
use cat_base::{LAST_SESSION, Refusal, SessionNo, parse_number};

/// A line that shows a session.
#[derive(Clone, Copy)]
pub struct Line<'a> {
    pub session: SessionNo,
    pub command: Command<'a>,
}

impl<'a> Line<'a> {
    /// Reads a line: its session is all before the first space, or the whole line, and is 0 to 9,999 in decimal without
    /// a sign or a leading zero. Behind it stands a command, with one space between each two words:
    ///
    /// `PUT <item>`, `DEL <id>`, `DELW <query>`, `REFRESH`, `OPEN`, `OPEN <token>`, `CLOSE <token>`,
    /// `FIND <token> <count> <sort> <mark> <query>`, `FACETS <token> <dimension> <count> <query>`, `GET <token> <id>`,
    /// `FILES t <token>`, `FILES g <generation>`, `COMMIT`, `COMMIT <text>`, `NOTE <generation>`, `SNAP`,
    /// `UNSNAP <generation>`, `PRUNE <count>`, `MERGE`, `FORCE`, `WARM`, `SWEEP` or `STAT`.
    ///
    /// Anything else is read as `Command::NoForm`. A sort is `.`, or `+` or `-` and a name; a mark is `.` or the number of
    /// a record. An item, an id, a query and a text are the rest of the line; only a commit's text can't be empty so.
    ///
    /// `Refusal::Line` says that no session can be read.
    pub fn read(text: &'a str) -> Result<Line<'a>, Refusal>
        ensures found { IfOk result (λ line. SpellsOrShows text.now line.session (said_of line.command)) }
        ensures none { IfErr result (λ e. (e ≡ Refusal.Line) × ((session : ℕ) → ShowsSession text.now session → ⊥)) }
    {
        let Some((first, rest)) = split_word(text) else {
            let session = session_of(text)?;
            return Ok(Line {
                session,
                command: Command::NoForm,
            });
        };
        let session = session_of(first)?;
        Ok(Line {
            session,
            command: Command::read(rest),
        })
    }
}

/// The session that the word spells.
fn session_of(word: &str) -> Result<SessionNo, Refusal>
    ensures found { IfOk result (λ session. (session ≤ session_limit) × (word.now ≡ decimal session)) }
    ensures none { IfErr result (λ e. (e ≡ Refusal.Line) × ((session : ℕ) → session ≤ session_limit → word.now ≡ decimal session → ⊥)) }
{
    match parse_number(word) {
        Some(session) if session <= LAST_SESSION as u64 => Ok(session as SessionNo),
        _ => Err(Refusal::Line),
    }
}
