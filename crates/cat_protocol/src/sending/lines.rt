//! The lines that are answered where there is no session, and what stands behind `NO`.
ghost use Rattle.std.specs.Prelude.{◌∷◌, [], codes};
ghost use Rattle.std.specs.Fmt.{decimal};
ghost use Rattle.cat_model.specs.Lines.{line_text, refusal_words, unreadable_text};
ghost use Rattle.cat_model.specs.Served.{refused_text};
ghost use Rattle.cat_protocol.specs.sending.Out.{Sent};

use crate::sending::pieces::{WriteFault, send, send_number};
use cat_base::{Refusal, Token};
use std::io::Write;

/// Answers a line that shows no session, or can't be read.
pub fn send_unreadable<W: Write>(to: &mut W) -> Result<(), WriteFault>
    ensures { Sent (W.contents to.old) (W.contents to.new) result unreadable_text }
{
    send(b"? NO 10\n", to)
}

/// Answers a first line that opened at a token.
pub fn send_opened<W: Write>(token: Token, to: &mut W) -> Result<(), WriteFault>
    ensures { Sent (W.contents to.old) (W.contents to.new) result (line_text (codes "OK" ∷ decimal token ∷ [])) }
{
    send(b"OK ", to)?;
    send_number(token, b"\n", to)
}

/// Answers a first line that was refused.
pub fn send_refused<W: Write>(refusal: Refusal, to: &mut W) -> Result<(), WriteFault>
    ensures { Sent (W.contents to.old) (W.contents to.new) result (refused_text refusal) }
{
    send(b"NO ", to)?;
    send_reason(refusal, to)
}

/// Writes what stands behind `NO`: the number of a refusal, the place where a text is no query, and a line feed.
pub fn send_reason<W: Write>(refusal: Refusal, to: &mut W) -> Result<(), WriteFault>
    ensures { Sent (W.contents to.old) (W.contents to.new) result (line_text (refusal_words refusal)) }
{
    let number = refusal.number() as u64;
    match refusal {
        Refusal::Query(place) => {
            send_number(number, b" ", to)?;
            send_number(place as u64, b"\n", to)
        }
        _ => send_number(number, b"\n", to),
    }
}
