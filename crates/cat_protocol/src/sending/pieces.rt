//! The pieces that a text is made of: bytes, and numbers with the bytes behind them.
ghost use Rattle.std.specs.Prelude.{◌≡◌, ◌≤◌, ◌++◌, length, take, IfOk, OnErr};
ghost use Rattle.std.specs.Fmt.{decimal};
ghost use Rattle.std.specs.Io.KnownBytes.{Appends, Keeps};
ghost use Rattle.cat_protocol.specs.sending.Out.{Sent, taken_by};

use itoa::Buffer;
use std::io;
use std::io::{ErrorKind, Write};

/// A write failed, or took nothing.
#[derive(Drop)]
pub struct WriteFault;

/// How many bytes a call of the writer took that answers so: none where a signal interrupted it, which is no fault. To take
/// none for no such reason is one.
#[inline(always)]
fn taken(answer: &io::Result<usize>) -> Result<usize, WriteFault>
    ensures { result ≡ taken_by answer.now }
{
    match answer {
        Ok(0) => Err(WriteFault),
        Ok(n) => Ok(*n),
        Err(error) => match error.kind() {
            ErrorKind::Interrupted => Ok(0),
            _ => Err(WriteFault),
        },
    }
}

/// One call of the writer.
#[inline(always)]
fn send_some<W: Write>(bytes: &[u8], to: &mut W) -> Result<usize, WriteFault>
    ensures bound { IfOk result (λ n. n ≤ length bytes.now) }
    ensures ok { IfOk result (λ n. Appends (W.contents to.old) (W.contents to.new) (take n bytes.now)) }
    ensures err { OnErr result (Keeps (W.contents to.old) (W.contents to.new)) }
{
    taken(&to.write(bytes))
}

/// Writes the bytes in as many calls as the writer asks for. One that is interrupted without end is given up.
fn send_rest<W: Write>(bytes: &[u8], to: &mut W) -> Result<(), WriteFault>
    ensures { Sent (W.contents to.old) (W.contents to.new) result bytes.now }
{
    let mut sent = 0;
    for _ in 0..u32::MAX {
        if sent >= bytes.len() {
            return Ok(());
        }
        sent += send_some(&bytes[sent..], to)?;
    }
    Err(WriteFault)
}

/// Writes all of the bytes, in as many calls as the writer asks for. One that is interrupted without end is given up.
///
/// A writer that gathers what it is given takes a piece in one call. That call is put in place of this one, so that a piece
/// of a reply costs about what its copy does.
#[inline(always)]
pub fn send<W: Write>(bytes: &[u8], to: &mut W) -> Result<(), WriteFault>
    ensures { Sent (W.contents to.old) (W.contents to.new) result bytes.now }
{
    if bytes.is_empty() {
        return Ok(());
    }
    let sent = send_some(bytes, to)?;
    if sent == bytes.len() {
        return Ok(());
    }
    send_rest(&bytes[sent..], to)
}

/// Hands on what the writer holds back.
pub fn flush<W: Write>(to: &mut W) -> Result<(), WriteFault>
    ensures { Keeps (W.contents to.old) (W.contents to.new) }
{
    match to.flush() {
        Ok(()) => Ok(()),
        Err(_) => Err(WriteFault),
    }
}

/// Writes a number in decimal, and the bytes behind it.
#[inline]
pub fn send_number<W: Write>(number: u64, behind: &[u8], to: &mut W) -> Result<(), WriteFault>
    ensures { Sent (W.contents to.old) (W.contents to.new) result (decimal number ++ behind.now) }
{
    send(Buffer::new().format(number).as_bytes(), to)?;
    send(behind, to)
}
