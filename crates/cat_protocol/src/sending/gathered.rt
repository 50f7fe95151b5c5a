//! Pieces that are gathered, so that they go out in fewer calls of the writer.
ghost use Rattle.std.specs.Prelude.{◌≡◌, []};
ghost use Rattle.std.specs.Fmt.{decimal, signed_decimal};
ghost use Rattle.cat_protocol.specs.sending.Out.{Gathers, Sent};

use crate::sending::pieces::{WriteFault, send};
use arrayvec::ArrayVec;
use itoa::Buffer;
use std::io::Write;
use std::marker::Model;

/// How many bytes are gathered: a page of ten hits has fewer, and so goes out in one call.
const GATHERED_BYTES: usize = 512;

/// The pieces of a text that wait to be written, which lie in the value itself. A line of a reply has some ten pieces, of a
/// few bytes each, and one call of a writer costs more than to copy such a piece.
///
/// Contracts see it as the bytes that wait.
#[derive(Drop)]
pub struct Gathered {
    bytes: ArrayVec<u8, GATHERED_BYTES>,
}

impl Model for Gathered {
    ghost use Rattle.std.specs.Prelude.{ℕ, List};

    ghost Value = { List ℕ };

    ghost view = { λ g. g.bytes.items };
}

impl Gathered {
    /// Nothing waits.
    pub fn new() -> Gathered
        ensures { result ≡ [] }
    {
        Gathered {
            bytes: ArrayVec::new(),
        }
    }

    /// Adds the bytes to those that wait. Where there is no room for them, all go out.
    #[inline(always)]
    pub fn put<W: Write>(&mut self, bytes: &[u8], to: &mut W) -> Result<(), WriteFault>
        ensures { Gathers (W.contents to.old) (W.contents to.new) self.old self.new result bytes.now }
    {
        // The spaces and ends of lines are every other piece: one byte is stored without a call.
        if let [byte] = bytes {
            return match self.bytes.try_push(*byte) {
                Ok(()) => Ok(()),
                Err(_) => self.put_long(bytes, to),
            };
        }
        match self.bytes.try_extend_from_slice(bytes) {
            Ok(()) => Ok(()),
            Err(_) => self.put_long(bytes, to),
        }
    }

    /// Writes what waits, and the bytes behind it.
    #[inline(never)]
    fn put_long<W: Write>(&mut self, bytes: &[u8], to: &mut W) -> Result<(), WriteFault>
        ensures { Gathers (W.contents to.old) (W.contents to.new) self.old self.new result bytes.now }
    {
        send(self.bytes.as_slice(), to)?;
        self.bytes = ArrayVec::new();
        send(bytes, to)
    }

    /// Adds a number in decimal.
    #[inline]
    pub fn put_number<W: Write>(&mut self, number: u64, to: &mut W) -> Result<(), WriteFault>
        ensures { Gathers (W.contents to.old) (W.contents to.new) self.old self.new result (decimal number) }
    {
        self.put(Buffer::new().format(number).as_bytes(), to)
    }

    /// Adds a number in decimal: with a `-` where it is below 0, and no sign otherwise.
    #[inline]
    pub fn put_signed<W: Write>(&mut self, number: i64, to: &mut W) -> Result<(), WriteFault>
        ensures { Gathers (W.contents to.old) (W.contents to.new) self.old self.new result (signed_decimal number) }
    {
        self.put(Buffer::new().format(number).as_bytes(), to)
    }

    /// Writes what waits, behind which no more is gathered.
    #[inline]
    pub fn finish<W: Write>(&self, to: &mut W) -> Result<(), WriteFault>
        ensures { Sent (W.contents to.old) (W.contents to.new) result self.now }
    {
        send(self.bytes.as_slice(), to)
    }
}
