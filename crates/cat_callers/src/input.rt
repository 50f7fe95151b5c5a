//! Lines cut out of a reader's bytes, one at a time.
ghost use Rattle.std.specs.Prelude.{◌≤◌, ◌<◌, IfSome, length, vec_capacity};
ghost use Rattle.cat_threads.specs.cat_commands.cat_protocol.declared.serving.input.TheConstants.{MAX_GATHERED};

use cat_threads::cat_protocol::serving::{MAX_GATHERED, gather, split_line, without_return};
use std::alloc::{AllocError, Global};
use std::io::{ErrorKind, Read};

/// How many bytes are read at once.
const CHUNK: usize = 65_536;

/// A line that comes in pieces.
#[derive(Drop)]
struct Gathering {
    bytes: Vec<u8>,
    ghost room: { MAX_GATHERED ≤ vec_capacity bytes },
    ghost short: { length bytes.items ≤ MAX_GATHERED },
}

impl Gathering {
    fn new(alloc: Global) -> Result<Gathering, AllocError> {
        Ok(Gathering {
            bytes: Vec::with_capacity(alloc, MAX_GATHERED)?,
        })
    }

    /// Takes the bytes up to the first line feed, and says what stands behind it; all of them, where there is none.
    fn take<'a>(&mut self, bytes: &'a [u8]) -> Option<&'a [u8]>
        ensures { IfSome result (λ rest. length rest.now < length bytes.now) }
    {
        match split_line(bytes) {
            Some((piece, rest)) => {
                gather(&mut self.bytes, piece);
                Some(rest)
            }
            None => {
                gather(&mut self.bytes, bytes);
                None
            }
        }
    }

    fn clear(&mut self) {
        self.bytes.clear();
    }
}

/// What comes of an input.
#[derive(Clone, Copy)]
pub enum Next {
    /// A line.
    Line,
    /// No line more.
    End,
    /// A read failed.
    Fault,
}

/// The lines of an input.
#[derive(Drop)]
pub struct Lines {
    chunk: Vec<u8>,
    // What isn't looked at yet of the chunk.
    from: usize,
    to: usize,
    gathering: Gathering,
    has_line_feed: bool,
}

impl Lines {
    /// No line yet. All memory is taken here.
    pub fn new(alloc: Global) -> Result<Lines, AllocError> {
        Ok(Lines {
            chunk: vec![in alloc; 0; CHUNK]?,
            from: 0,
            to: 0,
            gathering: Gathering::new(alloc)?,
            has_line_feed: false,
        })
    }

    /// The line that came last. More than fits a line is cut, but to no less than one byte more than may be read.
    pub fn line(&self) -> &[u8] {
        let bytes = self.gathering.bytes.as_slice();
        if self.has_line_feed {
            without_return(bytes)
        } else {
            bytes
        }
    }

    /// Whether the next line is there already, so that no read is waited for.
    pub fn is_ready(&self) -> bool {
        match self.chunk.get(self.from..self.to) {
            Some(rest) => rest.contains(&b'\n'),
            None => false,
        }
    }

    /// Takes what is left of the chunk up to a line feed, and says whether there was one.
    fn take_line(&mut self) -> bool {
        let Some(rest) = self.chunk.get(self.from..self.to) else {
            return false;
        };
        match self.gathering.take(rest) {
            Some(more) => {
                self.from = self.to - more.len();
                true
            }
            None => {
                self.from = self.to;
                false
            }
        }
    }

    /// Looks for the next line. A last line without a line feed counts if it isn't empty.
    pub fn next<I: Read>(&mut self, reader: &mut I) -> Next {
        self.gathering.clear();
        self.has_line_feed = true;
        'reads: for _ in 0..u64::MAX {
            if self.take_line() {
                return Next::Line;
            }
            match reader.read(self.chunk.as_mut_slice()) {
                Ok(0) => {
                    self.has_line_feed = false;
                    return if self.gathering.bytes.is_empty() {
                        Next::End
                    } else {
                        Next::Line
                    };
                }
                Ok(count) => {
                    self.from = 0;
                    self.to = count;
                }
                Err(e) if e.kind() == ErrorKind::Interrupted => {}
                Err(_) => return Next::Fault,
            }
        }
        Next::Fault
    }
}
