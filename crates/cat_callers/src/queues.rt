//! Lines on their way to the threads that answer them.
use crossbeam_channel::{Receiver, Sender, bounded};
use std::alloc::{AllocError, Global};
use std::mem;
use std::sync::Wait;

/// How many bytes of lines go to a thread at once.
const PARCEL: usize = 65_536;

/// How many parcels are on their way to a thread and back, so that memory stays as it is.
const PARCELS: usize = 16;

/// Where the reader leaves lines for a thread.
#[derive(Drop)]
pub(crate) struct Sending {
    filling: Vec<u8>,
    full: Sender<Vec<u8>>,
    empty: Receiver<Vec<u8>>,
}

/// Where a thread takes them.
#[derive(Drop)]
pub(crate) struct Taking {
    full: Receiver<Vec<u8>>,
    empty: Sender<Vec<u8>>,
}

/// The two ends. All memory is taken here.
pub(crate) fn ends<R: Wait>(rt: &R, alloc: Global) -> Result<(Sending, Taking), AllocError> {
    let filling = Vec::with_capacity(alloc, PARCEL)?;
    let (full, filled) = bounded(alloc, PARCELS)?;
    let (empty, emptied) = bounded(alloc, PARCELS)?;
    let sending = Sending {
        filling,
        full,
        empty: emptied,
    };
    let taking = Taking {
        full: filled,
        empty,
    };
    for _ in 1..PARCELS {
        let parcel = Vec::with_capacity(alloc, PARCEL)?;
        if taking.empty.send(rt, parcel).is_err() {
            return Err(AllocError);
        }
    }
    Ok((sending, taking))
}

impl Sending {
    /// Lets go what waits, once the thread has given a parcel back. No, where the thread has ended.
    pub(crate) fn let_go<R: Wait>(&mut self, rt: &R) -> bool {
        if self.filling.is_empty() {
            return true;
        }
        match self.empty.recv(rt) {
            Ok(parcel) => {
                let filled = mem::replace(&mut self.filling, parcel);
                self.full.send(rt, filled).is_ok()
            }
            Err(_) => false,
        }
    }

    /// Adds a line, which has room in a parcel. No, where the thread has ended.
    pub(crate) fn add<R: Wait>(&mut self, rt: &R, line: &[u8]) -> bool {
        if self.filling.len().saturating_add(line.len()) >= PARCEL && !self.let_go(rt) {
            return false;
        }
        self.filling.extend_from_slice(line).is_ok() && self.filling.push(b'\n').is_ok()
    }
}

impl Taking {
    /// The next lines, each with a line feed; none where no more come.
    pub(crate) fn next<R: Wait>(&self, rt: &R) -> Option<Vec<u8>> {
        self.full.recv(rt).ok()
    }

    /// Gives the memory of lines back that were answered.
    pub(crate) fn give_back<R: Wait>(&self, rt: &R, lines: Vec<u8>) {
        let mut lines = lines;
        lines.clear();
        let _ended = self.empty.send(rt, lines);
    }
}
