//! Replies of several threads to one writer, each whole.
use cat_threads::cat_protocol::replies::{Reply, send_reply};
use cat_threads::cat_protocol::sending::{WriteFault, flush, send, send_unreadable};
use std::alloc::Global;
use std::io::Write;
use std::sync::{Mutex, Wait};

/// How many bytes of replies are gathered before they go out.
const GATHERED: usize = 65_536;

/// What a line is told.
#[derive(Clone, Copy)]
pub(crate) enum Told<'a> {
    /// This.
    Reply(&'a Reply),
    /// That it can't be read, or shows no session.
    Unreadable,
    /// Nothing.
    Nothing,
}

impl<'a> Told<'a> {
    fn send_to<W: Write>(self, to: &mut W) -> Result<(), WriteFault> {
        match self {
            Told::Reply(reply) => send_reply(reply, to),
            Told::Unreadable => send_unreadable(to),
            Told::Nothing => Ok(()),
        }
    }
}

/// The writer, and whether a write failed, after which nothing more is written.
#[derive(Drop)]
pub(crate) struct Output<W: Drop> {
    pub(crate) writer: W,
    failed: bool,
}

impl<W: Write + Drop> Output<W> {
    pub(crate) fn new(writer: W) -> Output<W> {
        Output {
            writer,
            failed: false,
        }
    }

    /// Whether a write failed.
    pub(crate) fn has_failed(&self) -> bool {
        self.failed
    }

    /// Writes what was gathered, and what one line more is told.
    fn put(&mut self, gathered: &[u8], told: Told<'_>) -> Result<(), WriteFault> {
        send(gathered, &mut self.writer)?;
        told.send_to(&mut self.writer)?;
        flush(&mut self.writer)
    }

    /// Writes these, unless a write failed before.
    fn write(&mut self, gathered: &[u8], told: Told<'_>) {
        if !self.failed && self.put(gathered, told).is_err() {
            self.failed = true;
        }
    }
}

/// The replies of one thread on their way to the writer.
#[derive(Drop)]
pub(crate) struct Replies<'a, W: Write + Drop> {
    gathered: Vec<u8>,
    output: &'a Mutex<Output<W>>,
}

impl<'a, W: Write + Drop> Replies<'a, W> {
    pub(crate) fn new(alloc: Global, output: &'a Mutex<Output<W>>) -> Replies<'a, W> {
        Replies {
            gathered: Vec::new(alloc),
            output,
        }
    }

    /// Writes all that was gathered.
    pub(crate) fn let_go<R: Wait>(&mut self, rt: &R) {
        if !self.gathered.is_empty() {
            self.write(rt, Told::Nothing);
        }
    }

    /// Writes all that was gathered, and what one line more is told.
    fn write<R: Wait>(&mut self, rt: &R, told: Told<'_>) {
        self.output.lock(rt).write(self.gathered.as_slice(), told);
        self.gathered.clear();
    }

    /// Adds what a line is told. Without memory to gather it, it goes out at once.
    pub(crate) fn add<R: Wait>(&mut self, rt: &R, told: Told<'_>) {
        let before = self.gathered.len();
        if told.send_to(&mut self.gathered).is_err() {
            self.gathered.truncate(before);
            self.write(rt, told);
        } else if self.gathered.len() >= GATHERED {
            self.let_go(rt);
        }
    }
}
