//! What the program asks of its system, and what it tells. What the system has in a folder, whether it is the one that was asked
//! for, who has its lock, and what comes of what is told, no contract can know; so a program is proved whatever is answered, and
//! by what it asked, in its order, and nothing else.
ghost use Rattle.std.specs.Prelude.{is_ok, map, option_map, string_bytes};
ghost use Rattle.catalogue.specs.Acts.{Act};

use crate::arguments::{USAGE, VERSION};
use crate::endings::{RunFault, message};
use cat_directory::{Directory, Folder, FolderLock, FolderShelf, LockRefusal, Shelf};
use log::sink::Console;
use log::{Level, Log, Logged, error};
use std::alloc::AllocError;
use std::fs::File;
use std::io::{BufWriter, Printer, Read, Write};
use std::{env, io};

/// Replies are gathered up to so many bytes before they go out in one write.
const GATHERED: usize = 65_536;

/// What is asked and told.
pub(crate) trait System {
    type Folder: Directory + Shelf + Drop + Send;

    /// Where the stored texts of a folder are read.
    type Shelf: Shelf + Drop + Send;

    /// The lock of a folder, until it is dropped.
    type Lock: Drop;

    /// Where the lines come from.
    type Reader: Read + Drop;

    /// Where the replies go.
    type Writer: Write + Drop + Send;

    /// From the one to the other this was asked or told, and nothing else.
    ghost does: { Self → Act Self.Folder Self.Lock Self.Reader Self.Writer → Self → Type 0 };

    /// The words behind the program's name. None where they can't be read.
    fn words(&mut self) -> Option<Vec<String>>
        ensures { does self.old (Act.heard (option_map (λ words. map string_bytes words.items) result)) self.new };

    /// The lock of the folder at the path, without waiting for it.
    fn lock(&mut self, path: &str) -> Result<Self::Lock, LockRefusal>
        ensures { does self.old (Act.locked path.now result) self.new };

    /// The lock is given back.
    fn unlock(&mut self, lock: Self::Lock)
        ensures { does self.old (Act.unlocked lock) self.new };

    /// The folder at the path. It isn't touched yet.
    fn folder_at(&mut self, path: &str) -> Result<Self::Folder, AllocError>
        ensures { does self.old (Act.opened path.now result) self.new };

    /// So many shelves of the folder at the path.
    fn shelves_at(&mut self, path: &str, count: usize) -> Result<Vec<Self::Shelf>, AllocError>
        ensures { does self.old (Act.shelved path.now count (is_ok result)) self.new };

    /// The folder is let go as it is now.
    fn leave(&mut self, folder: Self::Folder)
        ensures { does self.old (Act.left folder) self.new };

    /// Standard input and standard output.
    fn streams(&mut self) -> (Self::Reader, Self::Writer)
        ensures { does self.old (Act.streamed result.0 result.1) self.new };

    /// Standard input is let go as it is now.
    fn close_input(&mut self, reader: Self::Reader)
        ensures { does self.old (Act.closed_input reader) self.new };

    /// Standard output is let go as it is now.
    fn close_output(&mut self, writer: Self::Writer)
        ensures { does self.old (Act.closed_output writer) self.new };

    /// Says on standard error why serving ended early.
    fn report(&mut self, fault: RunFault)
        ensures { does self.old (Act.reported fault) self.new };

    /// Says on standard error how the program is called.
    fn tell_usage(&mut self)
        ensures { does self.old Act.told_usage self.new };

    /// Says the version.
    fn tell_version(&mut self) -> io::Result<()>
        ensures { does self.old (Act.told_version (is_ok result)) self.new };
}

/// Standard output.
pub(crate) enum Replies<'a> {
    /// Gathered into few writes.
    Gathered(BufWriter<Printer<'a, HostRuntime>>),
    /// One by one: there was no memory to gather them.
    Direct(Printer<'a, HostRuntime>),
}

impl Drop for Replies<'_> {
    fn drop(self) {
        match self {
            Replies::Gathered(writer) => drop(writer),
            Replies::Direct(writer) => drop(writer),
        }
    }
}

impl Write for Replies<'_> {
    // Put in place of each call, as `BufWriter` has it: a page of a thousand ids is two thousand calls, each of a few bytes.
    #[inline(always)]
    fn write(&mut self, bytes: &[u8]) -> io::Result<usize> {
        match self {
            Replies::Gathered(writer) => writer.write(bytes),
            Replies::Direct(writer) => writer.write(bytes),
        }
    }

    fn flush(&mut self) -> io::Result<()> {
        match self {
            Replies::Gathered(writer) => writer.flush(),
            Replies::Direct(writer) => writer.flush(),
        }
    }
}

/// The system that the program runs on.
#[derive(Drop)]
pub(crate) struct Host<'a>(pub(crate) &'a HostRuntime);

/// The words behind the program's name.
fn words_of(rt: &HostRuntime) -> io::Result<Vec<String>> {
    Ok(env::args(rt)?.skip(1).collect(rt.alloc())?)
}

impl<'a> System for Host<'a> {
    type Folder = Folder<HostRuntime>;

    type Shelf = FolderShelf<HostRuntime>;

    type Lock = FolderLock<File>;

    type Reader = <HostRuntime as Input>::Reader;

    type Writer = Replies<'a>;

    ghost does = { λ before act after. Unit {0} };

    fn words(&mut self) -> Option<Vec<String>> {
        words_of(self.0).ok()
    }

    fn lock(&mut self, path: &str) -> Result<FolderLock<File>, LockRefusal> {
        FolderLock::take(self.0, self.0.alloc(), path)
    }

    fn unlock(&mut self, _lock: FolderLock<File>) {}

    fn folder_at(&mut self, path: &str) -> Result<Folder<HostRuntime>, AllocError> {
        Folder::at(self.0.clone()?, self.0.alloc(), path)
    }

    fn shelves_at(
        &mut self,
        path: &str,
        count: usize,
    ) -> Result<Vec<FolderShelf<HostRuntime>>, AllocError> {
        let mut shelves = Vec::with_capacity(self.0.alloc(), count)?;
        for _ in 0..count {
            shelves.push(FolderShelf::at(self.0.clone()?, self.0.alloc(), path)?)?;
        }
        Ok(shelves)
    }

    fn leave(&mut self, _folder: Folder<HostRuntime>) {}

    fn streams(&mut self) -> (<HostRuntime as Input>::Reader, Replies<'a>) {
        let rt = self.0;
        let writer = match BufWriter::with_capacity(rt.alloc(), GATHERED, io::writer(rt)) {
            Ok(writer) => Replies::Gathered(writer),
            Err(_) => Replies::Direct(io::writer(rt)),
        };
        (rt.reader(), writer)
    }

    fn close_input(&mut self, _reader: <HostRuntime as Input>::Reader) {}

    fn close_output(&mut self, _writer: Replies<'a>) {}

    fn report(&mut self, fault: RunFault) {
        let rt = Logged::new(self.0, Level::Error, Console(self.0));
        error!(rt; target: "catalogue", "{}", message(fault));
    }

    fn tell_usage(&mut self) {
        let _ = self.0.eprintln(USAGE);
    }

    fn tell_version(&mut self) -> io::Result<()> {
        self.0.println(VERSION)
    }
}
