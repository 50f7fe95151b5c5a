//! Serves sessions in threads over the program's standard streams.
ghost use Rattle.std.specs.Prelude.{◌≡◌};
ghost use Rattle.cat_directory.specs.Names.{by_names};
ghost use Rattle.catalogue.specs.Ended.{shelf_count_of, threads_told};
ghost use Rattle.catalogue.specs.Served.{ThreadsAt, ThreadsFolder, ThreadsMemory, ThreadsPath, ThreadsStreams};

use crate::endings::RunFault;
use crate::running::{refuse_for_memory, serve_unlocked, told};
use crate::system::System;
use cat_callers::{Fault, MAX_THREADS, SharedMemory, serve_stream, serve_threads};
use cat_directory::{Directory, Shelf};
use std::alloc::AllocError;
use std::sync::Wait;
use std::thread::Threads;
use std::time::Clock;

/// Which threads answer.
#[derive(Clone, Copy)]
pub(crate) enum Threading {
    /// Each session has one of its own, once all lines were read.
    Each,
    /// So many share the sessions, and answer each line as it comes.
    By(usize),
}

impl Threading {
    /// How many shelves they need.
    fn shelf_count(self) -> usize
        ensures { result ≡ shelf_count_of self }
    {
        match self {
            Threading::Each => MAX_THREADS,
            Threading::By(count) => count,
        }
    }
}

/// What ended serving, if it didn't end with the input.
fn ended(served: Result<(), Fault>) -> Result<(), RunFault>
    ensures { result ≡ threads_told served }
{
    match served {
        Ok(()) => Ok(()),
        Err(fault) => Err(RunFault::of_threads(fault)),
    }
}

/// Answers standard input to standard output over the directory, by as many threads as there are shelves.
fn stream<
    S: System,
    D: Directory + Shelf + Drop + Send,
    F: Shelf + Drop + Send,
    R: AllocGlobal + Sync + Threads + Wait + Clock,
>(rt: &R, system: &mut S, device: D, shelves: Vec<F>) -> Result<(), RunFault>
    ensures { ThreadsStreams S.does system.old result system.new }
{
    let (reader, writer) = system.streams();
    let mut reader = reader;
    let served = serve_stream(rt, rt.alloc(), device, shelves, &mut reader, writer);
    system.close_input(reader);
    ended(served)
}

/// Answers standard input to standard output over the directory, each session in a thread of its own.
fn answer_each<
    S: System,
    D: Directory + Shelf + Drop + Send,
    F: Shelf + Drop + Send,
    R: AllocGlobal + Sync + Threads + Wait + Clock,
>(rt: &R, system: &mut S, device: D, shelves: Vec<F>) -> Result<(), RunFault>
    ensures { ThreadsStreams S.does system.old result system.new }
{
    let (reader, writer) = system.streams();
    let mut reader = reader;
    let mut writer = writer;
    let served = serve_threads(rt, rt.alloc(), device, shelves, &mut reader, &mut writer);
    system.close_input(reader);
    ended(served)
}

/// Answers standard input to standard output over the folder, of which these are shelves.
fn thread_shelved<S: System, R: AllocGlobal + Sync + Threads + Wait + Clock>(
    rt: &R,
    system: &mut S,
    folder: S::Folder,
    shelves: Vec<S::Shelf>,
    threading: Threading,
) -> Result<(), RunFault>
    ensures { ThreadsStreams S.does system.old result system.new }
{
    match threading {
        Threading::Each => answer_each(rt, system, folder, shelves),
        Threading::By(_) => stream(rt, system, folder, shelves),
    }
}

/// Answers standard input to standard output over the folder at the path.
fn thread_folder<S: System, R: AllocGlobal + Sync + Threads + Wait + Clock>(
    rt: &R,
    system: &mut S,
    path: &str,
    folder: S::Folder,
    threading: Threading,
) -> Result<(), RunFault>
    ensures { ThreadsFolder S.does S.Writer.contents path.now (shelf_count_of threading) folder system.old result system.new }
{
    match system.shelves_at(path, threading.shelf_count()) {
        Ok(shelves) => thread_shelved(rt, system, folder, shelves, threading),
        Err(_) => {
            system.leave(folder);
            told(Err(refuse_for_memory(system)))
        }
    }
}

/// Answers standard input to standard output over the folder at the path, unless memory for it is wanting.
fn thread_at<S: System, R: AllocGlobal + Sync + Threads + Wait + Clock>(
    rt: &R,
    system: &mut S,
    path: &str,
    threading: Threading,
) -> Result<(), RunFault>
    ensures { ThreadsAt S.does S.Writer.contents path.now (shelf_count_of threading) system.old result system.new }
{
    match system.folder_at(path) {
        Ok(folder) => thread_folder(rt, system, path, folder, threading),
        Err(_) => told(Err(refuse_for_memory(system))),
    }
}

/// Answers standard input to standard output over the folder at the path, once its lock is had, which is kept to the end. One that
/// can't be listed is told in the reply to the schema line, and is left as it is.
pub(crate) fn thread_path<S: System, R: AllocGlobal + Sync + Threads + Wait + Clock>(
    rt: &R,
    system: &mut S,
    path: &str,
    threading: Threading,
) -> Result<(), RunFault>
    ensures { ThreadsPath S.does S.Reader.remaining S.Writer.contents
        (by_names S.Folder.bytes S.Folder.may_leave S.Folder.can_fail S.Folder.fault_count)
        path.now (shelf_count_of threading) system.old result system.new }
{
    match system.lock(path) {
        Ok(lock) => {
            let served = thread_at(rt, system, path, threading);
            system.unlock(lock);
            served
        }
        Err(refusal) => serve_unlocked(system, rt.alloc(), refusal),
    }
}

/// No file in memory yet, and so many shelves of what will be there.
fn files_in_memory<R: AllocGlobal + Clone + Drop + Wait>(
    rt: &R,
    count: usize,
) -> Result<(SharedMemory<R>, Vec<SharedMemory<R>>), AllocError> {
    let files = SharedMemory::new(rt.clone()?, rt.alloc())?;
    let mut shelves = Vec::with_capacity(rt.alloc(), count)?;
    for _ in 0..count {
        shelves.push(files.another()?)?;
    }
    Ok((files, shelves))
}

/// Answers standard input to standard output in memory, by so many threads.
pub(crate) fn stream_in_memory<
    S: System,
    R: AllocGlobal + Clone + Drop + Send + Sync + Threads + Wait + Clock,
>(rt: &R, system: &mut S, count: usize) -> Result<(), RunFault>
    ensures { ThreadsMemory S.does S.Writer.contents system.old result system.new }
{
    match files_in_memory(rt, count) {
        Ok((files, shelves)) => stream(rt, system, files, shelves),
        Err(_) => told(Err(refuse_for_memory(system))),
    }
}
