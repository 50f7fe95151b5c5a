//! Serves the catalogue's line protocol over the program's standard streams.
ghost use Rattle.std.specs.Prelude.{◌≡◌, [], Err, map, option_map, string_bytes};
ghost use Rattle.std.specs.Process.{exit_status};
ghost use Rattle.cat_base.specs.declared.refusal.Refusal.TheVariants.{Memory};
ghost use Rattle.cat_model.specs.Served.{refused_text};
ghost use Rattle.cat_directory.specs.Names.{by_names};
ghost use Rattle.cat_service.specs.cat_protocol.serving.Serving.{IsRefusedAs};
ghost use Rattle.catalogue.specs.Asked.{task_told};
ghost use Rattle.catalogue.specs.Ended.{serving_told, status_of};
ghost use Rattle.catalogue.specs.Runs.{DoesAsked, EndsAfter, EndsAs, Runs, TellsUsage, TellsVersion, asked_by};
ghost use Rattle.catalogue.specs.Served.{KeepsLock, RefusesAtOnce, ServesAt, ServesFolder, ServesMemory, ServesPath, ServesStreams, ServesUnlocked, TellsServed};

use crate::arguments::Task;
use crate::endings::{Ending, RunFault};
use crate::system::System;
use crate::threading::{Threading, stream_in_memory, thread_path};
use cat_base::Refusal;
use cat_directory::{Directory, LockRefusal, MemoryDirectory, Shelf};
use cat_service::cat_protocol::sending::{flush, send_refused};
use cat_service::cat_protocol::serving::ServeFault;
use cat_service::{Left, serve};
use std::alloc::Global;
use std::io::Write;
use std::process::ExitCode;
use std::sync::Wait;
use std::thread::Threads;
use std::time::Clock;

/// Serves standard input to standard output over the directory, which is left without a commit. `serve` sends on what the
/// writer gathers, before each read and at its end.
fn serve_streams<S: System, D: Directory + Shelf + Drop>(
    system: &mut S,
    alloc: Global,
    device: D,
) -> Left<D>
    ensures { ServesStreams S.does S.Reader.remaining S.Writer.contents (by_names D.bytes D.may_leave D.can_fail D.fault_count)
        device result.device system.old result.ended system.new }
{
    let (reader, writer) = system.streams();
    let mut reader = reader;
    let mut writer = writer;
    let left = serve(alloc, device, &mut reader, &mut writer);
    system.close_input(reader);
    system.close_output(writer);
    left
}

/// Writes that memory is wanting. Nothing is read behind it, so it is passed on at once.
fn refuse<W: Write>(to: &mut W) -> ServeFault
    ensures { IsRefusedAs (W.contents to.old) (W.contents to.new) (refused_text Memory) result }
{
    if send_refused(Refusal::Memory, to).is_err() || flush(to).is_err() {
        ServeFault::Write
    } else {
        ServeFault::Schema
    }
}

/// Says that memory is wanting before a line is read, as `serve` does.
pub(crate) fn refuse_for_memory<S: System>(system: &mut S) -> ServeFault
    ensures { RefusesAtOnce S.does S.Writer.contents system.old (Err result) system.new }
{
    let (reader, writer) = system.streams();
    let mut writer = writer;
    let fault = refuse(&mut writer);
    system.close_input(reader);
    system.close_output(writer);
    fault
}

/// What ended serving, where the folder isn't in use.
pub(crate) fn told(served: Result<(), ServeFault>) -> Result<(), RunFault>
    ensures { result ≡ serving_told served }
{
    match served {
        Ok(()) => Ok(()),
        Err(fault) => Err(RunFault::Serving(fault)),
    }
}

/// Serves standard input to standard output over files in memory.
fn serve_memory<S: System>(system: &mut S, alloc: Global) -> Result<(), RunFault>
    ensures { ServesMemory S.does S.Reader.remaining S.Writer.contents system.old result system.new }
{
    let left = serve_streams(system, alloc, MemoryDirectory::new(alloc));
    told(left.ended)
}

/// Serves standard input to standard output over the folder, which is let go as it is left.
fn serve_folder<S: System>(
    system: &mut S,
    alloc: Global,
    folder: S::Folder,
) -> Result<(), ServeFault>
    ensures { ServesFolder S.does S.Reader.remaining S.Writer.contents
        (by_names S.Folder.bytes S.Folder.may_leave S.Folder.can_fail S.Folder.fault_count) folder system.old result system.new }
{
    let Left { device, ended } = serve_streams(system, alloc, folder);
    system.leave(device);
    ended
}

/// Serves standard input to standard output over the folder at the path.
fn serve_at<S: System>(system: &mut S, alloc: Global, path: &str) -> Result<(), ServeFault>
    ensures { ServesAt S.does S.Reader.remaining S.Writer.contents
        (by_names S.Folder.bytes S.Folder.may_leave S.Folder.can_fail S.Folder.fault_count) path.now system.old result system.new }
{
    match system.folder_at(path) {
        Ok(folder) => serve_folder(system, alloc, folder),
        Err(_) => Err(refuse_for_memory(system)),
    }
}

/// Serves standard input to standard output over no folder: the schema line is told what it is over one that can't be listed.
fn serve_nowhere<S: System>(system: &mut S, alloc: Global) -> Result<(), ServeFault>
    ensures { ServesAt S.does S.Reader.remaining S.Writer.contents
        (by_names S.Folder.bytes S.Folder.may_leave S.Folder.can_fail S.Folder.fault_count) [] system.old result system.new }
{
    serve_at(system, alloc, "")
}

/// Serves standard input to standard output where the lock of a folder isn't had, which is told in the reply to the schema line,
/// and the folder is left as it is.
pub(crate) fn serve_unlocked<S: System>(
    system: &mut S,
    alloc: Global,
    refusal: LockRefusal,
) -> Result<(), RunFault>
    ensures { ServesUnlocked S.does S.Reader.remaining S.Writer.contents
        (by_names S.Folder.bytes S.Folder.may_leave S.Folder.can_fail S.Folder.fault_count) refusal system.old result system.new }
{
    match refusal {
        LockRefusal::InUse => Err(RunFault::in_use(serve_nowhere(system, alloc))),
        LockRefusal::Device => told(serve_nowhere(system, alloc)),
        LockRefusal::Memory => told(Err(refuse_for_memory(system))),
    }
}

/// Serves standard input to standard output over the folder at the path, whose lock is had and kept to the end.
fn serve_locked<S: System>(
    system: &mut S,
    alloc: Global,
    path: &str,
    lock: S::Lock,
) -> Result<(), RunFault>
    ensures { KeepsLock (TellsServed (ServesAt S.does S.Reader.remaining S.Writer.contents
        (by_names S.Folder.bytes S.Folder.may_leave S.Folder.can_fail S.Folder.fault_count) path.now)) S.does lock system.old result system.new }
{
    let served = serve_at(system, alloc, path);
    system.unlock(lock);
    told(served)
}

/// Serves standard input to standard output over the folder at the path, once its lock is had. One that can't be listed is told in
/// the reply to the schema line, and is left as it is.
fn serve_path<S: System>(system: &mut S, alloc: Global, path: &str) -> Result<(), RunFault>
    ensures { ServesPath S.does S.Reader.remaining S.Writer.contents
        (by_names S.Folder.bytes S.Folder.may_leave S.Folder.can_fail S.Folder.fault_count) path.now system.old result system.new }
{
    match system.lock(path) {
        Ok(lock) => serve_locked(system, alloc, path, lock),
        Err(refusal) => serve_unlocked(system, alloc, refusal),
    }
}

/// How the program ends that served so. A fault is told on standard error.
fn ending_after<S: System>(system: &mut S, served: Result<(), RunFault>) -> Ending
    ensures { EndsAs S.does system.old served result system.new }
{
    match served {
        Ok(()) => Ending::of(Ok(())),
        Err(fault) => {
            system.report(fault);
            Ending::of(Err(fault))
        }
    }
}

/// Serves over the folder at the path, and says how the program ends.
fn do_serve_path<S: System>(system: &mut S, alloc: Global, path: &str) -> Ending
    ensures { EndsAfter S.does (ServesPath S.does S.Reader.remaining S.Writer.contents
        (by_names S.Folder.bytes S.Folder.may_leave S.Folder.can_fail S.Folder.fault_count) path.now) system.old result system.new }
{
    let served = serve_path(system, alloc, path);
    ending_after(system, served)
}

/// Says the version.
fn say_version<S: System>(system: &mut S) -> Ending
    ensures { TellsVersion S.does system.old result system.new }
{
    match system.tell_version() {
        Ok(()) => Ending::EndOfInput,
        Err(_) => ending_after(system, Err(RunFault::Serving(ServeFault::Write))),
    }
}

/// Says how the program is called.
fn say_usage<S: System>(system: &mut S) -> Ending
    ensures { TellsUsage S.does system.old result system.new }
{
    system.tell_usage();
    Ending::WrongArguments
}

/// Does the task.
fn do_task<S: System, R: AllocGlobal + Clone + Drop + Send + Sync + Threads + Wait + Clock>(
    rt: &R,
    system: &mut S,
    task: Task<'_>,
) -> Ending
    ensures { DoesAsked S.does S.Reader.remaining S.Writer.contents
        (by_names S.Folder.bytes S.Folder.may_leave S.Folder.can_fail S.Folder.fault_count)
        (task_told task.entry) system.old result system.new }
{
    match task {
        Task::InMemory => {
            let served = serve_memory(system, rt.alloc());
            ending_after(system, served)
        }
        Task::InFolder(path) => do_serve_path(system, rt.alloc(), path),
        Task::InThreads(path) => {
            let served = thread_path(rt, system, path, Threading::Each);
            ending_after(system, served)
        }
        Task::StreamedInMemory(count) => {
            let served = stream_in_memory(rt, system, count);
            ending_after(system, served)
        }
        Task::StreamedInFolder(count, path) => {
            let served = thread_path(rt, system, path, Threading::By(count));
            ending_after(system, served)
        }
        Task::Version => say_version(system),
        Task::Usage => say_usage(system),
    }
}

/// Does what the words behind the program's name ask for. Words that can't be read ask for nothing that the program does.
fn do_asked<S: System, R: AllocGlobal + Clone + Drop + Send + Sync + Threads + Wait + Clock>(
    rt: &R,
    system: &mut S,
    words: Option<Vec<String>>,
) -> Ending
    ensures { DoesAsked S.does S.Reader.remaining S.Writer.contents
        (by_names S.Folder.bytes S.Folder.may_leave S.Folder.can_fail S.Folder.fault_count)
        (asked_by (option_map (λ words. map string_bytes words.items) words)) system.old result system.new }
{
    match words {
        Some(words) => do_task(rt, system, Task::asked_by(words.as_slice())),
        None => do_task(rt, system, Task::Usage),
    }
}

/// The exit status that a program which ends so is left with.
fn exit(ending: Ending) -> ExitCode
    ensures { exit_status result ≡ status_of ending }
{
    ExitCode::from(ending.status())
}

/// Runs the program, and says the exit status: 0 at the end of input, 1 where the arguments ask for nothing that it does, 2
/// where the schema line is refused, as it is where another program works over the folder, 3 where a read or a write failed, 4
/// where a thread couldn't be started. A folder is closed without a commit.
pub(crate) fn run<S: System, R: AllocGlobal + Clone + Drop + Send + Sync + Threads + Wait + Clock>(
    rt: &R,
    system: &mut S,
) -> ExitCode
    ensures { Runs S.does S.Reader.remaining S.Writer.contents
        (by_names S.Folder.bytes S.Folder.may_leave S.Folder.can_fail S.Folder.fault_count) system.old (exit_status result) system.new }
{
    let words = system.words();
    exit(do_asked(rt, system, words))
}
