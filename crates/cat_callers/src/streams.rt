//! A stream of lines, answered by several threads as they come.
ghost use Rattle.std.specs.Prelude.{◌≡◌, [], true};
ghost use Rattle.cat_threads.specs.cat_commands.cat_ledger.Ledgers.{shape_in};
ghost use Rattle.cat_threads.specs.service.Passes.{all_different, seated_by};
ghost use Rattle.cat_threads.specs.sharing.Grounds.{ground_of};

use crate::answerers::answer_stream;
use crate::asked::Asked;
use crate::front::Front;
use crate::input::{Lines, Next};
use crate::numbers::rise;
use crate::opening::{Opened, begin_by_first, service_of};
use crate::output::Output;
use crate::queues::{Sending, Taking, ends};
use crate::routes::place_of;
use crate::threads::{Fault, Resting, refuse};
use cat_base::{LAST_SESSION, Refusal, SessionNo};
use cat_directory::{Directory, Shelf};
use cat_threads::running::{merger, warmer};
use cat_threads::{Naming, Pass, Service};
use std::alloc::{AllocError, Global};
use std::io::{Read, Write};
use std::marker::Brand;
use std::sync::atomic::{AtomicU64, Ordering};
use std::sync::{Mutex, Wait};
use std::thread;
use std::thread::{Scope, Threads};
use std::time::Clock;

/// The numbers of all sessions, rising.
fn all_numbers(alloc: Global) -> Result<Vec<SessionNo>, AllocError> {
    let mut numbers = Vec::with_capacity(alloc, LAST_SESSION as usize + 1)?;
    for number in 0..=LAST_SESSION {
        numbers.push(number)?;
    }
    Ok(numbers)
}

/// What is taken before the first line is read.
#[derive(Drop)]
struct Stream {
    lines: Lines,
    asked: Asked,
    /// The numbers of all sessions.
    numbers: Vec<SessionNo>,
    ghost different: { all_different numbers.items ≡ true },
}

impl Stream {
    /// Nothing is read yet. All memory for lines is taken here.
    fn new(alloc: Global) -> Result<Stream, AllocError> {
        let numbers = all_numbers(alloc)?;
        // They rise, as they were made.
        if !rise(numbers.as_slice()) {
            return Err(AllocError);
        }
        Ok(Stream {
            lines: Lines::new(alloc)?,
            asked: Asked::new(alloc)?,
            numbers,
        })
    }
}

/// What a thread that answers lines has: the passes of its sessions, a shelf, and where it takes lines.
#[derive(Drop)]
struct Answerer<J: Naming, S: Shelf + Drop> {
    passes: Vec<Pass<J>>,
    shelf: S,
    taking: Taking,
}

/// Adds what a thread has that reads from the shelf, without a pass, and where the reader leaves lines for it. No, where memory is
/// wanting.
fn add_answerer<J: Naming, S: Shelf + Drop, R: Wait>(
    rt: &R,
    alloc: Global,
    shelf: S,
    answerers: &mut Vec<Answerer<J, S>>,
    sendings: &mut Vec<Sending>,
) -> bool {
    let Ok((sending, taking)) = ends(rt, alloc) else {
        return false;
    };
    let passes = Vec::new(alloc);
    let answerer = Answerer {
        passes,
        shelf,
        taking,
    };
    answerers.push(answerer).is_ok() && sendings.push(sending).is_ok()
}

/// The place behind this one; the first behind the last.
fn next_place(place: usize, count: usize) -> usize {
    let next = place.saturating_add(1);
    if next < count { next } else { 0 }
}

/// Gives the passes to the threads, one to each in turn. No, where memory is wanting.
fn deal<J: Naming, S: Shelf + Drop>(
    passes: Vec<Pass<J>>,
    answerers: &mut [Answerer<J, S>],
) -> bool {
    let count = answerers.len();
    let mut place = 0;
    for pass in passes {
        // There is none only where there are no threads.
        let Some(answerer) = answerers.get_mut(place) else {
            return true;
        };
        if answerer.passes.push(pass).is_err() {
            return false;
        }
        place = next_place(place, count);
    }
    true
}

/// Adds what each thread has: one of the shelves, and its share of the passes. Where the reader leaves lines for them is added in
/// their order. No, where memory is wanting.
fn add_answerers<J: Naming, S: Shelf + Drop, R: Wait>(
    rt: &R,
    alloc: Global,
    passes: Vec<Pass<J>>,
    shelves: Vec<S>,
    answerers: &mut Vec<Answerer<J, S>>,
    sendings: &mut Vec<Sending>,
) -> bool {
    for shelf in shelves {
        if !add_answerer(rt, alloc, shelf, answerers, sendings) {
            return false;
        }
    }
    deal(passes, answerers.as_mut_slice())
}

/// Lets go what waits for each thread.
fn let_all_go<R: Wait>(rt: &R, sendings: &mut [Sending]) -> bool {
    let mut all = true;
    for sending in sendings {
        all = sending.let_go(rt) && all;
    }
    all
}

/// Hands a line to its thread. No, where that has ended.
fn pass_on<R: Wait>(rt: &R, line: &[u8], sendings: &mut [Sending]) -> bool {
    let place = place_of(line, sendings.len());
    match sendings.get_mut(place) {
        Some(sending) => sending.add(rt, line),
        None => true,
    }
}

/// Hands the lines of the reader to the threads, up to its end, or until a write has failed.
fn hand_out<I: Read, W: Write + Drop, R: Wait>(
    rt: &R,
    lines: &mut Lines,
    reader: &mut I,
    sendings: &mut [Sending],
    output: &Mutex<Output<W>>,
) -> Result<(), Fault> {
    for _ in rt.forever() {
        if !lines.is_ready() {
            if !let_all_go(rt, sendings) {
                return Err(Fault::Thread);
            }
            if output.lock(rt).has_failed() {
                return Err(Fault::Write);
            }
        }
        let ended = match lines.next(reader) {
            Next::Line => {
                if pass_on(rt, lines.line(), sendings) {
                    continue;
                }
                return Err(Fault::Thread);
            }
            Next::End => Ok(()),
            Next::Fault => Err(Fault::Read),
        };
        let_all_go(rt, sendings);
        return ended;
    }
    unreachable!()
}

/// Warms, or merges, until the flag isn't 0.
fn work<D: Directory + Shelf, J: Naming, R: Wait + Clock>(
    rt: &R,
    service: &Service<D, J>,
    flag: &AtomicU64,
    warms: bool,
) {
    let resting = Resting::new(rt);
    if warms {
        warmer(rt, service, flag, resting);
    } else {
        merger(rt, service, flag, resting);
    }
}

/// Starts a warmer, or a merger, which goes on until the flag isn't 0. Whether the thread was started.
fn start_worker<
    's,
    E: 's,
    J: Naming + Send + Sync + 's,
    D: Directory + Shelf + Drop + Send + 's,
    R: Threads + Wait + Clock + Sync + 's,
>(
    scope: &Scope<'s, E>,
    rt: &'s R,
    service: &'s Service<D, J>,
    flag: &'s AtomicU64,
    warms: bool,
) -> bool {
    let job = move || work(rt, service, flag, warms);
    scope.spawn(job).is_ok()
}

/// Starts a thread that answers the lines which come to it, for sessions that are so many numbers apart. Whether it was started.
fn start_answerer<
    's,
    'f: 's,
    E: 's,
    J: Naming + Send + Sync + 's,
    D: Directory + Shelf + Drop + Send + 's,
    S: Shelf + Drop + Send + 's,
    R: Threads + Wait + Clock + Sync + 's,
    W: Write + Drop + Send + 's,
>(
    scope: &Scope<'s, E>,
    front: &'s Front<'f, D, J, R>,
    answerer: Answerer<J, S>,
    apart: usize,
    output: &'s Mutex<Output<W>>,
) -> bool {
    let Answerer {
        passes,
        shelf,
        taking,
    } = answerer;
    let job = move || answer_stream(front, passes, apart, shelf, taking, output);
    scope.spawn(job).is_ok()
}

/// Starts a merger and a warmer, and the threads that answer lines. Whether all were started.
fn start_all<
    's,
    'f: 's,
    E: 's,
    J: Naming + Send + Sync + 's,
    D: Directory + Shelf + Drop + Send + 's,
    S: Shelf + Drop + Send + 's,
    R: Threads + Wait + Clock + Sync + 's,
    W: Write + Drop + Send + 's,
>(
    scope: &Scope<'s, E>,
    front: &'s Front<'f, D, J, R>,
    flag: &'s AtomicU64,
    answerers: Vec<Answerer<J, S>>,
    output: &'s Mutex<Output<W>>,
) -> bool {
    if !start_worker(scope, front.rt, front.service, flag, false)
        || !start_worker(scope, front.rt, front.service, flag, true)
    {
        return false;
    }
    let apart = answerers.len();
    for answerer in answerers {
        if !start_answerer(scope, front, answerer, apart, output) {
            return false;
        }
    }
    true
}

/// Runs the service over the stream: the passes go to as many threads as there are shelves, which answer lines, with a merger and a
/// warmer beside them, and the lines of the reader are handed out to them.
fn run_stream<
    J: Naming + Send + Sync,
    D: Directory + Shelf + Drop + Send,
    S: Shelf + Drop + Send,
    R: Threads + Wait + Clock + Sync,
    I: Read,
    W: Write + Drop + Send,
>(
    front: &Front<'_, D, J, R>,
    passes: Vec<Pass<J>>,
    shelves: Vec<S>,
    lines: &mut Lines,
    reader: &mut I,
    output: &Mutex<Output<W>>,
) -> Result<(), Fault> {
    let rt = front.rt;
    let mut answerers = Vec::new(front.alloc);
    let mut sendings = Vec::new(front.alloc);
    let added = add_answerers(
        rt,
        front.alloc,
        passes,
        shelves,
        &mut answerers,
        &mut sendings,
    );
    if !added {
        return Err(Fault::Thread);
    }
    let ended = AtomicU64::new(0);
    let flag = &ended;
    thread::scope(thread::scope_env(), rt, move |scope| -> Result<(), Fault> {
        let mut sendings = sendings;
        let handed = if start_all(scope, front, flag, answerers, output) {
            hand_out(rt, lines, reader, sendings.as_mut_slice(), output)
        } else {
            Err(Fault::Thread)
        };
        // Whatever came of it, the merger and the warmer end now.
        flag.store(1, Ordering::SeqCst);
        handed
    })
}

/// Runs a service over what was opened, over the stream.
fn serve_opened<
    J: Naming + Send + Sync,
    D: Directory + Shelf + Drop + Send,
    S: Shelf + Drop + Send,
    R: Threads + Wait + Clock + Sync,
    I: Read,
    W: Write + Drop + Send,
>(
    rt: &R,
    alloc: Global,
    opened: Opened<D>,
    shelves: Vec<S>,
    stream: &mut Stream,
    reader: &mut I,
    output: &Mutex<Output<W>>,
) -> Result<(), Fault>
    requires { (opened.begun.table ≡ J.table) × (J.from ≡ ground_of (shape_in opened.begun.ledger)) × (J.sessions ≡ seated_by [] stream.old.numbers.items) }
{
    let Opened { begun, schema } = opened;
    let numbers = stream.numbers.as_slice();
    let Some((service, passes)) = service_of::<D, J>(alloc, begun, numbers) else {
        return Err(Fault::Thread);
    };
    let run = run_stream(
        &Front::new(rt, alloc, &service, &schema, &stream.asked),
        passes,
        shelves,
        &mut stream.lines,
        reader,
        output,
    );
    drop(service);
    run
}

/// What came of a stream that was served so: where it came to its end, a write may have failed.
fn outcome_of<W: Write + Drop>(
    served: Result<(), Fault>,
    output: Mutex<Output<W>>,
) -> Result<(), Fault> {
    if output.into_inner().has_failed() && served.is_ok() {
        return Err(Fault::Write);
    }
    served
}

/// Answers each line of the reader as it comes: the first opens the newest commit of the directory, or an empty catalogue where
/// there is none, and the others are answered by as many threads as there are shelves, with a merger and a warmer beside them. The lines of a
/// session are answered in their order, and their replies come in it; those of sessions whose numbers leave different remainders
/// by the number of threads are answered side by side. Replies are whole. What was read is answered, unless a write fails.
///
/// (Lucene: an `IndexWriter` with a `ConcurrentMergeScheduler`, and threads that index and search.)
pub fn serve_stream<
    D: Directory + Shelf + Drop + Send,
    S: Shelf + Drop + Send,
    R: Threads + Wait + Clock + Sync,
    I: Read,
    W: Write + Drop + Send,
>(
    rt: &R,
    alloc: Global,
    device: D,
    shelves: Vec<S>,
    reader: &mut I,
    writer: W,
) -> Result<(), Fault> {
    let mut writer = writer;
    let Ok(mut stream) = Stream::new(alloc) else {
        return Err(refuse(Refusal::Memory, &mut writer));
    };
    match begin_by_first(alloc, device, &mut stream.lines, reader, &mut writer) {
        Ok(opened) => {
            let output = Mutex::new(Output::new(writer));
            let served = serve_opened::<Brand, D, S, R, I, W>(
                rt,
                alloc,
                opened,
                shelves,
                &mut stream,
                reader,
                &output,
            );
            outcome_of(served, output)
        }
        Err(fault) => Err(fault),
    }
}
