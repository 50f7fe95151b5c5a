//! All lines of an input, each session's in a thread of its own.
ghost use Rattle.std.specs.Prelude.{◌≡◌, [], true, IfOk, IfSome};
ghost use Rattle.cat_threads.specs.cat_commands.cat_ledger.Ledgers.{shape_in};
ghost use Rattle.cat_threads.specs.service.Passes.{all_different, seated_by};
ghost use Rattle.cat_threads.specs.sharing.Grounds.{ground_of};

use crate::asked::Asked;
use crate::heard::{Heard, MAX_THREADS, Spoken, hear_all};
use crate::input::Lines;
use crate::numbers::rise;
use crate::opening::{Opened, begin_by_first, service_of};
use crate::talking::{Talk, Told};
use cat_base::{Refusal, SessionNo};
use cat_directory::{Directory, Shelf};
use cat_items::Schema;
use cat_threads::cat_protocol::sending::{
    WriteFault, flush, send, send_number, send_refused, send_unreadable,
};
use cat_threads::running::{Gate, run_threads};
use cat_threads::{Naming, Pass, Service};
use std::alloc::{AllocError, Global};
use std::io::{Read, Write};
use std::marker::Brand;
use std::sync::Wait;
use std::thread;
use std::thread::Threads;
use std::time::{Clock, Duration};

/// Why an input isn't answered to its end.
#[derive(Clone, Copy)]
pub enum Fault {
    /// The first line was refused, and that is all that was said.
    Schema,
    /// A read failed, or memory for the lines was wanting.
    Read,
    /// A thread couldn't be started.
    Thread,
    /// A write failed, or memory for the replies was wanting.
    Write,
}

/// How many milliseconds a worker rests that found nothing to do. Each look takes the lock, which callers wait for.
const REST: u64 = 10;

/// How many turns behind one another a worker takes, before it lets others run. Where all processors are busy it waits for its
/// next turn then; if it did so after each, merges would fall behind, and the more segments there are the longer a REFRESH takes.
const TURNS: usize = 16;

/// The gate of a worker that rests where there was nothing to do.
#[derive(Drop)]
pub(crate) struct Resting<'a, R> {
    rt: &'a R,
    is_idle: bool,
    // How many turns it takes until it lets others run.
    turns: usize,
}

impl<'a, R> Resting<'a, R> {
    pub(crate) fn new(rt: &'a R) -> Resting<'a, R> {
        Resting {
            rt,
            is_idle: true,
            turns: TURNS,
        }
    }
}

impl<'a, R: Clock> Gate for Resting<'a, R> {
    fn go_on(&mut self) -> bool {
        if self.is_idle {
            thread::sleep(self.rt, Duration::from_millis(REST));
        }
        self.is_idle = false;
        match self.turns.checked_sub(1) {
            Some(left) => self.turns = left,
            None => {
                thread::yield_now();
                self.turns = TURNS - 1;
            }
        }
        true
    }

    fn inside(&mut self) {}

    fn idle(&mut self) {
        self.is_idle = true;
    }
}

/// The numbers of the sessions that run, as these stand.
fn running_numbers(alloc: Global, spoken: &[Spoken]) -> Result<Vec<SessionNo>, AllocError> {
    let mut numbers = Vec::with_capacity(alloc, spoken.len())?;
    for each in spoken {
        if each.runs {
            numbers.push(each.number)?;
        }
    }
    Ok(numbers)
}

/// Who runs, and what they share.
#[derive(Drop)]
struct Running {
    /// The numbers of the sessions that run.
    numbers: Vec<SessionNo>,
    /// Which queries they asked.
    asked: Asked,
}

impl Running {
    /// Those of the sessions that run. None where memory is wanting.
    fn of(alloc: Global, spoken: &[Spoken]) -> Option<Running>
        ensures { IfSome result (λ r. all_different r.numbers.items ≡ true) }
    {
        let Ok(numbers) = running_numbers(alloc, spoken) else {
            return None;
        };
        // They were sorted, and each session was heard once.
        if !rise(numbers.as_slice()) {
            return None;
        }
        match Asked::new(alloc) {
            Ok(asked) => Some(Running { numbers, asked }),
            Err(AllocError) => None,
        }
    }
}

/// What is heard behind the first line: all lines, and which of those who say them run.
fn hear<I: Read>(
    alloc: Global,
    lines: &mut Lines,
    reader: &mut I,
) -> Result<(Heard, Running), Fault>
    ensures { IfOk result (λ r. all_different r.1.numbers.items ≡ true) }
{
    let Some(heard) = hear_all(alloc, lines, reader) else {
        return Err(Fault::Read);
    };
    match Running::of(alloc, heard.spoken.as_slice()) {
        Some(running) => Ok((heard, running)),
        None => Err(Fault::Thread),
    }
}

/// Opens the directory by the first line, whose reply is written, and hears the lines behind it.
fn open_and_hear<D: Directory + Shelf + Drop, I: Read, W: Write>(
    alloc: Global,
    device: D,
    reader: &mut I,
    writer: &mut W,
) -> Result<(Opened<D>, (Heard, Running)), Fault>
    ensures { IfOk result (λ r. all_different r.1.1.numbers.items ≡ true) }
{
    let Ok(mut lines) = Lines::new(alloc) else {
        return Err(refuse(Refusal::Memory, writer));
    };
    let opened = begin_by_first(alloc, device, &mut lines, reader, writer)?;
    match hear(alloc, &mut lines, reader) {
        Ok(heard) => Ok((opened, heard)),
        Err(fault) => {
            drop(opened);
            Err(fault)
        }
    }
}

/// Seats the session of the pass, with what it says and one of the shelves. No, where a shelf or memory is wanting.
fn seat<'a, J: Naming, S: Shelf + Drop>(
    alloc: Global,
    schema: &'a Schema,
    asked: &'a Asked,
    pass: Pass<J>,
    spoken: &'a Spoken,
    shelves: &mut Vec<S>,
    sessions: &mut Vec<(Pass<J>, Talk<'a, J, S>)>,
) -> bool
    requires { schema.now ≡ J.from.start.schema }
{
    let Some(shelf) = shelves.pop() else {
        return false;
    };
    let talk = Talk::new(alloc, schema, asked, spoken, shelf);
    sessions.push((pass, talk)).is_ok()
}

/// Seats the sessions of the passes, as they stand. No, where a seat or memory is wanting.
fn seat_all<'a, J: Naming, S: Shelf + Drop>(
    alloc: Global,
    schema: &'a Schema,
    asked: &'a Asked,
    passes: Vec<Pass<J>>,
    spoken: &'a [Spoken],
    shelves: &mut Vec<S>,
    sessions: &mut Vec<(Pass<J>, Talk<'a, J, S>)>,
) -> bool
    requires { schema.now ≡ J.from.start.schema }
{
    let mut running = spoken.iter().filter(|spoken| spoken.runs);
    for pass in passes {
        let Some(spoken) = running.next() else {
            return false;
        };
        if !seat(alloc, schema, asked, pass, spoken, shelves, sessions) {
            return false;
        }
    }
    true
}

/// Runs the sessions of the passes over the service, each with one of the shelves.
fn run_seated<
    J: Naming + Send + Sync,
    D: Directory + Shelf + Drop + Send,
    S: Shelf + Drop + Send,
    R: Threads + Wait + Clock + Sync,
>(
    rt: &R,
    alloc: Global,
    service: &Service<D, J>,
    passes: Vec<Pass<J>>,
    schema: &Schema,
    asked: &Asked,
    spoken: &[Spoken],
    shelves: Vec<S>,
) -> Result<(), Fault>
    requires { schema.now ≡ J.from.start.schema }
{
    let mut shelves = shelves;
    let mut sessions = Vec::new(alloc);
    let seated = seat_all(
        alloc,
        schema,
        asked,
        passes,
        spoken,
        &mut shelves,
        &mut sessions,
    );
    drop(shelves);
    if !seated {
        return Err(Fault::Thread);
    }
    let merging = Resting::new(rt);
    match run_threads(rt, alloc, service, sessions, merging, Resting::new(rt)) {
        Ok(_passes) => Ok(()),
        Err(_) => Err(Fault::Thread),
    }
}

/// Runs the sessions whose lines were heard. What each is told stands beside its lines afterwards.
fn run_sessions<
    J: Naming + Send + Sync,
    D: Directory + Shelf + Drop + Send,
    S: Shelf + Drop + Send,
    R: Threads + Wait + Clock + Sync,
>(
    rt: &R,
    alloc: Global,
    opened: Opened<D>,
    spoken: &[Spoken],
    running: &Running,
    shelves: Vec<S>,
) -> Result<(), Fault>
    requires names { (opened.begun.table ≡ J.table) × (J.from ≡ ground_of (shape_in opened.begun.ledger)) × (J.sessions ≡ seated_by [] running.now.numbers.items) }
    requires different { all_different running.now.numbers.items ≡ true }
{
    let Opened { begun, schema } = opened;
    let numbers = running.numbers.as_slice();
    let Some((service, passes)) = service_of::<D, J>(alloc, begun, numbers) else {
        return Err(Fault::Thread);
    };
    let run = run_seated(
        rt,
        alloc,
        &service,
        passes,
        &schema,
        &running.asked,
        spoken,
        shelves,
    );
    drop(service);
    run
}

/// Writes what a session that ran was told.
fn send_whole<W: Write>(told: &Told, to: &mut W) -> Result<(), WriteFault> {
    send(told.text.as_slice(), to)?;
    if told.whole { Ok(()) } else { Err(WriteFault) }
}

/// Writes that a session which didn't run has no command, for each of its lines.
fn send_no_command<W: Write>(spoken: &Spoken, to: &mut W) -> Result<(), WriteFault> {
    for _ in 0..spoken.count {
        send_number(spoken.number as u64, b" NO 10\n", to)?;
    }
    Ok(())
}

/// Writes what each session was told, and that those which didn't run have no command.
fn send_told<W: Write>(spoken: &mut [Spoken], to: &mut W) -> Result<(), WriteFault> {
    for each in spoken {
        let sent = if each.runs {
            send_whole(each.told.get_mut(), to)
        } else {
            send_no_command(each, to)
        };
        sent?;
    }
    Ok(())
}

/// Writes the replies: to the lines that can't be read, and then each session's, by rising number.
fn send_replies<W: Write>(heard: &mut Heard, to: &mut W) -> Result<(), WriteFault> {
    for _ in 0..heard.unreadable {
        send_unreadable(to)?;
    }
    send_told(heard.spoken.as_mut_slice(), to)?;
    flush(to)
}

/// Writes the replies, if the sessions ran, and says whether that failed.
fn tell_all<W: Write>(ran: Result<(), Fault>, heard: &mut Heard, to: &mut W) -> Result<(), Fault> {
    if ran.is_ok() && send_replies(heard, to).is_err() {
        return Err(Fault::Write);
    }
    ran
}

/// Says why nothing is opened.
pub(crate) fn refuse<W: Write>(refusal: Refusal, to: &mut W) -> Fault {
    if send_refused(refusal, to).is_err() || flush(to).is_err() {
        Fault::Write
    } else {
        Fault::Schema
    }
}

/// Answers the lines of the reader, up to [`MAX_LINES`](crate::MAX_LINES) behind the first, which opens the newest commit of the
/// directory, or an empty catalogue where there is none. Once all have come, each of the first [`MAX_THREADS`] sessions runs in a
/// thread of its own, its lines in order, with a merger and a warmer beside them; it reads stored texts from one of the shelves, of
/// which there are as many. Lines of other sessions are refused with [`Refusal::Line`]. What is written is the reply to the first line, the
/// replies to lines that can't be read, and then those of each session, by rising number.
///
/// (Lucene: an `IndexWriter` with a `ConcurrentMergeScheduler`, and threads that index and search.)
pub fn serve_threads<
    D: Directory + Shelf + Drop + Send,
    S: Shelf + Drop + Send,
    R: Threads + Wait + Clock + Sync,
    I: Read,
    W: Write,
>(
    rt: &R,
    alloc: Global,
    device: D,
    shelves: Vec<S>,
    reader: &mut I,
    writer: &mut W,
) -> Result<(), Fault> {
    match open_and_hear(alloc, device, reader, writer) {
        Ok((opened, (heard, running))) => {
            let mut heard = heard;
            let spoken = heard.spoken.as_slice();
            let ran = run_sessions::<Brand, D, S, R>(rt, alloc, opened, spoken, &running, shelves);
            tell_all(ran, &mut heard, writer)
        }
        Err(fault) => Err(fault),
    }
}
