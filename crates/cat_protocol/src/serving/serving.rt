//! Lines read from a reader, answered to a writer: the first opens the machine, and the others are answered by it.
ghost use Rattle.std.specs.Prelude.{◌≡◌, ◌<◌, ◌≤◌, true, [], ◌∷◌, OnOk, Result, length, take, map, option_map, vec_capacity};
ghost use Rattle.cat_model.specs.Input.{ended_after, rest_after};
ghost use Rattle.cat_model.specs.Served.{refused_text, ServesBy};
ghost use Rattle.cat_protocol.specs.declared.serving.machine.Stage.TheVariants.{Waiting, Open};
ghost use Rattle.cat_protocol.specs.declared.sending.pieces.WriteFault.{WriteFault};
ghost use Rattle.cat_protocol.specs.sending.Out.{Sent};
ghost use Rattle.cat_protocol.specs.serving.Machine.{opened_text, short_line, stands_open};
ghost use Rattle.cat_protocol.specs.serving.Serving.{Comes, IsReady, IsRefusedAs, Says, ServesLines, came_by, ended_as, ended_of, last_lines};
ghost use Rattle.cat_protocol.specs.serving.Serving.{LeadsTo, RefusedAt, ServesFlushed, StandsFrom};

use crate::sending::{WriteFault, flush, send_opened, send_refused};
use crate::serving::input::{MAX_GATHERED, gather, if_short, split_line, without_return};
use crate::serving::machine::{Machine, Stage, Unopened};
use cat_base::Refusal;
use std::alloc::Global;
use std::io;
use std::io::{ErrorKind, Read, Write};

/// Why serving ended before the end of the input.
#[derive(Clone, Copy)]
pub enum ServeFault {
    /// The first line was refused, or memory to read it was, and that is all that was said. The program ends with
    /// status 2.
    Schema,
    /// The reader failed, or was called 4,294,967,295 times without coming to its end. The lines that had ended are
    /// answered. The program ends with status 3.
    Read,
    /// The writer failed, and a front went out of what was to be said. The program ends with status 3.
    Write,
}

/// What serving leaves: how far it came, and why it ended before the end of the input, if it did.
#[derive(Drop)]
pub struct Served<M, S> {
    pub stage: Stage<M, S>,
    pub ended: Result<(), ServeFault>,
}

/// How serving ends where a write ended so.
fn as_ended(sent: Result<(), WriteFault>) -> Result<(), ServeFault>
    ensures { result ≡ ended_of sent }
{
    match sent {
        Ok(()) => Ok(()),
        Err(WriteFault) => Err(ServeFault::Write),
    }
}

/// Says why nothing is opened. Nothing is read behind it, so it is passed on at once.
fn refuse<W: Write>(refusal: Refusal, to: &mut W) -> ServeFault
    ensures { IsRefusedAs (W.contents to.old) (W.contents to.new) (refused_text refusal) result }
{
    if send_refused(refusal, to).is_err() || flush(to).is_err() {
        ServeFault::Write
    } else {
        ServeFault::Schema
    }
}

/// Says of a machine that was just opened at which token it stands.
fn say_opened<M: Machine, W: Write>(machine: &M, to: &mut W) -> Result<(), ServeFault>
    ensures { (sent : Result (Unit {0}) WriteFault) × Sent (W.contents to.old) (W.contents to.new) sent (opened_text (M.token machine.now))
        × (result ≡ ended_of sent) }
{
    as_ended(send_opened(machine.start_token(), to))
}

/// Opens a machine by the first line and says so, or refuses the line.
fn open_machine<M: Machine, W: Write>(
    alloc: Global,
    seed: M::Seed,
    line: Option<&[u8]>,
    to: &mut W,
) -> Served<M, M::Seed>
    ensures { ServesLines (Says M.opens M.step M.token) (Waiting seed) (option_map (λ l. l.now) line.entry ∷ [])
        result.stage (W.contents to.old) (W.contents to.new) result.ended }
{
    match M::open(alloc, seed, line) {
        Ok(machine) => {
            let ended = say_opened(&machine, to);
            Served {
                stage: Stage::Open(machine),
                ended,
            }
        }
        Err(Unopened { refusal, seed }) => {
            let fault = refuse(refusal, to);
            Served {
                stage: Stage::Refused(seed),
                ended: Err(fault),
            }
        }
    }
}

/// Answers one line.
fn answer_line<M: Machine, W: Write>(
    machine: &mut M,
    line: &[u8],
    to: &mut W,
) -> Result<(), ServeFault>
    ensures { ServesLines (Says M.opens M.step M.token) (Open machine.old) (short_line line.now ∷ []) (Open machine.new)
        (W.contents to.old) (W.contents to.new) result }
{
    as_ended(machine.answer(if_short(line), to))
}

/// Answers one line, the first by opening the machine.
fn serve_line<M: Machine, W: Write>(
    alloc: Global,
    stage: Stage<M, M::Seed>,
    line: &[u8],
    to: &mut W,
) -> Served<M, M::Seed>
    requires ready { IsReady stage }
    ensures { ServesLines (Says M.opens M.step M.token) stage (short_line line.now ∷ []) result.stage
        (W.contents to.old) (W.contents to.new) result.ended }
{
    match stage {
        Stage::Waiting(seed) => open_machine(alloc, seed, if_short(line), to),
        Stage::Refused(_) => unreachable!(),
        Stage::Open(mut machine) => {
            let ended = answer_line(&mut machine, line, to);
            Served {
                stage: Stage::Open(machine),
                ended,
            }
        }
    }
}

/// Answers the lines that the next bytes end, and gathers what comes after the last line feed. The machine stays where it
/// is, so that a line costs no copy of it.
fn answer_lines<M: Machine, W: Write>(
    machine: &mut M,
    gathered: &mut Vec<u8>,
    bytes: &[u8],
    to: &mut W,
) -> Result<(), ServeFault>
    requires room { MAX_GATHERED ≤ vec_capacity gathered.old }
    requires short { length gathered.old.items ≤ MAX_GATHERED }
    ensures served { ServesLines (Says M.opens M.step M.token) (Open machine.old)
        (map short_line (ended_after gathered.old.items bytes.now))
        (Open machine.new) (W.contents to.old) (W.contents to.new) result }
    ensures gathered { OnOk result
        (take MAX_GATHERED gathered.new.items ≡ take MAX_GATHERED (rest_after gathered.old.items bytes.now)) }
    ensures room { MAX_GATHERED ≤ vec_capacity gathered.new }
    ensures short { length gathered.new.items ≤ MAX_GATHERED }
{
    let mut rest = bytes;
    'lines: while let Some((piece, more)) = split_line(rest) {
        gather(gathered, piece);
        answer_line(machine, without_return(gathered.as_slice()), to)?;
        gathered.clear();
        rest = more;
    }
    gather(gathered, rest);
    Ok(())
}

/// The same for a stage at which a machine stands open.
fn feed_open<M: Machine, W: Write>(
    stage: Stage<M, M::Seed>,
    gathered: &mut Vec<u8>,
    bytes: &[u8],
    to: &mut W,
) -> Served<M, M::Seed>
    requires open { stands_open stage ≡ true }
    requires room { MAX_GATHERED ≤ vec_capacity gathered.old }
    requires short { length gathered.old.items ≤ MAX_GATHERED }
    ensures served { ServesLines (Says M.opens M.step M.token) stage
        (map short_line (ended_after gathered.old.items bytes.now))
        result.stage (W.contents to.old) (W.contents to.new) result.ended }
    ensures gathered { OnOk result.ended
        (take MAX_GATHERED gathered.new.items ≡ take MAX_GATHERED (rest_after gathered.old.items bytes.now)) }
    ensures ready { OnOk result.ended (IsReady result.stage) }
    ensures room { MAX_GATHERED ≤ vec_capacity gathered.new }
    ensures short { length gathered.new.items ≤ MAX_GATHERED }
{
    match stage {
        Stage::Waiting(_) | Stage::Refused(_) => unreachable!(),
        Stage::Open(mut machine) => {
            let ended = answer_lines(&mut machine, gathered, bytes, to);
            Served {
                stage: Stage::Open(machine),
                ended,
            }
        }
    }
}

/// Opens a machine by the first line that the next bytes end, where they end one, and answers the others.
fn feed_first<M: Machine, W: Write>(
    alloc: Global,
    seed: M::Seed,
    gathered: &mut Vec<u8>,
    bytes: &[u8],
    to: &mut W,
) -> Served<M, M::Seed>
    requires room { MAX_GATHERED ≤ vec_capacity gathered.old }
    requires short { length gathered.old.items ≤ MAX_GATHERED }
    ensures served { ServesLines (Says M.opens M.step M.token) (Waiting seed)
        (map short_line (ended_after gathered.old.items bytes.now))
        result.stage (W.contents to.old) (W.contents to.new) result.ended }
    ensures gathered { OnOk result.ended
        (take MAX_GATHERED gathered.new.items ≡ take MAX_GATHERED (rest_after gathered.old.items bytes.now)) }
    ensures ready { OnOk result.ended (IsReady result.stage) }
    ensures room { MAX_GATHERED ≤ vec_capacity gathered.new }
    ensures short { length gathered.new.items ≤ MAX_GATHERED }
{
    let Some((piece, more)) = split_line(bytes) else {
        gather(gathered, bytes);
        return Served {
            stage: Stage::Waiting(seed),
            ended: Ok(()),
        };
    };
    gather(gathered, piece);
    let given = if_short(without_return(gathered.as_slice()));
    let opened = open_machine(alloc, seed, given, to);
    gathered.clear();
    match opened.ended {
        Ok(()) => feed_open(opened.stage, gathered, more, to),
        Err(_) => opened,
    }
}

/// Answers the lines that the next bytes end, the first of all by opening the machine, and gathers what comes after the
/// last line feed.
fn feed<M: Machine, W: Write>(
    alloc: Global,
    stage: Stage<M, M::Seed>,
    gathered: &mut Vec<u8>,
    bytes: &[u8],
    to: &mut W,
) -> Served<M, M::Seed>
    requires ready { IsReady stage }
    requires room { MAX_GATHERED ≤ vec_capacity gathered.old }
    requires short { length gathered.old.items ≤ MAX_GATHERED }
    ensures served { ServesLines (Says M.opens M.step M.token) stage
        (map short_line (ended_after gathered.old.items bytes.now))
        result.stage (W.contents to.old) (W.contents to.new) result.ended }
    ensures gathered { OnOk result.ended
        (take MAX_GATHERED gathered.new.items ≡ take MAX_GATHERED (rest_after gathered.old.items bytes.now)) }
    ensures ready { OnOk result.ended (IsReady result.stage) }
    ensures room { MAX_GATHERED ≤ vec_capacity gathered.new }
    ensures short { length gathered.new.items ≤ MAX_GATHERED }
{
    match stage {
        Stage::Waiting(seed) => feed_first(alloc, seed, gathered, bytes, to),
        ready => feed_open(ready, gathered, bytes, to),
    }
}

/// Answers what is left at the end of the input. The first line may be empty there, and a later one counts if it
/// isn't.
fn serve_last<M: Machine, W: Write>(
    alloc: Global,
    stage: Stage<M, M::Seed>,
    gathered: &[u8],
    to: &mut W,
) -> Served<M, M::Seed>
    requires ready { IsReady stage }
    ensures { ServesLines (Says M.opens M.step M.token) stage (map short_line (last_lines stage gathered.now))
        result.stage (W.contents to.old) (W.contents to.new) result.ended }
{
    if stage.is_open() && gathered.is_empty() {
        return Served {
            stage,
            ended: Ok(()),
        };
    }
    serve_line(alloc, stage, gathered, to)
}

/// Answers so what is left at the end of the input, and hands on what the writer holds back.
fn serve_end<M: Machine, W: Write>(
    alloc: Global,
    stage: Stage<M, M::Seed>,
    gathered: &[u8],
    to: &mut W,
) -> Served<M, M::Seed>
    requires ready { IsReady stage }
    ensures { ServesFlushed (Says M.opens M.step M.token) stage (map short_line (last_lines stage gathered.now))
        result.stage (W.contents to.old) (W.contents to.new) result.ended }
{
    let served = serve_last(alloc, stage, gathered, to);
    match served.ended {
        Ok(()) => {
            let ended = as_ended(flush(to));
            Served {
                stage: served.stage,
                ended,
            }
        }
        Err(_) => served,
    }
}

/// What a call of the reader brought.
enum Came {
    Bytes(usize),
    /// A signal interrupted the call.
    Nothing,
    End,
    Fault,
}

/// What a call of the reader that answers so brought.
fn brought(answer: &io::Result<usize>) -> Came
    ensures { result ≡ came_by answer.now }
{
    match answer {
        Ok(0) => Came::End,
        Ok(n) => Came::Bytes(*n),
        Err(error) => match error.kind() {
            ErrorKind::Interrupted => Came::Nothing,
            _ => Came::Fault,
        },
    }
}

/// One call of the reader.
fn read_some<R: Read>(reader: &mut R, chunk: &mut [u8]) -> Came
    requires { 0 < length chunk.old }
    ensures { Comes (R.remaining reader.old) (R.remaining reader.new) chunk.new result }
{
    brought(&reader.read(chunk))
}

/// Reads up to the end of the input, in buffers that are taken already. What was written goes out before each read, so
/// that a client which waits for its replies has them.
fn serve_within<M: Machine, R: Read, W: Write>(
    alloc: Global,
    seed: M::Seed,
    reader: &mut R,
    writer: &mut W,
    gathered: &mut Vec<u8>,
    chunk: &mut [u8],
) -> Served<M, M::Seed>
    requires some { 0 < length chunk.old }
    requires room { MAX_GATHERED ≤ vec_capacity gathered.old }
    requires empty { gathered.old.items ≡ [] }
    ensures { ServesBy (LeadsTo M.opens M.step M.token seed result.stage) (RefusedAt M.opens seed result.stage)
        (R.remaining reader.old) (R.remaining reader.new) (W.contents writer.old) (W.contents writer.new)
        (ended_as result.ended) }
{
    let mut stage = Stage::Waiting(seed);
    'reads: for _ in 0..u32::MAX {
        if flush(writer).is_err() {
            return Served {
                stage,
                ended: Err(ServeFault::Write),
            };
        }
        match read_some(reader, chunk) {
            Came::Bytes(n) => {
                let served = feed(alloc, stage, gathered, &chunk[..n], writer);
                stage = match served.ended {
                    Ok(()) => served.stage,
                    Err(_) => return served,
                };
            }
            Came::Nothing => continue,
            Came::Fault => return Served {
                stage,
                ended: Err(ServeFault::Read),
            },
            Came::End => return serve_end(alloc, stage, gathered.as_slice(), writer),
        }
    }
    Served {
        stage,
        ended: Err(ServeFault::Read),
    }
}

/// How many bytes are read at once.
const CHUNK: usize = 65_536;

/// Answers each line of the reader: the first opens the machine from the seed, and the others are answered by it.
///
/// What comes back has the machine as the answered lines left it, also at a fault, or the seed where none was opened. Two
/// buffers, of 10,002 and 65,536 bytes, are taken before anything is read: where memory for them is wanting, that is said
/// as a refusal, and the seed waits as it was. Nothing else here takes memory. What was written goes out before each read.
/// The reader is called at most 4,294,967,295 times.
pub fn serve_machine<M: Machine, R: Read, W: Write>(
    alloc: Global,
    seed: M::Seed,
    reader: &mut R,
    writer: &mut W,
) -> Served<M, M::Seed>
    ensures ends { ServesBy (LeadsTo M.opens M.step M.token seed result.stage) (RefusedAt M.opens seed result.stage)
        (R.remaining reader.old) (R.remaining reader.new) (W.contents writer.old) (W.contents writer.new)
        (ended_as result.ended) }
    ensures stage { StandsFrom M.opens M.step seed result.stage }
{
    let Ok(mut gathered) = Vec::with_capacity(alloc, MAX_GATHERED) else {
        let fault = refuse(Refusal::Memory, writer);
        return Served {
            stage: Stage::Waiting(seed),
            ended: Err(fault),
        };
    };
    let Ok(mut chunk) = vec![in alloc; 0; CHUNK] else {
        let fault = refuse(Refusal::Memory, writer);
        return Served {
            stage: Stage::Waiting(seed),
            ended: Err(fault),
        };
    };
    serve_within::<M, R, W>(
        alloc,
        seed,
        reader,
        writer,
        &mut gathered,
        chunk.as_mut_slice(),
    )
}
