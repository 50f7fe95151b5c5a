//! Services that a schema line opens.
ghost use Rattle.std.specs.Prelude.{◌≡◌, [], true};
ghost use Rattle.cat_model.specs.Served.{SpellsSchema};
ghost use Rattle.cat_model.specs.Text.{Text};
ghost use Rattle.cat_threads.specs.cat_commands.cat_ledger.Ledgers.{shape_in};
ghost use Rattle.cat_threads.specs.service.Passes.{all_different, seated_by};
ghost use Rattle.cat_threads.specs.sharing.Grounds.{ground_of};

use crate::input::{Lines, Next};
use crate::threads::{Fault, refuse};
use cat_base::{Refusal, SessionNo, WriteNo};
use cat_directory::{Directory, Shelf};
use cat_items::Schema;
use cat_threads::cat_ledger::upkeep::MergePolicy;
use cat_threads::cat_protocol::lines::SchemaLine;
use cat_threads::cat_protocol::sending::{flush, send_opened};
use cat_threads::cat_protocol::serving::text_of;
use cat_threads::{Begun, Naming, Pass, Service};
use std::alloc::Global;
use std::io::{Read, Write};

/// What a schema line opened, and the fields of its items once more.
#[derive(Drop)]
pub(crate) struct Opened<D: Directory + Shelf + Drop> {
    pub(crate) begun: Begun<D>,
    pub(crate) schema: Schema,
    ghost fields: { (shape_in begun.ledger).schema ≡ schema },
}

/// The policy of the numbers that a schema line gives.
fn policy_of(found: &SchemaLine) -> MergePolicy
    requires { (line text : Text) × SpellsSchema line found.now.factor found.now.least text }
    ensures { result ≡ record { factor = found.now.factor; least = found.now.least } }
{
    match MergePolicy::of(found.factor as u64, found.least as u64) {
        Some(policy) => policy,
        None => unreachable!(),
    }
}

/// What a schema line gives.
struct First {
    schema: Schema,
    /// The same once more.
    shared: Schema,
    policy: MergePolicy,
    ghost same: { schema ≡ shared },
}

/// The schema that the line gives, twice, and its policy. The refusals are those of a schema line.
fn read_first(alloc: Global, line: &[u8]) -> Result<First, Refusal> {
    let Some(text) = text_of(line) else {
        return Err(Refusal::Line);
    };
    let Some(found) = SchemaLine::read(text) else {
        return Err(Refusal::Line);
    };
    let schema = Schema::read(alloc, found.json.as_bytes())?;
    let shared = schema.copy()?;
    Ok(First {
        schema,
        shared,
        policy: policy_of(&found),
    })
}

/// Opens the newest commit of the directory, or an empty catalogue where there is none, under the schema that the line gives. The
/// refusals are those of a schema line.
fn begin<D: Directory + Shelf + Drop>(
    alloc: Global,
    device: D,
    line: &[u8],
) -> Result<Opened<D>, Refusal> {
    match read_first(alloc, line) {
        Ok(first) => {
            let First {
                schema: read,
                shared: schema,
                policy,
            } = first;
            match Begun::open(alloc, device, read, policy) {
                Ok(begun) => Ok(Opened { begun, schema }),
                Err(not) => Err(not.refusal),
            }
        }
        Err(refusal) => Err(refusal),
    }
}

/// Writes the reply to a first line that opened.
fn tell_opened<W: Write>(token: WriteNo, writer: &mut W) -> Result<(), Fault> {
    if send_opened(token, writer).is_err() || flush(writer).is_err() {
        Err(Fault::Write)
    } else {
        Ok(())
    }
}

/// Reads the first line, opens the directory by it, and writes the reply.
pub(crate) fn begin_by_first<D: Directory + Shelf + Drop, I: Read, W: Write>(
    alloc: Global,
    device: D,
    lines: &mut Lines,
    reader: &mut I,
    writer: &mut W,
) -> Result<Opened<D>, Fault> {
    // An input of no bytes has one line, which is empty.
    if matches!(lines.next(reader), Next::Fault) {
        return Err(Fault::Read);
    }
    match begin(alloc, device, lines.line()) {
        Ok(opened) => match tell_opened(opened.begun.count(), writer) {
            Ok(()) => Ok(opened),
            Err(fault) => {
                drop(opened);
                Err(fault)
            }
        },
        Err(refusal) => Err(refuse(refusal, writer)),
    }
}

/// A service over what was opened, and the passes of its sessions, which have these numbers. None where memory is wanting.
pub(crate) fn service_of<D: Directory + Shelf + Drop, J: Naming>(
    alloc: Global,
    begun: Begun<D>,
    numbers: &[SessionNo],
) -> Option<(Service<D, J>, Vec<Pass<J>>)>
    requires names { (begun.table ≡ J.table) × (J.from ≡ ground_of (shape_in begun.ledger)) × (J.sessions ≡ seated_by [] numbers.now) }
    requires different { all_different numbers.now ≡ true }
{
    Service::<D, J>::new(alloc, begun, numbers).ok()
}
