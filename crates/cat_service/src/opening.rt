//! Worlds that a schema line opens in a directory.
//!
//! Lucene's constructor of `IndexWriter` under an `IndexWriterConfig`.
ghost use Rattle.std.specs.Prelude.{◌≡◌, ◌≢◌, ◌⊎◌, [], Err, IfErr, IfOk, None, Ok};
ghost use Rattle.cat_base.specs.declared.refusal.Refusal.TheVariants.{Device, Memory};
ghost use Rattle.cat_items.specs.Reading.{schema_of};
ghost use Rattle.cat_ledger_laws.specs.shape.Ties.{ToldFiles};
ghost use Rattle.cat_model.specs.Lines.{IsReadable};
ghost use Rattle.cat_model.specs.Served.{HasSchemaText, SpellsSchema};
ghost use Rattle.cat_model.specs.Text.{Text};
ghost use Rattle.cat_commands.specs.cat_ledger.Histories.{LeavesNoneAhead};
ghost use Rattle.cat_commands.specs.cat_ledger.Lasting.{AlwaysTells};
ghost use Rattle.cat_service.specs.Reasons.{OpensSo};
ghost use Rattle.cat_service.specs.Opening.{BeginsIn, OpensWorld};
ghost use Rattle.cat_model.specs.Reasons.{CountsRefusal};
ghost use Rattle.cat_service.specs.Worlds.{device_of};

use crate::world::World;
use cat_base::{MAX_LINE_BYTES, Refusal};
use cat_commands::cat_cached_sets::filters::Filters;
use cat_commands::cat_ledger::upkeep::MergePolicy;
use cat_commands::cat_ledger::{Ledger, NotOpened};
use cat_commands::cat_protocol::ReaderStates;
use cat_commands::cat_protocol::lines::SchemaLine;
use cat_commands::cat_protocol::serving::Unopened;
use cat_directory::{Directory, Shelf};
use cat_items::Schema;
use std::alloc::{AllocError, Global};

/// The policy of the numbers that a schema line gives.
fn policy_of(found: &SchemaLine) -> MergePolicy
    requires { (line text : Text) × SpellsSchema line found.now.factor found.now.least text }
    ensures { result ≡ record { factor = found.now.factor; least = found.now.least } }
{
    match MergePolicy::of(found.factor as u64, found.least as u64) {
        Some(policy) => policy,
        None => unreachable!(),
    }
}

/// What is kept beside a ledger that opens: no set of rows, and no state of facets. Their memory is taken here.
fn nothing_kept(alloc: Global) -> Result<(Filters, ReaderStates), AllocError>
    ensures { IfOk result (λ kept. (kept.0 ≡ record { cached = []; noted = []; warming = None }) × (kept.1 ≡ [])) }
{
    let filters = Filters::new(alloc)?;
    let states = ReaderStates::new(alloc)?;
    Ok((filters, states))
}

/// The policy and the schema that the line asks for, with what is kept beside a ledger that opens.
fn asked_by(
    alloc: Global,
    line: &str,
) -> Result<(MergePolicy, Schema, Filters, ReaderStates), Refusal>
    ensures spelled { IfOk result (λ a. IsReadable line.now
        × (text : Text) × SpellsSchema line.now a.0.factor a.0.least text × (schema_of text ≡ Ok a.1)) }
    ensures kept { IfOk result (λ a. (a.2 ≡ record { cached = []; noted = []; warming = None }) × (a.3 ≡ [])) }
    ensures refused { IfErr result (λ e. (told : ToldFiles) → ((e ≡ Memory) × HasSchemaText line.now) ⊎ BeginsIn told line.now (Err e)) }
    ensures unasked { IfErr result (λ e. e ≢ Device) }
{
    if MAX_LINE_BYTES < line.len() {
        return Err(Refusal::Line);
    }
    let Some(found) = SchemaLine::read(line) else {
        return Err(Refusal::Line);
    };
    let schema = match Schema::read(alloc, found.json.as_bytes()) {
        Ok(schema) => schema,
        Err(refusal) => return Err(refusal),
    };
    let Ok((filters, states)) = nothing_kept(alloc) else {
        return Err(Refusal::Memory);
    };
    Ok((policy_of(&found), schema, filters, states))
}

impl<D: Directory + Shelf> World<D> {
    /// Opens the newest commit of the directory, or an empty catalogue where there is none, under the schema that the line
    /// gives, as `SCHEMA 10 1000 {"price":"number"}`: a factor of merges (2 to 100), their minimum (1 to 100,000), and the
    /// schema. No session has a right to a view, and no set is cached. (Lucene: `OpenMode.CREATE_OR_APPEND`, and the
    /// `LogDocMergePolicy`.)
    ///
    /// The first of these that is so is the refusal, with which the directory comes back, and nothing was deleted from it, nor
    /// may a crash leave more of a file than it could have left before: [`Refusal::Line`] of what isn't of that form, or is
    /// longer than a line may be; [`Refusal::Json`] or [`Refusal::Kind`] of what is no schema; then [`Refusal::Kind`] where the
    /// commit has another schema, [`Refusal::Damaged`] where its files don't hold it, [`Refusal::Device`] where the directory
    /// fails, which it then can. [`Refusal::Memory`] is told only of a line of the form. The directory counts one failure more
    /// where it is told that it failed, and none with any other refusal, so that none of them stands for a failure.
    ///
    /// A crash leaves no commit that is newer than the one that was opened, where such directories always tell of their files:
    /// so [`histories_last`](World::histories_last) speaks of what a crash leaves after the lines that come.
    pub fn open(alloc: Global, device: D, line: &str) -> Result<World<D>, Unopened<D>>
        ensures opens { OpensWorld D.bytes D.may_leave device line.now result }
        ensures ahead { IfOk result (λ w. AlwaysTells D.bytes → LeavesNoneAhead D.may_leave w.ledger) }
        ensures begins { IfOk result (λ w. OpensSo D.bytes D.can_fail D.fault_count device line.now w) }
        ensures sets { IfOk result (λ w. w.sets ≡ record { cached = []; noted = []; warming = None }) }
        ensures can { IfOk result (λ w. D.can_fail (device_of w) → D.can_fail device) }
        ensures counted { IfErr result (λ u. CountsRefusal (D.can_fail device) (D.fault_count device) (D.fault_count u.seed) u.refusal) }
    {
        let (policy, schema, filters, states) = match asked_by(alloc, line) {
            Ok(asked) => asked,
            Err(cause) => return Err(Unopened {
                refusal: cause,
                seed: device,
            }),
        };
        match Ledger::open(alloc, device, schema, policy) {
            Ok(ledger) => Ok(World {
                alloc,
                ledger,
                filters,
                states,
            }),
            Err(NotOpened { refusal, device }) => Err(Unopened {
                refusal,
                seed: device,
            }),
        }
    }
}
