//! A ledger as it is opened, beside the words of an empty list, before they have a name.
ghost use Rattle.std.specs.Prelude.{◌≡◌, ◌⊎◌, ℕ, [], IfOk, IfErr};
ghost use Rattle.crossbeam_utils.specs.Seq.{cell_view};
ghost use Rattle.cat_base.specs.declared.refusal.Refusal.TheVariants.{Damaged, Device, Kind, Memory};
ghost use Rattle.cat_directory.specs.declared.name.FileName.{FileName};
ghost use Rattle.cat_commands.specs.cat_ledger.Ledgers.{device_in, policy_in, shape_in};
ghost use Rattle.cat_commands.specs.cat_ledger.Openings.{IsOpenedLedger};
ghost use Rattle.cat_commands.specs.cat_ledger.cat_ledger_state.startup.Refused.{IsNewestDamaged, IsNewestForeign};
ghost use Rattle.cat_threads.specs.history.Rules.{scribe as scribe_sight};
ghost use Rattle.cat_threads.specs.service.Begins.{IsJustOpened};

use crate::history::{self, Cell, Seat};
use cat_base::{Refusal, WriteNo};
use cat_commands::cat_ledger::upkeep::MergePolicy;
use cat_commands::cat_ledger::{Ledger, NotOpened};
use cat_directory::{Directory, Shelf};
use cat_items::Schema;
use std::alloc::Global;
use std::marker::Model;

/// A ledger as it is opened, beside the words of an empty list. [`Service::new`](crate::Service::new) is called with it, in a
/// function that a call names by `Brand`.
///
/// Contracts see it as the name of its words, and the ledger.
pub struct Begun<D: Directory + Shelf> {
    pub(crate) cell: Cell,
    pub(crate) scribe: Seat,
    pub(crate) ledger: Ledger<D>,
}

impl<D: Directory + Shelf> Model for Begun<D> {
    ghost use Rattle.std.specs.Prelude.{◌≡◌, []};
    ghost use Rattle.crossbeam_utils.specs.Seq.{cell_view};
    ghost use Rattle.cat_threads.specs.history.Rules as rules;
    ghost use Rattle.cat_commands.specs.cat_ledger.Ledgers.{device_in, shape_in};
    ghost use Rattle.cat_threads.specs.service.Begins as begins;

    ghost Value = { begins.Begun D };

    ghost view = { λ b. record { table = b.cell.table.shared.table_id; ledger = b.ledger } };

    ghost invariant = { λ b. (b.scribe.table_id ≡ b.cell.table.shared.table_id) × (cell_view b.scribe ≡ rules.scribe [] 0 [] [])
        × begins.IsJustOpened (D.bytes (device_in b.ledger)) (shape_in b.ledger) };
}

// By hand, as the desk's: what is derived is proved anew in each crate that lets one go, down to the last field of a segment.
impl<D: Directory + Shelf + Drop> Drop for Begun<D> {
    fn drop(self) {
        let Begun {
            cell: _,
            scribe: _,
            ledger,
        } = self;
        let _directory = ledger.into_directory();
    }
}

impl<D: Directory + Shelf> Begun<D> {
    /// Opens a ledger as [`Ledger::open`] does, beside the words of an empty list. (Lucene: the constructor of `IndexWriter`
    /// with `OpenMode.CREATE_OR_APPEND`.)
    ///
    /// The refusals are those of [`Ledger::open`]; then nothing is deleted.
    pub fn open(
        alloc: Global,
        device: D,
        schema: Schema,
        policy: MergePolicy,
    ) -> Result<Begun<D>, NotOpened<D>>
        ensures ok { IfOk result (λ b. IsOpenedLedger (D.bytes device) schema (D.bytes (device_in b.ledger)) (shape_in b.ledger)) }
        ensures fields { IfOk result (λ b. (shape_in b.ledger).schema ≡ schema) }
        ensures policy { IfOk result (λ b. policy_in b.ledger ≡ policy) }
        ensures damaged { IfErr result (λ e. e.refusal ≡ Damaged → IsNewestDamaged (D.bytes device) schema) }
        ensures foreign { IfErr result (λ e. e.refusal ≡ Kind → IsNewestForeign (D.bytes device) schema) }
        ensures device { IfErr result (λ e. e.refusal ≡ Device → D.can_fail device) }
        ensures refusal { IfErr result (λ e. (e.refusal ≡ Kind) ⊎ (e.refusal ≡ Damaged) ⊎ (e.refusal ≡ Device) ⊎ (e.refusal ≡ Memory)) }
        ensures same { IfErr result (λ e. (q : FileName) → D.bytes e.device q ≡ D.bytes device q) }
    {
        let Ok((cell, scribe)) = history::new_cell(alloc) else {
            let refusal = Refusal::Memory;
            return Err(NotOpened { refusal, device });
        };
        match Ledger::open(alloc, device, schema, policy) {
            Ok(ledger) => Ok(Begun {
                cell,
                scribe,
                ledger,
            }),
            Err(not) => Err(not),
        }
    }

    /// Its words, the pass that knows their whole list, and the ledger.
    pub(crate) fn into_parts(self) -> (Cell, Seat, Ledger<D>)
        ensures cell { result.0.table.shared.table_id ≡ self.table }
        ensures scribe { (result.1.table_id ≡ self.table) × (cell_view result.1 ≡ scribe_sight [] 0 [] []) }
        ensures ledger { result.2 ≡ self.ledger }
        ensures opened { IsJustOpened (D.bytes (device_in self.ledger)) (shape_in self.ledger) }
    {
        let Begun {
            cell,
            scribe,
            ledger,
        } = self;
        (cell, scribe, ledger)
    }

    /// How many writes were accepted before, which is the token of the view that is recorded.
    pub fn count(&self) -> WriteNo
        ensures { result ≡ (shape_in self.now.ledger).count }
    {
        self.ledger.count()
    }
}
