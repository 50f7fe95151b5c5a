//! Opening: at the newest commit of a directory, or where there is none.
//!
//! Lucene's constructor of `IndexWriter` with `OpenMode.CREATE_OR_APPEND`, and that of its `IndexFileDeleter`.
ghost use Rattle.std.specs.Prelude.{◌≡◌, ◌⊎◌, ◌<◌, ◌≤◌, [], IfOk, IfErr, OnOk, OnErr};
ghost use Rattle.cat_base.specs.declared.refusal.Refusal.TheVariants.{Damaged, Device, Kind, Memory};
ghost use Rattle.cat_model.specs.Table.{Opened};
ghost use Rattle.cat_directory.specs.Devices.{NoMore};
ghost use Rattle.cat_directory.specs.Names.{name_of};
ghost use Rattle.cat_directory.specs.declared.name.FileName.{FileName};
ghost use Rattle.cat_ledger_laws.specs.model.Users.{users_of};
ghost use Rattle.cat_ledger_laws.specs.lines.RunLaws.{Stands};
ghost use Rattle.cat_ledger_state.specs.cat_commits.reading.Refused.{OpeningCount};
ghost use Rattle.cat_ledger_state.specs.startup.Refused.{IsNewestDamaged, IsNewestForeign};
ghost use Rattle.cat_ledger.specs.Histories.{LeavesNoneAhead, NoneIsAhead};
ghost use Rattle.cat_ledger.specs.Lasting.{AlwaysTells, IsLasting};
ghost use Rattle.cat_ledger.specs.Ledgers.{device_in, policy_in, shape_in};
ghost use Rattle.cat_ledger.specs.Openings.{CountsSwept, IsOpenedLedger};

use crate::ledger::Ledger;
use crate::upkeep::MergePolicy;
use cat_base::Refusal;
use cat_directory::{Directory, Shelf};
use cat_items::Schema;
use cat_ledger_state::Core;
use std::alloc::Global;

/// Why no ledger was opened, and the directory, from which nothing was deleted.
#[derive(Drop)]
pub struct NotOpened<D> {
    /// The first that was due.
    pub refusal: Refusal,
    /// The directory that was to be opened.
    pub device: D,
}

/// Opens the state, and then deletes the files that nobody needs, as far as they can be.
fn open_swept<D: Directory + Shelf>(
    alloc: Global,
    device: &mut D,
    schema: Schema,
) -> Result<Core, Refusal>
    ensures ok { IfOk result (IsOpenedLedger (D.bytes device.old) schema (D.bytes device.new)) }
    ensures fields { IfOk result (λ s. s.schema ≡ schema) }
    ensures stands { IfOk result (λ s. (from : Opened) × (from.start.schema ≡ schema) × Stands (D.bytes device.new) s from []) }
    ensures crash { IfOk result (λ s. (q : FileName) → 0 < users_of s.users (name_of q)
        → NoMore (D.may_leave device.old q) (D.may_leave device.new q)) }
    ensures lasts { IfOk result (IsLasting D.bytes D.may_leave device.new) }
    ensures ahead { IfOk result (λ s. AlwaysTells D.bytes → NoneIsAhead (D.may_leave device.new) s) }
    ensures damaged { IfErr result (λ e. e ≡ Damaged → IsNewestDamaged (D.bytes device.old) schema) }
    ensures foreign { IfErr result (λ e. e ≡ Kind → IsNewestForeign (D.bytes device.old) schema) }
    ensures device { IfErr result (λ e. e ≡ Device → D.can_fail device.old) }
    ensures counted { IfErr result (OpeningCount (D.fault_count device.old) (D.fault_count device.new)) }
    ensures refusal { IfErr result (λ e. (e ≡ Kind) ⊎ (e ≡ Damaged) ⊎ (e ≡ Device) ⊎ (e ≡ Memory)) }
    ensures same { OnErr result ((q : FileName) → D.bytes device.new q ≡ D.bytes device.old q) }
    ensures spared { OnErr result ((q : FileName) → NoMore (D.may_leave device.old q) (D.may_leave device.new q)) }
    ensures can { D.can_fail device.new → D.can_fail device.old }
    ensures rises { OnOk result (D.fault_count device.old ≤ D.fault_count device.new) }
    ensures swept { IfOk result (λ s. CountsSwept (D.can_fail device.old) (D.fault_count device.old) s (D.fault_count device.new)) }
{
    let mut core = cat_ledger_state::startup::open(alloc, device, schema)?;
    // Where a file can't be deleted, or memory is wanting, names stay pending for a later sweep.
    let _swept = core.sweep(device);
    Ok(core)
}

impl<D: Directory + Shelf> Ledger<D> {
    /// Opens the newest commit of the directory, or an empty catalogue where there is none, under this schema. What the commit needs
    /// outlasts a loss of power before anything goes; then the files that it doesn't need are deleted. The first that can't be is
    /// counted as a failure, and stays pending with those behind it. (Lucene: the constructor of `IndexWriter` with
    /// `OpenMode.CREATE_OR_APPEND`.)
    ///
    /// [`Refusal::Kind`] where the commit has another schema, [`Refusal::Damaged`] where its files don't hold it,
    /// [`Refusal::Device`] where the directory fails, or [`Refusal::Memory`]. Then nothing is deleted, and the directory counted a
    /// failure where that is what is told, and no other time.
    pub fn open(
        alloc: Global,
        device: D,
        schema: Schema,
        policy: MergePolicy,
    ) -> Result<Ledger<D>, NotOpened<D>>
        ensures ok { IfOk result (λ l. IsOpenedLedger (D.bytes device) schema (D.bytes (device_in l)) (shape_in l)) }
        ensures fields { IfOk result (λ l. (shape_in l).schema ≡ schema) }
        ensures policy { IfOk result (λ l. policy_in l ≡ policy) }
        ensures stands { IfOk result (λ l. (from : Opened) × (from.start.schema ≡ schema)
            × Stands (D.bytes (device_in l)) (shape_in l) from []) }
        ensures crash { IfOk result (λ l. (q : FileName) → 0 < users_of (shape_in l).users (name_of q)
            → NoMore (D.may_leave device q) (D.may_leave (device_in l) q)) }
        ensures ahead { IfOk result (λ l. AlwaysTells D.bytes → LeavesNoneAhead D.may_leave l) }
        ensures can { IfOk result (λ l. D.can_fail (device_in l) → D.can_fail device) }
        ensures rises { IfOk result (λ l. D.fault_count device ≤ D.fault_count (device_in l)) }
        ensures swept { IfOk result (λ l. CountsSwept (D.can_fail device) (D.fault_count device) (shape_in l) (D.fault_count (device_in l))) }
        ensures damaged { IfErr result (λ e. e.refusal ≡ Damaged → IsNewestDamaged (D.bytes device) schema) }
        ensures foreign { IfErr result (λ e. e.refusal ≡ Kind → IsNewestForeign (D.bytes device) schema) }
        ensures device { IfErr result (λ e. e.refusal ≡ Device → D.can_fail device) }
        ensures counted { IfErr result (λ e. OpeningCount (D.fault_count device) (D.fault_count e.device) e.refusal) }
        ensures refusal { IfErr result (λ e. (e.refusal ≡ Kind) ⊎ (e.refusal ≡ Damaged) ⊎ (e.refusal ≡ Device) ⊎ (e.refusal ≡ Memory)) }
        ensures same { IfErr result (λ e. (q : FileName) → D.bytes e.device q ≡ D.bytes device q) }
        ensures spared { IfErr result (λ e. (q : FileName) → NoMore (D.may_leave device q) (D.may_leave e.device q)) }
    {
        let mut device = device;
        match open_swept(alloc, &mut device, schema) {
            Ok(core) => Ok(Ledger {
                alloc,
                device,
                core,
                policy,
            }),
            Err(refusal) => Err(NotOpened { refusal, device }),
        }
    }
}
