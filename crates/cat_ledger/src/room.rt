//! Room in the buffer: a flush where it is full, or where nothing may wait.
ghost use Rattle.cat_directory.specs.Frames.{CountsFailures};
ghost use Rattle.cat_base.specs.declared.refusal.Refusal.TheVariants.{Device, Memory, Spent};
ghost use Rattle.cat_directory.specs.declared.name.FileName.{FileName};
ghost use Rattle.cat_ledger_laws.specs.model.Calls.{Flushes};
ghost use Rattle.std.specs.Prelude.{IfErr, OnErr, OnOk, [], length, ◌<◌, ◌≡◌, ◌≤◌, ◌⊎◌};
ghost use Rattle.cat_ledger_laws.specs.model.Replies.{IsLeft, MakesRoom};
ghost use Rattle.cat_ledger_laws.specs.model.Ledger.{IsNew};
ghost use Rattle.cat_ledger_laws.specs.shape.Ties.{Makes};
ghost use Rattle.cat_ledger_state.specs.Cores.{HasFlushed, MayNotFlush, StayKnown};
ghost use Rattle.cat_directory.specs.Devices.{NoMore};
ghost use Rattle.cat_model.specs.Limits.{buffer_limit};
ghost use Rattle.cat_directory.specs.Names.{name_of};
ghost use Rattle.cat_ledger.specs.upkeep.Spared.{SparesCommits, TouchesNoCommit};

use cat_base::Refusal;
use cat_directory::Directory;
use cat_ledger_state::Core;

/// Flushes what waits.
pub(crate) fn flush<D: Directory>(core: &mut Core, device: &mut D) -> Result<(), Refusal>
    ensures ok { OnOk result (Makes Flushes (D.bytes device.old) core.old (D.bytes device.new) core.new) }
    ensures made { OnOk result (HasFlushed (D.bytes device.old) core.old (D.bytes device.new) core.new) }
    ensures may { OnOk result (MayNotFlush core.old → ⊥) }
    ensures flushed { OnOk result (core.new.buffered ≡ []) }
    ensures schema { core.new.schema ≡ core.old.schema }
    ensures views { core.new.views ≡ core.old.views }
    ensures holds { core.new.holds ≡ core.old.holds }
    ensures count { core.new.count ≡ core.old.count }
    ensures generation { OnOk result (core.new.next_generation ≡ core.old.next_generation) }
    ensures merging { core.new.merging ≡ core.old.merging }
    ensures known { StayKnown core.old.users core.new.users }
    ensures err { OnErr result (Makes IsLeft (D.bytes device.old) core.old (D.bytes device.new) core.new) }
    ensures crash { (q : FileName) → (IsNew core.old.next_segment core.old.next_generation (name_of q) → ⊥)
        → NoMore (D.may_leave device.old q) (D.may_leave device.new q) }
    ensures own { TouchesNoCommit (D.bytes device.old) (D.bytes device.new) }
    ensures commits { SparesCommits (D.may_leave device.old) (D.may_leave device.new) }
    ensures spent { IfErr result (λ e. e ≡ Spent → MayNotFlush core.old) }
    ensures due { IfErr result (λ e. (e ≡ Memory) ⊎ (e ≡ Device) → MayNotFlush core.old → ⊥) }
    ensures fails { CountsFailures D.can_fail D.fault_count device.old device.new result }
    ensures quiet { OnOk result (D.fault_count device.new ≡ D.fault_count device.old) }
    ensures refusal { IfErr result (λ e. (e ≡ Memory) ⊎ (e ≡ Device) ⊎ (e ≡ Spent)) }
{
    if let Err(refusal) = core.flush(device) {
        return Err(refusal);
    }
    Ok(())
}

/// Flushes where as many items wait as may. (Lucene: `FlushByRamOrCountsPolicy`, with `setMaxBufferedDocs`.)
pub(crate) fn make_room<D: Directory>(core: &mut Core, device: &mut D) -> Result<(), Refusal>
    ensures ok { OnOk result (Makes MakesRoom (D.bytes device.old) core.old (D.bytes device.new) core.new) }
    ensures space { OnOk result (length core.new.buffered < buffer_limit) }
    ensures may { OnOk result (buffer_limit ≤ length core.old.buffered → MayNotFlush core.old → ⊥) }
    ensures schema { core.new.schema ≡ core.old.schema }
    ensures count { core.new.count ≡ core.old.count }
    ensures merging { core.new.merging ≡ core.old.merging }
    ensures known { StayKnown core.old.users core.new.users }
    ensures err { OnErr result (Makes IsLeft (D.bytes device.old) core.old (D.bytes device.new) core.new) }
    ensures crash { (q : FileName) → (IsNew core.old.next_segment core.old.next_generation (name_of q) → ⊥)
        → NoMore (D.may_leave device.old q) (D.may_leave device.new q) }
    ensures commits { SparesCommits (D.may_leave device.old) (D.may_leave device.new) }
    ensures spent { IfErr result (λ e. e ≡ Spent → (buffer_limit ≤ length core.old.buffered) × MayNotFlush core.old) }
    ensures due { IfErr result (λ e. (e ≡ Memory) ⊎ (e ≡ Device) → MayNotFlush core.old → ⊥) }
    ensures fails { CountsFailures D.can_fail D.fault_count device.old device.new result }
    ensures quiet { OnOk result (D.fault_count device.new ≡ D.fault_count device.old) }
    ensures refusal { IfErr result (λ e. (e ≡ Memory) ⊎ (e ≡ Device) ⊎ (e ≡ Spent)) }
{
    if !core.is_due() {
        return Ok(());
    }
    flush(core, device)
}
