//! Whole files, written: so that they are there, or so that they last.
ghost use Rattle.std.specs.Prelude.{◌≡◌, ◌≢◌, ◌⊎◌, Some, None, OnOk, IfErr};
ghost use Rattle.cat_model.specs.cat_base.declared.refusal.Refusal.TheVariants.{Memory, Device};
ghost use Rattle.cat_model.specs.Files.{IsFileName};
ghost use Rattle.cat_directory.specs.Names.{name_of};
ghost use Rattle.cat_directory.specs.Devices.{CountsWriting, FileContent, IsSettled, NoMore, OrTorn, emptied, told_after, file_written};

use crate::{Directory, FileName};
use cat_model::cat_base::Refusal;
use std::alloc::Global;

/// Makes the file of the name, with these bytes, also where it was there. (Lucene: `Directory.createOutput` and what is
/// written to its `IndexOutput`.) It need not outlast a loss of power yet.
///
/// Where this fails, only this file may have changed; where it is refused for memory, the file is as it was or has no bytes.
pub fn write_file<D: Directory>(
    device: &mut D,
    alloc: Global,
    name: FileName,
    bytes: &[u8],
) -> Result<(), Refusal>
    requires form { IsFileName (name_of name) }
    ensures others { (q : FileName) → q ≢ name → D.bytes device.new q ≡ D.bytes device.old q }
    ensures crash { (q : FileName) → q ≢ name → NoMore (D.may_leave device.old q) (D.may_leave device.new q) }
    ensures torn { (now : FileContent) → D.bytes device.old name ≡ Some now
        → OrTorn bytes.now (D.may_leave device.old name) (D.may_leave device.new name) }
    ensures ok { OnOk result (D.bytes device.new name ≡ told_after (file_written bytes.now) (D.bytes device.old name)) }
    ensures memory { IfErr result (λ e. e ≡ Memory → (D.bytes device.new name ≡ D.bytes device.old name)
        ⊎ (D.bytes device.new name ≡ told_after emptied (D.bytes device.old name))) }
    ensures device { IfErr result (λ e. e ≡ Device → D.can_fail device.old) }
    ensures can { D.can_fail device.new → D.can_fail device.old }
    ensures counted { CountsWriting (D.fault_count device.old) (D.fault_count device.new) result }
{
    device.create(alloc, name)?;
    device.append(name, bytes)
}

/// Makes the file of the name, with these bytes, as [`write_file`] does, and waits until it outlasts a loss of power, and
/// until what was deleted is gone for good. (Lucene: `Directory.sync` behind what was written.)
///
/// Where this fails, only this file may have changed; where it is refused for memory, the file is as it was or has no bytes.
pub fn write_lasting<D: Directory>(
    device: &mut D,
    alloc: Global,
    name: FileName,
    bytes: &[u8],
) -> Result<(), Refusal>
    requires form { IsFileName (name_of name) }
    ensures others { (q : FileName) → q ≢ name → D.bytes device.new q ≡ D.bytes device.old q }
    ensures crash { (q : FileName) → q ≢ name → NoMore (D.may_leave device.old q) (D.may_leave device.new q) }
    ensures torn { (now : FileContent) → D.bytes device.old name ≡ Some now
        → OrTorn bytes.now (D.may_leave device.old name) (D.may_leave device.new name) }
    ensures ok { OnOk result (D.bytes device.new name ≡ told_after (file_written bytes.now) (D.bytes device.old name)) }
    ensures lasts { OnOk result
        (IsSettled (told_after (file_written bytes.now) (D.bytes device.old name)) (D.may_leave device.new name)) }
    ensures gone { OnOk result ((q : FileName) → q ≢ name → D.bytes device.old q ≡ Some None
        → IsSettled (D.bytes device.old q) (D.may_leave device.new q)) }
    ensures memory { IfErr result (λ e. e ≡ Memory → (D.bytes device.new name ≡ D.bytes device.old name)
        ⊎ (D.bytes device.new name ≡ told_after emptied (D.bytes device.old name))) }
    ensures device { IfErr result (λ e. e ≡ Device → D.can_fail device.old) }
    ensures can { D.can_fail device.new → D.can_fail device.old }
    ensures counted { CountsWriting (D.fault_count device.old) (D.fault_count device.new) result }
{
    write_file(device, alloc, name, bytes)?;
    device.sync(&[name])
}
