//! Files that are written together, of which one must not be seen without the others.
ghost use Rattle.std.specs.Prelude.{◌≡◌, ◌≢◌, ◌⊎◌, true, false, ◌∷◌, map, Some, None, All, AllPairs, OnOk, IfErr};
ghost use Rattle.cat_base.specs.declared.refusal.Refusal.TheVariants.{Device};
ghost use Rattle.cat_model.specs.Files.{IsFileName};
ghost use Rattle.cat_directory.specs.Devices.{CountsWriting, IsSettled, NoMore};
ghost use Rattle.cat_directory.specs.Frames.{FailsWriting};
ghost use Rattle.cat_directory.specs.Names.{name_of};
ghost use Rattle.cat_ledger_laws.specs.model.Users.{has_name};
ghost use Rattle.cat_ledger_laws.specs.shape.Ties.{TouchesOnly};
ghost use Rattle.cat_commits.specs.writing.NewFiles.{names_of, IsWritten, NoMoreBut, AreSettled, ComesBehind, ComesLast, OnlyTorn};

use cat_base::Refusal;
use cat_directory::{Directory, FileName, write_file, write_lasting};
use std::alloc::Global;
use std::marker::Model;

/// A file that is to be written.
#[derive(Drop)]
pub(crate) struct NewFile {
    pub(crate) name: FileName,
    pub(crate) bytes: Vec<u8>,
}

impl Model for NewFile {
    ghost use Rattle.cat_commits.specs.writing.NewFiles as new;

    ghost Value = { new.NewBytes };

    ghost view = { λ f. record { name = f.name; bytes = f.bytes.items } };
}

/// Writes the file, which need not last yet.
fn write_one<D: Directory>(device: &mut D, alloc: Global, file: &NewFile) -> Result<(), Refusal>
    requires form { IsFileName (name_of file.now.name) }
    ensures others { (q : FileName) → q ≢ file.now.name → D.bytes device.new q ≡ D.bytes device.old q }
    ensures crash { (q : FileName) → q ≢ file.now.name → NoMore (D.may_leave device.old q) (D.may_leave device.new q) }
    ensures torn { OnlyTorn file.now.name file.now.bytes (D.bytes device.old) (D.may_leave device.old) (D.may_leave device.new) }
    ensures ok { OnOk result (IsWritten (D.bytes device.old) (D.bytes device.new) file.now) }
    ensures fails { FailsWriting D.can_fail D.fault_count device.old device.new result }
{
    write_file(device, alloc, file.name, &file.bytes)
}

/// Writes the file, and waits until it would outlast a loss of power.
fn write_last<D: Directory>(device: &mut D, alloc: Global, file: &NewFile) -> Result<(), Refusal>
    requires form { IsFileName (name_of file.now.name) }
    ensures others { (q : FileName) → q ≢ file.now.name → D.bytes device.new q ≡ D.bytes device.old q }
    ensures crash { (q : FileName) → q ≢ file.now.name → NoMore (D.may_leave device.old q) (D.may_leave device.new q) }
    ensures torn { OnlyTorn file.now.name file.now.bytes (D.bytes device.old) (D.may_leave device.old) (D.may_leave device.new) }
    ensures ok { OnOk result (IsWritten (D.bytes device.old) (D.bytes device.new) file.now) }
    ensures lasts { OnOk result (IsSettled (D.bytes device.new file.now.name) (D.may_leave device.new file.now.name)) }
    ensures fails { FailsWriting D.can_fail D.fault_count device.old device.new result }
{
    write_lasting(device, alloc, file.name, &file.bytes)?;
    Ok(())
}

/// Writes the files one after the other, which need not last yet. Their names differ.
fn write_files<D: Directory>(
    device: &mut D,
    alloc: Global,
    files: &[NewFile],
) -> Result<(), Refusal>
    requires form { All (λ f. IsFileName (name_of f.name)) files.now }
    requires apart { AllPairs (λ a b. a.name ≢ b.name) files.now }
    ensures others { TouchesOnly (names_of files.now) (D.bytes device.old) (D.bytes device.new) }
    ensures crash { NoMoreBut (names_of files.now) (D.may_leave device.old) (D.may_leave device.new) }
    ensures ok { OnOk result (All (IsWritten (D.bytes device.old) (D.bytes device.new)) files.now) }
    ensures fails { FailsWriting D.can_fail D.fault_count device.old device.new result }
{
    for file in files {
        write_one(device, alloc, file)?;
    }
    Ok(())
}

/// Writes the files, and waits until those of the names would outlast a loss of power.
fn write_synced<D: Directory>(
    device: &mut D,
    alloc: Global,
    files: &[NewFile],
    unsynced: &[FileName],
) -> Result<(), Refusal>
    requires form { All (λ f. IsFileName (name_of f.name)) files.now }
    requires apart { AllPairs (λ a b. a.name ≢ b.name) files.now }
    ensures others { TouchesOnly (names_of files.now) (D.bytes device.old) (D.bytes device.new) }
    ensures crash { NoMoreBut (names_of files.now) (D.may_leave device.old) (D.may_leave device.new) }
    ensures ok { OnOk result (All (IsWritten (D.bytes device.old) (D.bytes device.new)) files.now) }
    ensures lasts { OnOk result (AreSettled (map name_of unsynced.now) (D.bytes device.new) (D.may_leave device.new)) }
    ensures device { IfErr result (λ e. e ≡ Device → D.can_fail device.old
        ⊎ ((q : FileName) × (has_name (name_of q) (map name_of unsynced.now) ≡ true) × (has_name (name_of q) (names_of files.now) ≡ false)
        × (D.bytes device.old q ≡ Some None))) }
    ensures can { D.can_fail device.new → D.can_fail device.old }
    ensures counted { CountsWriting (D.fault_count device.old) (D.fault_count device.new) result }
{
    write_files(device, alloc, files)?;
    device.sync(unsynced)?;
    Ok(())
}

/// Writes the files, waits until those of the names would outlast a loss of power, and only then writes the last file, until
/// it would too. (Lucene: `IndexWriter.prepareCommit`, which syncs what `SegmentInfos` names, and then `finishCommit`.)
///
/// Where it fails, none but these files may have changed.
pub(crate) fn write_in_order<D: Directory>(
    device: &mut D,
    alloc: Global,
    files: &[NewFile],
    unsynced: &[FileName],
    last: &NewFile,
) -> Result<(), Refusal>
    requires form { All (λ f. IsFileName (name_of f.name)) files.now }
    requires apart { AllPairs (λ a b. a.name ≢ b.name) files.now }
    requires last_form { IsFileName (name_of last.now.name) }
    requires last_apart { has_name (name_of last.now.name) (names_of files.now) ≡ false }
    requires last_unsynced { has_name (name_of last.now.name) (map name_of unsynced.now) ≡ false }
    ensures others { TouchesOnly (names_of (last.now ∷ files.now)) (D.bytes device.old) (D.bytes device.new) }
    ensures crash { NoMoreBut (names_of (last.now ∷ files.now)) (D.may_leave device.old) (D.may_leave device.new) }
    ensures ok { OnOk result (All (IsWritten (D.bytes device.old) (D.bytes device.new)) files.now) }
    ensures last { OnOk result (IsWritten (D.bytes device.old) (D.bytes device.new) last.now) }
    ensures lasts { OnOk result (AreSettled (name_of last.now.name ∷ map name_of unsynced.now) (D.bytes device.new) (D.may_leave device.new)) }
    ensures order { ComesLast last.now.name (map name_of unsynced.now) (D.bytes device.old) (D.bytes device.new)
        (D.may_leave device.old) (D.may_leave device.new) }
    ensures torn { OnlyTorn last.now.name last.now.bytes (D.bytes device.old) (D.may_leave device.old) (D.may_leave device.new) }
    ensures behind { ComesBehind last.now.name files.now (D.bytes device.old) (D.bytes device.new)
        (D.may_leave device.old) (D.may_leave device.new) }
    ensures device { IfErr result (λ e. e ≡ Device → D.can_fail device.old
        ⊎ ((q : FileName) × (has_name (name_of q) (map name_of unsynced.now) ≡ true) × (has_name (name_of q) (names_of files.now) ≡ false)
        × (D.bytes device.old q ≡ Some None))) }
    ensures can { D.can_fail device.new → D.can_fail device.old }
    ensures counted { CountsWriting (D.fault_count device.old) (D.fault_count device.new) result }
{
    write_synced(device, alloc, files, unsynced)?;
    write_last(device, alloc, last)?;
    Ok(())
}
