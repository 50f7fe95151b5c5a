//! A whole file, read.
ghost use Rattle.std.specs.Prelude.{◌≡◌, ◌≢◌, ◌≤◌, ◌<◌, Some, None, IfOk, IfErr};
ghost use Rattle.cat_base.specs.declared.refusal.Refusal.TheVariants.{Memory, Damaged};
ghost use Rattle.cat_directory.specs.Frames.{FailsReading, OnlyReads};
ghost use Rattle.cat_model.specs.Text.{Text};
ghost use Rattle.cat_ledger_laws.specs.shape.Ties.{IsTold};

use cat_base::Refusal;
use cat_directory::{FileName, Shelf};
use std::alloc::Global;

/// How many of so many bytes one call reads.
fn piece(left: u64) -> u32
    ensures within { result ≤ left }
    ensures some { 0 < left → 0 < result }
{
    if left < u64::from(u32::MAX) {
        left as u32
    } else {
        u32::MAX
    }
}

/// All bytes of the file. [`Refusal::Damaged`] where it is absent, which want of memory never hides.
pub fn read_file<S: Shelf>(alloc: Global, shelf: &mut S, name: FileName) -> Result<Vec<u8>, Refusal>
    ensures ok { IfOk result (λ v. IsTold (S.bytes shelf.old name) (Some v.items)) }
    ensures damaged { IfErr result (λ e. e ≡ Damaged → (bs : Text) → S.bytes shelf.old name ≢ Some (Some bs)) }
    ensures due { IfErr result (λ e. e ≡ Memory → S.bytes shelf.old name ≢ Some None) }
    ensures fails { FailsReading S.can_fail S.fault_count shelf.old shelf.new result }
    ensures frame { OnlyReads S.bytes S.may_leave S.can_fail shelf.old shelf.new }
{
    let size = shelf.size(name)?;
    let mut bytes = shelf.read(alloc, name, 0, piece(size))?;
    while (bytes.len() as u64) < size {
        let from = bytes.len() as u64;
        let more = shelf.read(alloc, name, from, piece(size - from))?;
        bytes.extend_from_slice(&more)?;
    }
    Ok(bytes)
}
