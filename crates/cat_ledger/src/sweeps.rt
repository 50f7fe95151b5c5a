//! The sweep: the files go that nobody needs.
//!
//! Lucene's `IndexWriter.deleteUnusedFiles`.
ghost use Rattle.cat_directory.specs.Frames.{CountsFailures};
ghost use Rattle.cat_base.specs.declared.refusal.Refusal.TheVariants.{Device, Memory};
ghost use Rattle.cat_ledger.specs.Histories.{GoesOn};
ghost use Rattle.cat_ledger.specs.Ledgers.{DoesCall, device_in, shape_in};
ghost use Rattle.cat_directory.specs.declared.name.FileName.{FileName};
ghost use Rattle.std.specs.Prelude.{IfErr, IfOk, OnOk, [], false, count_by, ◌<◌, ◌==◌, ◌≡◌, ◌⊎◌};
ghost use Rattle.cat_ledger_laws.specs.model.Calls.{MayLeave};
ghost use Rattle.cat_directory.specs.Devices.{NoMore};
ghost use Rattle.cat_directory.specs.Names.{name_of};
ghost use Rattle.cat_ledger_laws.specs.model.Users.{users_of};
ghost use Rattle.cat_model.specs.Files.{Name};
ghost use Rattle.cat_ledger_state.specs.cat_lifetimes.refs.Counts.{IsPending, is_pending};
ghost use Rattle.cat_ledger_state.specs.cat_lifetimes.refs.Swept.{Swept};

use crate::ledger::Ledger;
use cat_base::Refusal;
use cat_directory::{Directory, Shelf};

impl<D: Directory + Shelf> Ledger<D> {
    /// Deletes the pending files, in byte order of their names, up to the first that the directory refuses to delete, and answers how
    /// many went. No file is touched that a segment that stands, a recorded view, a kept commit, or a merge in the making needs.
    /// (Lucene: `IndexWriter.deleteUnusedFiles`.)
    ///
    /// [`Refusal::Device`] where the directory fails: the file that it failed at and those behind it are still pending; or
    /// [`Refusal::Memory`], with nothing done.
    pub fn sweep(&mut self) -> Result<u64, Refusal>
        ensures ok { DoesCall D.bytes (MayLeave []) self.old self.new }
        ensures files { Swept (shape_in self.old).users (shape_in self.new).users (D.bytes (device_in self.old)) (D.bytes (device_in self.new))
            (D.may_leave (device_in self.old)) (D.may_leave (device_in self.new)) }
        ensures none { OnOk result ((q : Name) → is_pending (shape_in self.new).users q ≡ false) }
        ensures done { OnOk result (count_by (λ u. u.users == 0) (shape_in self.new).users ≡ 0) }
        ensures memory { IfErr result (λ e. e ≡ Memory → (shape_in self.new ≡ shape_in self.old)
            × ((q : FileName) → D.bytes (device_in self.new) q ≡ D.bytes (device_in self.old) q)
            × ((q : FileName) → NoMore (D.may_leave (device_in self.old) q) (D.may_leave (device_in self.new) q))) }
        ensures stays { IfErr result (λ e. e ≡ Device → (q : FileName) × IsPending (shape_in self.new).users q) }
        ensures count { IfOk result (λ n. n ≡ count_by (λ u. u.users == 0) (shape_in self.old).users) }
        ensures used { (q : FileName) → 0 < users_of (shape_in self.old).users (name_of q)
            → D.bytes (device_in self.new) q ≡ D.bytes (device_in self.old) q }
        ensures crash { (q : FileName) → 0 < users_of (shape_in self.old).users (name_of q)
            → NoMore (D.may_leave (device_in self.old) q) (D.may_leave (device_in self.new) q) }
        ensures refusal { IfErr result (λ e. (e ≡ Memory) ⊎ (e ≡ Device)) }
        ensures fails { CountsFailures D.can_fail D.fault_count (device_in self.old) (device_in self.new) result }
        ensures making { (shape_in self.new).merging ≡ (shape_in self.old).merging }
        ensures goes { GoesOn D.bytes D.may_leave self.old self.new }
    {
        self.core.sweep(&mut self.device)
    }
}
