//! The sweep: the files go that nobody needs.
//!
//! Lucene's `IndexFileDeleter.deletePendingFiles`. When one is due is left to who asks.
ghost use Rattle.std.specs.Prelude.{◌≡◌, ◌<◌, ◌==◌, [], false, count_by, IfOk, IfErr, OnOk, ◌≤◌};
ghost use Rattle.cat_base.specs.declared.refusal.Refusal.TheVariants.{Memory, Device};
ghost use Rattle.cat_model.specs.Files.{Name};
ghost use Rattle.cat_directory.specs.Devices.{NoMore};
ghost use Rattle.cat_directory.specs.Frames.{FailsWriting};
ghost use Rattle.cat_directory.specs.Names.{name_of};
ghost use Rattle.cat_directory.specs.declared.name.FileName.{FileName};
ghost use Rattle.cat_ledger_laws.specs.model.Users.{users_of};
ghost use Rattle.cat_ledger_laws.specs.shape.Steps.{Leaves};
ghost use Rattle.cat_lifetimes.specs.refs.Counts.{is_pending, IsPending};
ghost use Rattle.cat_lifetimes.specs.refs.Swept.{Swept};

use crate::state::Core;
use cat_base::Refusal;
use cat_directory::Directory;

impl Core {
    /// Deletes the pending files, in byte order of their names, up to the first that the directory refuses to delete, and
    /// answers how many were pending (Lucene: `IndexFileDeleter.deletePendingFiles`). No file that somebody needs is touched.
    ///
    /// [`Refusal::Device`] where the directory fails: the file that it failed at and those behind it are still pending; or
    /// [`Refusal::Memory`], with nothing done.
    pub fn sweep<D: Directory>(&mut self, device: &mut D) -> Result<u64, Refusal>
        ensures leaves { Leaves [] self.old self.new }
        ensures used { (q : FileName) → 0 < users_of self.old.users (name_of q) → D.bytes device.new q ≡ D.bytes device.old q }
        ensures crash { (q : FileName) → 0 < users_of self.old.users (name_of q)
            → NoMore (D.may_leave device.old q) (D.may_leave device.new q) }
        ensures files { Swept self.old.users self.new.users (D.bytes device.old) (D.bytes device.new)
            (D.may_leave device.old) (D.may_leave device.new) }
        ensures ok { IfOk result (λ n. (n ≡ count_by (λ u. u.users == 0) self.old.users)
            × ((q : Name) → is_pending self.new.users q ≡ false)) }
        ensures done { OnOk result (count_by (λ u. u.users == 0) self.new.users ≡ 0) }
        ensures memory { IfErr result (λ e. e ≡ Memory → (self.new ≡ self.old)
            × ((q : FileName) → D.bytes device.new q ≡ D.bytes device.old q)
            × ((q : FileName) → NoMore (D.may_leave device.old q) (D.may_leave device.new q))) }
        ensures stays { IfErr result (λ e. e ≡ Device → (q : FileName) × IsPending self.new.users q) }
        ensures fails { FailsWriting D.can_fail D.fault_count device.old device.new result }
        ensures rises { D.fault_count device.old ≤ D.fault_count device.new }
    {
        self.refs.sweep(self.alloc, device)
    }
}
