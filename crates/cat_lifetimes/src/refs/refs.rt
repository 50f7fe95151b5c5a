//! The users of files, counted by name.
ghost use Rattle.std.specs.Prelude.{◌≡◌, ◌≢◌, ◌+◌, ◌<◌, ◌≤◌, ◌^◌, ◌==◌, [], map, length, count_by, true, false, OnOk, OnErr, IfOk, IfErr, AllPairs};
ghost use Rattle.cat_base.specs.declared.refusal.Refusal.TheVariants.{Memory, Device};
ghost use Rattle.cat_model.specs.Files.{Name};
ghost use Rattle.cat_ledger_laws.specs.model.Users.{Changes, times, users_of, is_known};
ghost use Rattle.cat_directory.specs.Devices.{CountsWriting, NoMore};
ghost use Rattle.cat_directory.specs.Names.{same_name};
ghost use Rattle.std.specs.HashMap.{spare};
ghost use Rattle.std.specs.List.{IsDistinct};
ghost use Rattle.std.specs.Map.{keys_of};
ghost use Rattle.cat_lifetimes.specs.refs.Counts.{IsPending, PutsUsers, is_pending, names_in, used_in, users_under};
ghost use Rattle.cat_lifetimes.specs.refs.Swept.{ArePending, Swept};

use cat_base::Refusal;
use cat_directory::{Directory, FileName};
use std::alloc::{AllocError, Global};
use std::collections::HashMap;
use std::marker::Model;

/// How many users each file has: the current segments, recorded views, kept commits and the merge in the making. A name that
/// was taken stays known when its last user gives it up; it is then pending, until [`FileRefs::sweep`] has deleted the file.
/// (Lucene: `IndexFileDeleter` with its `RefCount`s, but which commits go is decided elsewhere.)
///
/// Contracts see it as the list of the known names, each with the number of its users.
pub struct FileRefs {
    users: HashMap<FileName, u64>,
}

impl Model for FileRefs {
    ghost use Rattle.std.specs.Prelude.{List, map};
    ghost use Rattle.cat_ledger_laws.specs.model.Users.{Used};
    ghost use Rattle.cat_lifetimes.specs.refs.Counts.{used_in};

    ghost Value = { List Used };

    ghost view = { λ refs. map used_in refs.users.entries };
}

impl Drop for FileRefs {
    fn drop(self) {
        let FileRefs { users } = self;
        drop(users);
    }
}

impl FileRefs {
    /// Where no name is known. It takes no memory until it grows.
    pub fn new(alloc: Global) -> Self
        ensures { result ≡ [] }
    {
        FileRefs {
            users: HashMap::new(alloc),
        }
    }

    /// How many names are pending: known, and without a user.
    pub fn pending(&self) -> u64
        ensures count { result ≡ count_by (λ u. u.users == 0) self.now }
        ensures once { AllPairs (λ u v. u.name ≢ v.name) self.now }
    {
        self.users.values().filter(|users| **users == 0).count() as u64
    }

    /// Each known name stands once among the users (a law, for a caller's proof): so to count entries is to count names.
    pub fn stand_once(&self)
        ensures { AllPairs (λ u v. u.name ≢ v.name) self.now }
    {
        let _users = self.users.values();
    }

    /// Each of the names gets one user more, as often as it stands there. (Lucene: `IndexFileDeleter.incRef`.)
    ///
    /// All room is made first: where memory is refused, everything is as it was.
    pub fn take(&mut self, names: &[FileName]) -> Result<(), AllocError>
        requires { (q : Name) → users_of self.old q + times q (names_in names.now) < 2 ^ 64 }
        ensures ok { OnOk result (Changes (names_in names.now) [] self.old self.new) }
        ensures err { OnErr result (self.new ≡ self.old) }
    {
        self.users.reserve(names.len())?;
        for name in names {
            add_user(&mut self.users, *name);
        }
        Ok(())
    }

    /// Each of the names gets one user less, as often as it stands there; it asks that each has so many. One that has none
    /// left is pending. (Lucene: `IndexFileDeleter.decRef`, which deletes at once.)
    pub fn give(&mut self, names: &[FileName])
        requires { (q : Name) → times q (names_in names.now) ≤ users_of self.old q }
        ensures { Changes [] (names_in names.now) self.old self.new }
    {
        for name in names {
            if let Some(count) = self.users.get_mut(name) {
                *count -= 1;
            }
        }
    }

    /// Deletes the files of the pending names, in byte order of these, up to the first that the directory refuses to delete,
    /// and answers how many names were pending, which all are forgotten. (Lucene: `IndexFileDeleter.deletePendingFiles`.)
    ///
    /// Where it is refused for memory, nothing was done. Where the directory fails, the names before the one that failed are
    /// forgotten and their files deleted; that one and those behind it stay pending. No other file is touched, and none is
    /// that somebody uses.
    pub fn sweep<D: Directory>(&mut self, alloc: Global, directory: &mut D) -> Result<u64, Refusal>
        ensures users { (q : Name) → users_of self.new q ≡ users_of self.old q }
        ensures known { (q : Name) → is_known self.new q ≡ true → is_known self.old q ≡ true }
        ensures ok { IfOk result (λ n. (n ≡ count_by (λ u. u.users == 0) self.old)
            × ((q : Name) → is_pending self.new q ≡ false)) }
        ensures done { OnOk result (count_by (λ u. u.users == 0) self.new ≡ 0) }
        ensures memory { IfErr result (λ e. e ≡ Memory → (self.new ≡ self.old)
            × ((q : FileName) → D.bytes directory.new q ≡ D.bytes directory.old q)
            × ((q : FileName) → NoMore (D.may_leave directory.old q) (D.may_leave directory.new q))) }
        ensures stays { IfErr result (λ e. e ≡ Device → (q : FileName) × IsPending self.new q) }
        ensures files { Swept self.old self.new (D.bytes directory.old) (D.bytes directory.new)
            (D.may_leave directory.old) (D.may_leave directory.new) }
        ensures device { IfErr result (λ e. e ≡ Device → D.can_fail directory.old) }
        ensures can { D.can_fail directory.new → D.can_fail directory.old }
        ensures counted { CountsWriting (D.fault_count directory.old) (D.fault_count directory.new) result }
    {
        let names = pending_names(&self.users, alloc)?;
        for name in &names {
            directory.delete(*name)?;
            self.users.remove(name);
        }
        Ok(names.len() as u64)
    }
}

/// The name gets one user more; it asks that there is room for a name. Nearly every name is known, and found by one hash.
fn add_user(users: &mut HashMap<FileName, u64>, name: FileName)
    requires room { 0 < spare users.old }
    requires fits { users_under users.old.entries name + 1 < 2 ^ 64 }
    ensures added { PutsUsers users.old.entries users.new.entries name (users_under users.old.entries name + 1) }
    ensures room { spare users.old ≤ spare users.new + 1 }
{
    if let Some(count) = users.get_mut(&name) {
        *count += 1;
        return;
    }
    let inserted: Result<_, _> = users.insert(name, 1);
    let _before = inserted.unwrap();
}

/// The names without users, in byte order.
fn pending_names(users: &HashMap<FileName, u64>, alloc: Global) -> Result<Vec<FileName>, AllocError>
    ensures names { IfOk result (λ names. ArePending (map used_in users.now.entries) names.items) }
    ensures count { IfOk result (λ names. length names.items ≡ count_by (λ u. u.users == 0) (map used_in users.now.entries)) }
    ensures once { OnOk result (IsDistinct same_name (keys_of users.now.entries)) }
{
    let unused = users.iter().filter(|(_, users)| **users == 0);
    let mut names: Vec<FileName> = unused.map(|(name, _)| *name).collect(alloc)?;
    names.sort_unstable();
    Ok(names)
}
