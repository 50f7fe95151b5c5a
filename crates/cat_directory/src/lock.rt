//! The lock of a folder, by which one program at a time works over it. Proofs are told nothing of it: who else asks for it is
//! the system's to know.
ghost use Rattle.std.specs.Prelude.{◌≡◌};
ghost use Rattle.cat_directory.specs.Locks.{lock_refusal};

use crate::system_folder::folder_path;
use std::alloc::{AllocError, Global};
use std::fs::{File, Files, TryLockError};

/// A file, or a folder, with a lock that the system gives to one of those that have it open, or to several that share it.
pub trait Lockable {
    /// Takes the lock, and waits for nobody.
    fn try_lock(&self) -> Result<(), TryLockError>;

    /// Takes a share of the lock, and waits for nobody.
    fn try_lock_shared(&self) -> Result<(), TryLockError>;
}

impl Lockable for File {
    fn try_lock(&self) -> Result<(), TryLockError> {
        File::try_lock(self)
    }

    fn try_lock_shared(&self) -> Result<(), TryLockError> {
        File::try_lock_shared(self)
    }
}

/// Why the lock of a folder isn't had.
#[derive(Clone, Copy)]
pub enum LockRefusal {
    /// Another has it.
    InUse,
    /// The folder can't be opened, or the system can't lock it.
    Device,
    /// Memory is wanting.
    Memory,
}

impl From<AllocError> for LockRefusal {
    ghost use Rattle.cat_directory.specs.declared.lock.LockRefusal.TheVariants.{Memory};

    ghost from_gives = { λ _ refusal. refusal ≡ Memory };

    fn from(_error: AllocError) -> LockRefusal {
        LockRefusal::Memory
    }
}

impl LockRefusal {
    /// What the system's answer is told as.
    fn of(error: TryLockError) -> LockRefusal
        ensures { result ≡ lock_refusal error }
    {
        match error {
            TryLockError::WouldBlock => LockRefusal::InUse,
            TryLockError::Error(_) => LockRefusal::Device,
        }
    }
}

/// The folder at the path, open. What is no folder isn't opened.
fn open_folder<R: Files>(rt: &R, alloc: Global, path: &str) -> Result<R::File, LockRefusal> {
    let folder = folder_path(alloc, path)?;
    match File::open(rt, folder.as_str()) {
        Ok(folder) => Ok(folder),
        Err(_) => Err(LockRefusal::Device),
    }
}

/// The lock of a folder, or a share of it. While one has the lock nobody else has it or a share, in this program or another. The
/// system takes it back where the value is dropped, and when the program ends, however it does: no file stands for it, and a
/// program that is started by this one doesn't inherit it. (Lucene: `NativeFSLockFactory.obtainLock`, over a file of its own.)
#[derive(Drop)]
pub struct FolderLock<F: Drop> {
    // The folder, open: closed, it is unlocked.
    _folder: F,
}

impl<F: Lockable + Drop> FolderLock<F> {
    /// Takes the lock of the folder at the path, and waits for nobody. It changes no file.
    ///
    /// [`LockRefusal::InUse`] where another has the lock or a share of it, and [`LockRefusal::Device`] where the folder can't be
    /// opened or locked.
    pub fn take<R: Files<File = F>>(
        rt: &R,
        alloc: Global,
        path: &str,
    ) -> Result<Self, LockRefusal> {
        let folder = open_folder(rt, alloc, path)?;
        match folder.try_lock() {
            Ok(()) => Ok(FolderLock { _folder: folder }),
            Err(error) => Err(LockRefusal::of(error)),
        }
    }

    /// Takes a share of the lock of the folder at the path, as [`FolderLock::take`] does the whole. While it is kept nobody has
    /// the whole, and others may have shares.
    pub fn share<R: Files<File = F>>(
        rt: &R,
        alloc: Global,
        path: &str,
    ) -> Result<Self, LockRefusal> {
        let folder = open_folder(rt, alloc, path)?;
        match folder.try_lock_shared() {
            Ok(()) => Ok(FolderLock { _folder: folder }),
            Err(error) => Err(LockRefusal::of(error)),
        }
    }
}
