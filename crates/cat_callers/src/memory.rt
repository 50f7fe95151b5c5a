//! Files in memory that threads share.
ghost use Rattle.std.specs.Prelude.{◌≡◌, ℕ};
ghost use Rattle.cat_directory.specs.Devices.{CountsReading, CountsWriting};

use cat_base::Refusal;
use cat_directory::{Directory, FileName, Holder, MemoryDirectory, Shelf};
use std::alloc::{AllocError, Global};
use std::sync::{Arc, Mutex, Wait};

/// Files in memory that threads share, each as a directory or a shelf of its own. Proofs are told nothing of them, as of those of
/// a folder: between two calls another thread may change them. (Lucene: `ByteBuffersDirectory`.)
#[derive(Drop)]
pub struct SharedMemory<R: Wait + Drop> {
    rt: R,
    files: Arc<Mutex<MemoryDirectory>>,
    failures: u64,
}

impl<R: Wait + Clone + Drop> SharedMemory<R> {
    /// No file is there yet.
    pub fn new(rt: R, alloc: Global) -> Result<Self, AllocError> {
        Ok(SharedMemory {
            rt,
            files: Arc::new(alloc, Mutex::new(MemoryDirectory::new(alloc)))?,
            failures: 0,
        })
    }

    /// The same files, for another thread.
    pub fn another(&self) -> Result<Self, AllocError> {
        Ok(SharedMemory {
            rt: self.rt.clone()?,
            files: Arc::try_clone(&self.files)?,
            failures: 0,
        })
    }
}

impl<R: Wait + Drop> SharedMemory<R> {
    /// Counts a failure that the files answered.
    fn counted<T>(&mut self, told: Result<T, Refusal>) -> Result<T, Refusal>
        ensures same { result ≡ told }
        ensures writing { (m n : ℕ) → CountsWriting m n told → CountsWriting self.old.failures self.new.failures result }
        ensures reading { (m n : ℕ) → CountsReading m n told → CountsReading self.old.failures self.new.failures result }
    {
        if matches!(&told, Err(Refusal::Device)) {
            self.failures = self.failures.saturating_add(1);
        }
        told
    }
}

impl<R: Wait + Drop> Holder for SharedMemory<R> {
    ghost use Rattle.std.specs.Prelude.{None};

    ghost bytes = { λ d q. None };

    ghost may_leave = { λ d q e. Unit {0} };

    ghost use Rattle.cat_callers.specs.SharedFiles.{shared_failures};

    ghost fault_count = { shared_failures };

    ghost can_fail = { λ d. Unit {0} };

    fn failures(&self) -> u64 {
        self.failures
    }

    ghost may_stay = { λ d name e is. tt };

    ghost use Rattle.std.proofs.Common.{inl, refl};

    ghost tells_alike = { λ d. inl (λ q. refl) };
}

impl<R: Wait + Drop> Directory for SharedMemory<R> {
    fn create(&mut self, alloc: Global, name: FileName) -> Result<(), Refusal> {
        let told = self.files.lock(&self.rt).create(alloc, name);
        self.counted(told)
    }

    fn append(&mut self, name: FileName, bytes: &[u8]) -> Result<(), Refusal> {
        let told = self.files.lock(&self.rt).append(name, bytes);
        self.counted(told)
    }

    fn delete(&mut self, name: FileName) -> Result<(), Refusal> {
        let told = self.files.lock(&self.rt).delete(name);
        self.counted(told)
    }

    fn sync(&mut self, names: &[FileName]) -> Result<(), Refusal> {
        let told = self.files.lock(&self.rt).sync(names);
        self.counted(told)
    }

    fn names(&mut self, alloc: Global) -> Result<Vec<FileName>, Refusal> {
        let told = self.files.lock(&self.rt).names(alloc);
        self.counted(told)
    }
}

impl<R: Wait + Drop> Shelf for SharedMemory<R> {
    fn size(&mut self, name: FileName) -> Result<u64, Refusal> {
        let told = self.files.lock(&self.rt).size(name);
        self.counted(told)
    }

    fn read(
        &mut self,
        alloc: Global,
        name: FileName,
        from: u64,
        len: u32,
    ) -> Result<Vec<u8>, Refusal> {
        let told = self.files.lock(&self.rt).read(alloc, name, from, len);
        self.counted(told)
    }
}
