//! A device around another, which fails where it is told to: by it is tested what a failure leaves, and a crash.
ghost use Rattle.std.specs.Prelude.{◌≡◌, ◌-◌, ◌↔◌, IfErr, IsErr};
ghost use Rattle.cat_model.specs.cat_base.declared.refusal.Refusal.TheVariants.{Device};
ghost use Rattle.cat_directory.specs.Devices.{CountsOne, CountsWriting};
ghost use Rattle.cat_directory.specs.Fuses.{IsArmed, IsFaultDue, Notes, faults_after};

use crate::{Directory, FileName, Holder, Shelf};
use cat_model::cat_base::Refusal;
use std::alloc::Global;

/// Which calls of a [`Faulty`] device fail.
#[derive(Clone, Copy)]
pub enum Faults {
    /// None.
    Never,
    /// One, behind so many that pass.
    One(u64),
    /// Each, behind so many that pass.
    All(u64),
}

/// Which call fails next, and what there was so far.
#[derive(Drop)]
struct Fuse {
    faults: Faults,
    calls: u64,
    failures: u64,
}

impl Fuse {
    /// Counts a call, which brings the next failure nearer, and says whether it passes.
    fn meet(&mut self) -> Result<(), Refusal>
        ensures due { IsErr result ↔ IsFaultDue self.old.faults }
        ensures calls { CountsOne self.old.calls self.new.calls }
        ensures faults { self.new.faults ≡ faults_after self.old.faults }
        ensures armed { IsArmed self.new.faults → IsArmed self.old.faults }
        ensures device { IfErr result (λ e. (e ≡ Device) × IsArmed self.old.faults) }
        ensures counted { CountsWriting self.old.failures self.new.failures result }
    {
        self.calls = self.calls.saturating_add(1);
        match self.faults {
            Faults::Never => return Ok(()),
            Faults::One(0) => self.faults = Faults::Never,
            Faults::All(0) => {}
            Faults::One(passes) => {
                self.faults = Faults::One(passes - 1);
                return Ok(());
            }
            Faults::All(passes) => {
                self.faults = Faults::All(passes - 1);
                return Ok(());
            }
        }
        self.failures = self.failures.saturating_add(1);
        Err(Refusal::Device)
    }

    /// Passes the answer of the device on, and counts it where it is a failure.
    fn note<T>(&mut self, answer: Result<T, Refusal>) -> Result<T, Refusal>
        ensures same { result ≡ answer }
        ensures faults { self.new.faults ≡ self.old.faults }
        ensures calls { self.new.calls ≡ self.old.calls }
        ensures counted { Notes self.old.failures self.new.failures result }
    {
        if let Err(Refusal::Device) = &answer {
            self.failures = self.failures.saturating_add(1);
        }
        answer
    }
}

/// A device around another, whose answers it passes on, but for the calls that are to fail: these do nothing. `failures` is no
/// call. (Lucene: `MockDirectoryWrapper`, with its `Failure`.)
///
/// What a call leaves of which all the device's calls fail from some one on, a crash before that one leaves.
#[derive(Drop)]
pub struct Faulty<D> {
    device: D,
    fuse: Fuse,
}

impl<D> Faulty<D> {
    ghost use Rattle.cat_directory.specs.FaultyDevices.{calls_in, device_within, failures_in, faults_in};

    /// The device, with calls that are to fail. No call was made yet, and none has failed.
    pub fn new(device: D, faults: Faults) -> Self
        ensures device { device_within result ≡ device }
        ensures faults { faults_in result ≡ faults }
        ensures calls { calls_in result ≡ 0 }
        ensures failures { failures_in result ≡ 0 }
    {
        Faulty {
            device,
            fuse: Fuse {
                faults,
                calls: 0,
                failures: 0,
            },
        }
    }

    /// How many calls were made, those that failed among them.
    pub fn calls(&self) -> u64
        ensures { result ≡ calls_in self.now }
    {
        self.fuse.calls
    }

    /// Which calls fail from now on.
    pub fn faults(&self) -> Faults
        ensures { result ≡ faults_in self.now }
    {
        self.fuse.faults
    }

    /// From now on other calls fail.
    pub fn set_faults(&mut self, faults: Faults)
        ensures device { device_within self.new ≡ device_within self.old }
        ensures faults { faults_in self.new ≡ faults }
        ensures calls { calls_in self.new ≡ calls_in self.old }
        ensures failures { failures_in self.new ≡ failures_in self.old }
    {
        self.fuse.faults = faults;
    }

    /// The device within, as its calls left it.
    pub fn into_device(self) -> D
        ensures { result ≡ device_within self }
    {
        let Faulty { device, fuse: _ } = self;
        device
    }
}

impl<D: Holder> Holder for Faulty<D> {
    ghost use Rattle.std.specs.Prelude.{◌⊎◌};
    ghost use Rattle.cat_directory.specs.FaultyDevices.{device_within, failures_in, faults_in};
    ghost use Rattle.cat_directory.specs.Fuses.{IsArmed};

    ghost bytes = { λ d. D.bytes (device_within d) };

    ghost may_leave = { λ d. D.may_leave (device_within d) };

    ghost fault_count = { failures_in };

    ghost can_fail = { λ d. D.can_fail (device_within d) ⊎ IsArmed (faults_in d) };

    fn failures(&self) -> u64 {
        self.fuse.failures
    }

    ghost may_stay = { λ d. D.may_stay (device_within d) };

    ghost tells_alike = { λ d. D.tells_alike (device_within d) };
}

impl<D: Directory> Directory for Faulty<D> {
    fn create(&mut self, alloc: Global, name: FileName) -> Result<(), Refusal> {
        self.fuse.meet()?;
        let done = self.device.create(alloc, name);
        self.fuse.note(done)
    }

    fn append(&mut self, name: FileName, bytes: &[u8]) -> Result<(), Refusal> {
        self.fuse.meet()?;
        let done = self.device.append(name, bytes);
        self.fuse.note(done)
    }

    fn delete(&mut self, name: FileName) -> Result<(), Refusal> {
        self.fuse.meet()?;
        let done = self.device.delete(name);
        self.fuse.note(done)
    }

    fn sync(&mut self, names: &[FileName]) -> Result<(), Refusal> {
        self.fuse.meet()?;
        let done = self.device.sync(names);
        self.fuse.note(done)
    }

    fn names(&mut self, alloc: Global) -> Result<Vec<FileName>, Refusal> {
        self.fuse.meet()?;
        let listed = self.device.names(alloc);
        self.fuse.note(listed)
    }
}

impl<D: Shelf> Shelf for Faulty<D> {
    fn size(&mut self, name: FileName) -> Result<u64, Refusal> {
        self.fuse.meet()?;
        let size = self.device.size(name);
        self.fuse.note(size)
    }

    fn read(
        &mut self,
        alloc: Global,
        name: FileName,
        from: u64,
        len: u32,
    ) -> Result<Vec<u8>, Refusal> {
        self.fuse.meet()?;
        let bytes = self.device.read(alloc, name, from, len);
        self.fuse.note(bytes)
    }
}
