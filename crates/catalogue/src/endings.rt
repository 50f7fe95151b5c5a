//! How the program ends.
ghost use Rattle.std.specs.Prelude.{◌≡◌};
ghost use Rattle.catalogue.specs.Ended.{ending_of, in_use_fault, message_of, status_of, threads_fault};

use cat_callers::Fault;
use cat_service::cat_protocol::serving::ServeFault;

/// What ends serving early.
#[derive(Clone, Copy)]
pub(crate) enum RunFault {
    /// Another program works over the folder.
    InUse,
    /// Serving ended so.
    Serving(ServeFault),
    /// A thread couldn't be started.
    NotStarted,
}

impl RunFault {
    /// What ended serving that found the folder in use, and so served nothing: that, unless a read or a write failed.
    pub(crate) fn in_use(served: Result<(), ServeFault>) -> RunFault
        ensures { result ≡ in_use_fault served }
    {
        match served {
            Err(ServeFault::Read) => RunFault::Serving(ServeFault::Read),
            Err(ServeFault::Write) => RunFault::Serving(ServeFault::Write),
            Ok(()) | Err(ServeFault::Schema) => RunFault::InUse,
        }
    }

    /// What ended sessions in threads.
    pub(crate) fn of_threads(fault: Fault) -> RunFault
        ensures { result ≡ threads_fault fault }
    {
        match fault {
            Fault::Schema => RunFault::Serving(ServeFault::Schema),
            Fault::Read => RunFault::Serving(ServeFault::Read),
            Fault::Write => RunFault::Serving(ServeFault::Write),
            Fault::Thread => RunFault::NotStarted,
        }
    }
}

/// The ways in which the program ends.
#[derive(Clone, Copy)]
pub(crate) enum Ending {
    EndOfInput,
    WrongArguments,
    SchemaRefused,
    /// A read or a write failed.
    Fault,
    /// A thread couldn't be started.
    Unstarted,
}

impl Ending {
    pub(crate) fn of(served: Result<(), RunFault>) -> Ending
        ensures { result ≡ ending_of served }
    {
        match served {
            Ok(()) => Ending::EndOfInput,
            Err(RunFault::InUse | RunFault::Serving(ServeFault::Schema)) => Ending::SchemaRefused,
            Err(RunFault::Serving(ServeFault::Read | ServeFault::Write)) => Ending::Fault,
            Err(RunFault::NotStarted) => Ending::Unstarted,
        }
    }

    /// The exit status.
    pub(crate) fn status(self) -> u8
        ensures { result ≡ status_of self }
    {
        match self {
            Ending::EndOfInput => 0,
            Ending::WrongArguments => 1,
            Ending::SchemaRefused => 2,
            Ending::Fault => 3,
            Ending::Unstarted => 4,
        }
    }
}

/// What the program says of a fault.
pub(crate) fn message(fault: RunFault) -> &'static str
    ensures { result.now ≡ message_of fault }
{
    match fault {
        RunFault::InUse => "folder in use",
        RunFault::Serving(ServeFault::Schema) => "schema refused",
        RunFault::Serving(ServeFault::Read) => "read fault",
        RunFault::Serving(ServeFault::Write) => "write fault",
        RunFault::NotStarted => "thread not started",
    }
}
