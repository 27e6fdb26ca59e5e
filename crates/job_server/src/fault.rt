//! Why a run ended early, and the exit status of one.
ghost use Rattle.std.specs.Prelude.{◌≡◌, true, false, IfOk, OnErr};
ghost use Rattle.job_server.specs.Faults.{fault_text};

use listing::{InputFault, ListingFault, WriteFault};
use loading::LoadFault;
use std::alloc::{AllocError, AllocFailed};
use std::error::Error;
use std::fmt;

/// Why jobs weren't served to their end. No report is handed out then.
#[derive(Clone, Copy, Debug, PartialEq, Eq)]
pub enum ServerFault {
    /// Memory was refused where no reply could say so: for a worker, a session, a job's replies or its report, a serial
    /// run; or the end of a block was refused, and the transaction that stayed open was overtaken. A HALT takes none.
    Memory,
    /// A job's report didn't come, or hasn't one reply for each line; or a session's pass didn't come, or a
    /// session isn't behind the job's one before and the load; or a load's units aren't the journal's first.
    Missing,
    /// All jobs that were begun and aren't over wait, in LOCKs without a timeout, for names that others of them hold.
    AllWait,
}

impl From<AllocError> for ServerFault {
    ghost use Rattle.std.specs.Prelude.{◌≡◌};
    ghost use Rattle.job_server.specs.declared.fault.ServerFault.{ServerFault};

    ghost from_gives = { λ _ fault. fault ≡ ServerFault.Memory };

    fn from(_: AllocError) -> ServerFault {
        ServerFault::Memory
    }
}

impl<T: Drop> From<AllocFailed<T>> for ServerFault {
    ghost use Rattle.std.specs.Prelude.{◌≡◌};
    ghost use Rattle.job_server.specs.declared.fault.ServerFault.{ServerFault};

    ghost from_gives = { λ _ fault. fault ≡ ServerFault.Memory };

    fn from(_: AllocFailed<T>) -> ServerFault {
        ServerFault::Memory
    }
}

/// Why scripts weren't served. No report is handed out then.
#[derive(Clone, Copy, Debug, PartialEq, Eq)]
pub enum Unserved {
    /// The listing isn't loaded. No job was begun.
    Load(LoadFault),
    /// Jobs weren't served to their end.
    Jobs(ServerFault),
}

impl From<ServerFault> for Unserved {
    ghost use Rattle.std.specs.Prelude.{◌≡◌};
    ghost use Rattle.job_server.specs.declared.fault.Unserved.{Unserved};

    ghost from_gives = { λ jobs fault. fault ≡ Unserved.Jobs jobs };

    fn from(fault: ServerFault) -> Unserved {
        Unserved::Jobs(fault)
    }
}

impl From<AllocError> for Unserved {
    ghost use Rattle.std.specs.Prelude.{◌≡◌};
    ghost use Rattle.job_server.specs.declared.fault.ServerFault.{ServerFault};
    ghost use Rattle.job_server.specs.declared.fault.Unserved.{Unserved};

    ghost from_gives = { λ _ fault. fault ≡ Unserved.Jobs ServerFault.Memory };

    fn from(_: AllocError) -> Unserved {
        Unserved::Jobs(ServerFault::Memory)
    }
}

impl<T: Drop> From<AllocFailed<T>> for Unserved {
    ghost use Rattle.std.specs.Prelude.{◌≡◌};
    ghost use Rattle.job_server.specs.declared.fault.ServerFault.{ServerFault};
    ghost use Rattle.job_server.specs.declared.fault.Unserved.{Unserved};

    ghost from_gives = { λ _ fault. fault ≡ Unserved.Jobs ServerFault.Memory };

    fn from(_: AllocFailed<T>) -> Unserved {
        Unserved::Jobs(ServerFault::Memory)
    }
}

/// Why a run of many jobs ended early. What was written is a beginning of a whole output.
#[derive(Clone, Copy, Debug, PartialEq, Eq)]
pub enum JobsFault {
    /// A call of the reader failed. Nothing was done.
    Read,
    /// A call of the writer failed, or took no byte. All jobs were done.
    Write,
    /// Memory was refused where no reply could say so.
    Memory,
    /// A job's report didn't come, or hasn't one reply for each line; or a session's pass didn't come, or a
    /// session isn't behind the job's one before and the load; or a load's units aren't the journal's first.
    Missing,
    /// All jobs that were begun and weren't over waited, in LOCKs without a timeout, for names that others of them held.
    AllWait,
    /// The listing isn't loaded. Nothing was done or written.
    Load(LoadFault),
}

impl JobsFault {
    /// The text that is printed.
    pub fn text(self) -> &'static str
        ensures { result.now ≡ fault_text self }
    {
        match self {
            JobsFault::Read => "cannot read input",
            JobsFault::Write => "cannot write output",
            JobsFault::Memory | JobsFault::Load(LoadFault::Memory) => "out of memory",
            JobsFault::Missing => "report missing",
            JobsFault::AllWait => "all jobs wait for names that others of them hold",
            JobsFault::Load(LoadFault::Line(_)) => "cannot load the listing",
        }
    }
}

impl fmt::Display for JobsFault {
    ghost use Rattle.std.specs.Prelude.{Some};
    ghost use Rattle.job_server.specs.Faults.{fault_text};

    ghost output = { λ fault. Some (fault_text fault) };

    fn fmt<W: fmt::Write>(&self, f: &mut fmt::Formatter<W>) -> fmt::Result {
        f.write_str(self.text())
    }
}

impl Error for JobsFault {}

/// The exit status of a program that ran jobs: 0 where all replies are accepted, 1 where one is a refusal, 2 after a
/// fault.
pub fn status_of(outcome: &Result<bool, JobsFault>) -> u8
    ensures accepted { IfOk outcome.now (λ refused. refused ≡ false → result ≡ 0) }
    ensures refused { IfOk outcome.now (λ refused. refused ≡ true → result ≡ 1) }
    ensures fault { OnErr outcome.now (result ≡ 2) }
{
    match outcome {
        Ok(false) => 0,
        Ok(true) => 1,
        Err(_) => 2,
    }
}

impl From<Unserved> for JobsFault {
    ghost use Rattle.std.specs.Prelude.{◌≡◌};
    ghost use Rattle.job_server.specs.Faults.{fault_of_unserved};

    ghost from_gives = { λ unserved fault. fault ≡ fault_of_unserved unserved };

    fn from(fault: Unserved) -> JobsFault {
        match fault {
            Unserved::Load(fault) => JobsFault::Load(fault),
            Unserved::Jobs(ServerFault::Memory) => JobsFault::Memory,
            Unserved::Jobs(ServerFault::Missing) => JobsFault::Missing,
            Unserved::Jobs(ServerFault::AllWait) => JobsFault::AllWait,
        }
    }
}

impl From<AllocError> for JobsFault {
    ghost use Rattle.std.specs.Prelude.{◌≡◌};
    ghost use Rattle.job_server.specs.declared.fault.JobsFault.{JobsFault};

    ghost from_gives = { λ _ fault. fault ≡ JobsFault.Memory };

    fn from(_: AllocError) -> JobsFault {
        JobsFault::Memory
    }
}

impl From<InputFault> for JobsFault {
    ghost use Rattle.std.specs.Prelude.{◌≡◌};
    ghost use Rattle.job_server.specs.Faults.{fault_of_input};

    ghost from_gives = { λ input fault. fault ≡ fault_of_input input };

    fn from(fault: InputFault) -> JobsFault {
        match fault {
            InputFault::Read => JobsFault::Read,
            InputFault::Memory => JobsFault::Memory,
        }
    }
}

impl From<WriteFault> for JobsFault {
    ghost use Rattle.std.specs.Prelude.{◌≡◌};
    ghost use Rattle.job_server.specs.declared.fault.JobsFault.{JobsFault};

    ghost from_gives = { λ _ fault. fault ≡ JobsFault.Write };

    fn from(_: WriteFault) -> JobsFault {
        JobsFault::Write
    }
}

impl From<ListingFault> for JobsFault {
    ghost use Rattle.std.specs.Prelude.{◌≡◌};
    ghost use Rattle.job_server.specs.Faults.{fault_of};

    ghost from_gives = { λ listing fault. fault ≡ fault_of listing };

    fn from(fault: ListingFault) -> JobsFault {
        match fault {
            ListingFault::Write => JobsFault::Write,
            ListingFault::Memory => JobsFault::Memory,
        }
    }
}
