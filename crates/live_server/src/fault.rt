//! Why a live run ended early.
ghost use Rattle.std.specs.Prelude.{◌≡◌, true, false, IfOk, OnErr};
ghost use Rattle.live_server.specs.Faults.{fault_text};

use listing::{ListingFault, ReadFault, WriteFault};
use script_run::Outcome;
use std::alloc::AllocError;
use std::error::Error;
use std::fmt;

/// Why a live run ended before its end.
#[derive(Clone, Copy, Debug, PartialEq, Eq)]
pub enum LiveFault {
    /// A call of the reader failed.
    Read,
    /// A call of the writer failed, or took no byte.
    Write,
    /// Memory was refused where no reply could say so, or a thread that reads.
    Memory,
    /// Input has ended, and all jobs with lines left wait for names that none of them will free.
    Stuck,
}

impl LiveFault {
    /// The text that is printed.
    pub fn text(self) -> &'static str
        ensures { result.now ≡ fault_text self }
    {
        match self {
            LiveFault::Read => "cannot read input",
            LiveFault::Write => "cannot write output",
            LiveFault::Memory => "out of memory",
            LiveFault::Stuck => "input has ended, and LOCKs wait for names that no job will free",
        }
    }
}

impl fmt::Display for LiveFault {
    ghost use Rattle.std.specs.Prelude.{Some};
    ghost use Rattle.live_server.specs.Faults.{fault_text};

    ghost output = { λ fault. Some (fault_text fault) };

    fn fmt<W: fmt::Write>(&self, f: &mut fmt::Formatter<W>) -> fmt::Result {
        f.write_str(self.text())
    }
}

impl Error for LiveFault {}

/// The exit status of a program that ran live: 0 where all replies are accepted, 1 where one is a refusal, 2 after a
/// fault.
pub fn status_of(outcome: &Result<Outcome, LiveFault>) -> u8
    ensures accepted { IfOk outcome.now (λ o. o.refused ≡ false → result ≡ 0) }
    ensures refused { IfOk outcome.now (λ o. o.refused ≡ true → result ≡ 1) }
    ensures fault { OnErr outcome.now (result ≡ 2) }
{
    match outcome {
        Ok(Outcome { refused: false, .. }) => 0,
        Ok(Outcome { refused: true, .. }) => 1,
        Err(_) => 2,
    }
}

impl From<AllocError> for LiveFault {
    ghost use Rattle.std.specs.Prelude.{◌≡◌};
    ghost use Rattle.live_server.specs.declared.fault.LiveFault.{LiveFault};

    ghost from_gives = { λ _ fault. fault ≡ LiveFault.Memory };

    fn from(_: AllocError) -> LiveFault {
        LiveFault::Memory
    }
}

impl From<ReadFault> for LiveFault {
    ghost use Rattle.std.specs.Prelude.{◌≡◌};
    ghost use Rattle.live_server.specs.declared.fault.LiveFault.{LiveFault};

    ghost from_gives = { λ _ fault. fault ≡ LiveFault.Read };

    fn from(_: ReadFault) -> LiveFault {
        LiveFault::Read
    }
}

impl From<WriteFault> for LiveFault {
    ghost use Rattle.std.specs.Prelude.{◌≡◌};
    ghost use Rattle.live_server.specs.declared.fault.LiveFault.{LiveFault};

    ghost from_gives = { λ _ fault. fault ≡ LiveFault.Write };

    fn from(_: WriteFault) -> LiveFault {
        LiveFault::Write
    }
}

impl From<ListingFault> for LiveFault {
    ghost use Rattle.live_server.specs.Faults.{fault_of};
    ghost use Rattle.std.specs.Prelude.{◌≡◌};

    ghost from_gives = { λ listing fault. fault ≡ fault_of listing };

    fn from(fault: ListingFault) -> LiveFault {
        match fault {
            ListingFault::Write => LiveFault::Write,
            ListingFault::Memory => LiveFault::Memory,
        }
    }
}
