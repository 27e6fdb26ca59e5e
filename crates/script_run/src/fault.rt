//! Why a script ended early, and the exit status of a run.
ghost use Rattle.std.specs.Prelude.{◌≡◌, true, false, IfOk, OnErr};
ghost use Rattle.script_run.specs.Faults.{fault_text};

use crate::Outcome;
use listing::{ListingFault, ReadFault};
use std::alloc::AllocError;
use std::error::Error;
use std::fmt;

/// Why a script ended before its end. What was written is a beginning of a whole output.
#[derive(Clone, Copy, Debug, PartialEq, Eq)]
pub enum Fault {
    /// A call of the reader failed.
    Read,
    /// A call of the writer failed, or took no byte.
    Write,
    /// Memory was refused where no reply could say so.
    Memory,
}

impl Fault {
    /// The text that is printed.
    pub fn text(self) -> &'static str
        ensures { result.now ≡ fault_text self }
    {
        match self {
            Fault::Read => "cannot read input",
            Fault::Write => "cannot write output",
            Fault::Memory => "out of memory",
        }
    }
}

impl fmt::Display for Fault {
    ghost use Rattle.std.specs.Prelude.{Some};
    ghost use Rattle.script_run.specs.Faults.{fault_text};

    ghost output = { λ fault. Some (fault_text fault) };

    fn fmt<W: fmt::Write>(&self, f: &mut fmt::Formatter<W>) -> fmt::Result {
        f.write_str(self.text())
    }
}

impl Error for Fault {}

/// The exit status of a program that ran a script: 0 where all replies are accepted, 1 where one is a refusal, 2
/// after a fault.
pub fn status_of(outcome: &Result<Outcome, Fault>) -> u8
    ensures accepted { IfOk outcome.now (λ o. o.refused ≡ false → result ≡ 0) }
    ensures refused { IfOk outcome.now (λ o. o.refused ≡ true → result ≡ 1) }
    ensures fault { OnErr outcome.now (result ≡ 2) }
{
    match outcome {
        Ok(Outcome { refused: false, .. }) => 0,
        Ok(Outcome { refused: true, .. }) => 1,
        Err(_) => 2,
    }
}

impl From<AllocError> for Fault {
    ghost use Rattle.std.specs.Prelude.{◌≡◌};
    ghost use Rattle.script_run.specs.declared.fault.Fault.{Fault};

    ghost from_gives = { λ _ fault. fault ≡ Fault.Memory };

    fn from(_: AllocError) -> Fault {
        Fault::Memory
    }
}

impl From<ReadFault> for Fault {
    ghost use Rattle.std.specs.Prelude.{◌≡◌};
    ghost use Rattle.script_run.specs.declared.fault.Fault.{Fault};

    ghost from_gives = { λ _ fault. fault ≡ Fault.Read };

    fn from(_: ReadFault) -> Fault {
        Fault::Read
    }
}

impl From<ListingFault> for Fault {
    ghost use Rattle.script_run.specs.Faults.{fault_of};
    ghost use Rattle.std.specs.Prelude.{◌≡◌};

    ghost from_gives = { λ listing fault. fault ≡ fault_of listing };

    fn from(fault: ListingFault) -> Fault {
        match fault {
            ListingFault::Write => Fault::Write,
            ListingFault::Memory => Fault::Memory,
        }
    }
}
